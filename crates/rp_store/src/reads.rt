//! Calls that change nothing of a file.
ghost use Rattle.std.specs.Prelude.{◌≡◌, ◌+◌, ◌^◌, ◌<◌, ◌≤◌, true, length, take, drop, IsTrue, IfOk, OnOk, OnErr};
ghost use Rattle.rp_outside.specs.Devices.{Rose};
ghost use Rattle.rp_disk.specs.Files.{Reads, Only};
ghost use Rattle.rp_store.specs.Walks.{IsCalm};

use rp_disk::Disk;
use rp_outside::Failed;

/// How many bytes the file has.
pub(crate) fn length_of<D: Disk>(disk: &mut D) -> Result<u64, Failed>
    ensures length { IfOk result (λ n.
        IsTrue (D.file disk.new).tells → n ≡ length (D.file disk.old).seen) }
    ensures calm { IsCalm (D.file disk.old) (D.file disk.new) }
    ensures faults { D.faults disk.old ≤ D.faults disk.new }
    ensures still { OnOk result (D.faults disk.new ≡ D.faults disk.old) }
    ensures cause { OnErr result (Rose (D.faults disk.old) (D.faults disk.new)) }
{
    disk.len()
}

/// Makes a crash leave what a read gives.
pub(crate) fn sync<D: Disk>(disk: &mut D) -> Result<(), Failed>
    ensures durable { OnOk result (IsTrue (D.file disk.new).tells
        → Only (D.file disk.old).seen (D.file disk.new).may_leave) }
    ensures calm { IsCalm (D.file disk.old) (D.file disk.new) }
    ensures faults { D.faults disk.old ≤ D.faults disk.new }
    ensures still { OnOk result (D.faults disk.new ≡ D.faults disk.old) }
    ensures cause { OnErr result (Rose (D.faults disk.old) (D.faults disk.new)) }
{
    disk.sync()
}

/// Fills the buffer with the bytes of the file from this place on, and answers whether there were so
/// many.
pub(crate) fn fill<D: Disk>(disk: &mut D, at: u64, buf: &mut [u8]) -> Result<bool, Failed>
    requires { at + length buf.old < 2 ^ 64 }
    ensures size { length buf.new ≡ length buf.old }
    ensures whole { IfOk result (λ whole. IsTrue (D.file disk.new).tells
        → at + length buf.old ≤ length (D.file disk.old).seen
        → (whole ≡ true) × (buf.new ≡ take (length buf.old) (drop at (D.file disk.old).seen))) }
    ensures calm { IsCalm (D.file disk.old) (D.file disk.new) }
    ensures faults { D.faults disk.old ≤ D.faults disk.new }
    ensures still { OnOk result (D.faults disk.new ≡ D.faults disk.old) }
    ensures cause { OnErr result (Rose (D.faults disk.old) (D.faults disk.new)) }
{
    let mut done = 0;
    while done < buf.len() {
        let n = read_some(disk, at + done as u64, &mut buf[done..])?;
        if n == 0 {
            return Ok(false);
        }
        done += n;
    }
    Ok(true)
}

/// Puts some bytes of the file from this place on in the front of the buffer.
fn read_some<D: Disk>(disk: &mut D, at: u64, buf: &mut [u8]) -> Result<usize, Failed>
    ensures within { IfOk result (λ n. n ≤ length buf.new) }
    ensures bytes { IfOk result (λ n.
        IsTrue (D.file disk.new).tells → Reads (D.file disk.old).seen at n buf.new) }
    ensures calm { IsCalm (D.file disk.old) (D.file disk.new) }
    ensures faults { D.faults disk.old ≤ D.faults disk.new }
    ensures still { OnOk result (D.faults disk.new ≡ D.faults disk.old) }
    ensures cause { OnErr result (Rose (D.faults disk.old) (D.faults disk.new)) }
{
    disk.read_at(at, buf)
}
