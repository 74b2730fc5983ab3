//! A record behind the others.
ghost use Rattle.std.specs.Prelude.{◌≡◌, ◌+◌, ◌^◌, ◌<◌, ◌≤◌, ◌++◌, [], ◌∷◌, length, take, drop, IsTrue, OnOk, OnErr};
ghost use Rattle.rp_outside.specs.Devices.{Rose};
ghost use Rattle.rp_disk.specs.Files.{Only};
ghost use Rattle.rp_store.specs.Stores.{staged, opened};
ghost use Rattle.rp_store.specs.Walks.{Through, Begins, IsButAt, IsAppending};

use crate::heads::{CLOSED, HEAD, OPEN};
use crate::reads::sync;
use rp_disk::Disk;
use rp_outside::Failed;

/// Puts a record of this payload at the closed gate of a file that ends with it, and a closed gate
/// behind the record. The gate in front is opened only once all this is on the disk.
pub(crate) fn append<D: Disk>(disk: &mut D, end: u64, payload: &[u8]) -> Result<(), Failed>
    requires range { end + 10 + length payload.now < 2 ^ 64 }
    requires end { IsTrue (D.file disk.old).tells → length (D.file disk.old).seen ≡ end + 1 }
    requires durable { IsTrue (D.file disk.old).tells
        → Only (D.file disk.old).seen (D.file disk.old).may_leave }
    ensures appended { OnOk result (IsTrue (D.file disk.new).tells
        → ((D.file disk.new).seen ≡ opened end (staged (D.file disk.old).seen payload.now))
        × Only (D.file disk.new).seen (D.file disk.new).may_leave) }
    ensures through { Through (IsAppending end (D.file disk.old).seen payload.now)
        (D.file disk.old) (D.file disk.new) }
    ensures faults { D.faults disk.old ≤ D.faults disk.new }
    ensures still { OnOk result (D.faults disk.new ≡ D.faults disk.old) }
    ensures cause { OnErr result (Rose (D.faults disk.old) (D.faults disk.new)) }
{
    stage(disk, end, payload)?;
    open_gate(disk, end)
}

/// Writes the length, the payload and a closed gate behind the file, and syncs.
fn stage<D: Disk>(disk: &mut D, end: u64, payload: &[u8]) -> Result<(), Failed>
    requires range { end + 10 + length payload.now < 2 ^ 64 }
    requires end { IsTrue (D.file disk.old).tells → length (D.file disk.old).seen ≡ end + 1 }
    requires durable { IsTrue (D.file disk.old).tells
        → Only (D.file disk.old).seen (D.file disk.old).may_leave }
    ensures staged { OnOk result (IsTrue (D.file disk.new).tells
        → ((D.file disk.new).seen ≡ staged (D.file disk.old).seen payload.now)
        × Only (D.file disk.new).seen (D.file disk.new).may_leave) }
    ensures through { Through (Begins (D.file disk.old).seen)
        (D.file disk.old) (D.file disk.new) }
    ensures faults { D.faults disk.old ≤ D.faults disk.new }
    ensures still { OnOk result (D.faults disk.new ≡ D.faults disk.old) }
    ensures cause { OnErr result (Rose (D.faults disk.old) (D.faults disk.new)) }
{
    let size = payload.len() as u64;
    disk.write_at(end + 1, &size.to_be_bytes())?;
    disk.write_at(end + HEAD, payload)?;
    disk.write_at(end + HEAD + size, &[CLOSED])?;
    sync(disk)
}

/// Opens the gate at this place, and syncs.
fn open_gate<D: Disk>(disk: &mut D, place: u64) -> Result<(), Failed>
    requires place { IsTrue (D.file disk.old).tells → place < length (D.file disk.old).seen }
    requires durable { IsTrue (D.file disk.old).tells
        → Only (D.file disk.old).seen (D.file disk.old).may_leave }
    ensures opened { OnOk result (IsTrue (D.file disk.new).tells
        → ((D.file disk.new).seen ≡ opened place (D.file disk.old).seen)
        × Only (D.file disk.new).seen (D.file disk.new).may_leave) }
    ensures through { Through (IsButAt place (D.file disk.old).seen)
        (D.file disk.old) (D.file disk.new) }
    ensures faults { D.faults disk.old ≤ D.faults disk.new }
    ensures still { OnOk result (D.faults disk.new ≡ D.faults disk.old) }
    ensures cause { OnErr result (Rose (D.faults disk.old) (D.faults disk.new)) }
{
    disk.write_at(place, &[OPEN])?;
    sync(disk)
}
