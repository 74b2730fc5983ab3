//! Where bytes come from and go to.
ghost use Rattle.std.specs.Prelude.{◌≡◌, ℕ, ◌+◌, ◌<◌, ◌≤◌, List, length, take, Option, IfOk, OnOk, OnErr};
ghost use Rattle.rp_outside.specs.Devices.{Rose, Comes, IsAtEnd, Adds, AddsFront};

use std::error::Error;
use std::fmt;

/// A device did not do what was asked of it. The device counts each such fault.
#[derive(Clone, Copy, Debug, PartialEq, Eq)]
pub struct Failed;

impl fmt::Display for Failed {
    fn fmt<W: fmt::Write>(&self, f: &mut fmt::Formatter<W>) -> fmt::Result {
        f.write_str("device failed")
    }
}

impl Error for Failed {}

/// Where bytes come from.
pub trait Source {
    // The bytes still to come, where it tells them.
    ghost left: { Self → Option (List ℕ) };

    // How many faults it had. It never falls.
    ghost faults: { Self → ℕ };

    /// Puts the next bytes in the front of the buffer and answers how many. 0 for a buffer that is
    /// not empty is the end. `Failed` changes nothing of what is left, nor whether that is told.
    fn read(&mut self, buf: &mut [u8]) -> Result<usize, Failed>
        ensures within { IfOk result (λ n. n ≤ length buf.new) }
        ensures comes { IfOk result (λ n. Comes (left self.old) (take n buf.new) (left self.new)) }
        ensures end { IfOk result (λ n. n ≡ 0 → 0 < length buf.new → IsAtEnd (left self.new)) }
        ensures failed { OnErr result (left self.new ≡ left self.old) }
        ensures faults { faults self.old ≤ faults self.new }
        ensures calm { OnOk result (faults self.new ≡ faults self.old) }
        ensures cause { OnErr result (Rose (faults self.old) (faults self.new)) };
}

/// Where bytes go.
pub trait Sink {
    // The bytes taken, where it tells them.
    ghost held: { Self → Option (List ℕ) };

    // How many faults it had. It never falls.
    ghost faults: { Self → ℕ };

    /// Takes the first bytes of the piece and answers how many, at least 1 of a piece that is not
    /// empty. `Failed` changes nothing of what is held, nor whether that is told.
    fn write(&mut self, piece: &[u8]) -> Result<usize, Failed>
        ensures within { IfOk result (λ n. n ≤ length piece.now) }
        ensures some { IfOk result (λ n. 0 < length piece.now → 0 < n) }
        ensures adds { IfOk result (λ n. Adds (held self.old) (take n piece.now) (held self.new)) }
        ensures failed { OnErr result (held self.new ≡ held self.old) }
        ensures faults { faults self.old ≤ faults self.new }
        ensures calm { OnOk result (faults self.new ≡ faults self.old) }
        ensures cause { OnErr result (Rose (faults self.old) (faults self.new)) };
}

/// Writes all bytes, call after call. It takes no memory.
pub fn put_all<K: Sink>(sink: &mut K, bytes: &[u8]) -> Result<(), Failed>
    ensures ok { OnOk result (Adds (K.held sink.old) bytes.now (K.held sink.new)) }
    ensures front { OnErr result (AddsFront (K.held sink.old) bytes.now (K.held sink.new)) }
    ensures faults { K.faults sink.old ≤ K.faults sink.new }
    ensures calm { OnOk result (K.faults sink.new ≡ K.faults sink.old) }
    ensures cause { OnErr result (Rose (K.faults sink.old) (K.faults sink.new)) }
{
    let mut done = 0;
    while done < bytes.len() {
        done += sink.write(&bytes[done..])?;
    }
    Ok(())
}
