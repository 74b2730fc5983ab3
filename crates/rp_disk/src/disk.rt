//! A disk: one file that outlives a crash.
ghost use Rattle.std.specs.Prelude.{◌≡◌, ℕ, ◌≤◌, length, take, IsTrue, IfOk, OnOk, OnErr};
ghost use Rattle.rp_outside.specs.Devices.{Rose};
ghost use Rattle.rp_disk.specs.Files.{File, IsTold, Torn, MayBeCut, Same, Only, Changes, SeenStays, Reads, put};

use rp_outside::Failed;

/// One file that outlives a crash. Between two syncs each written range, and what lies past the old
/// end, may hold any bytes after a crash, and a cut may be there or not. A call that fails may have
/// been done, not done, or done in part.
pub trait Disk {
    // What it tells of its file.
    ghost file: { Self → File };

    // How many faults it had. It never falls.
    ghost faults: { Self → ℕ };

    /// How many bytes the file has.
    fn len(&mut self) -> Result<u64, Failed>
        ensures length { IfOk result (λ n.
            IsTrue (file self.old).tells → n ≡ length (file self.old).seen) }
        ensures seen { SeenStays (file self.old) (file self.new) }
        ensures crash { Changes Same (file self.old) (file self.new) }
        ensures faults { faults self.old ≤ faults self.new }
        ensures calm { OnOk result (faults self.new ≡ faults self.old) }
        ensures cause { OnErr result (Rose (faults self.old) (faults self.new)) };

    /// Puts the bytes of the file from this place on in the front of the buffer and answers how many:
    /// at least 1 where the buffer is not empty and the place is below the length, else 0.
    fn read_at(&mut self, at: u64, buf: &mut [u8]) -> Result<usize, Failed>
        ensures within { IfOk result (λ n. n ≤ length buf.new) }
        ensures bytes { IfOk result (λ n.
            IsTrue (file self.old).tells → Reads (file self.old).seen at n buf.new) }
        ensures seen { SeenStays (file self.old) (file self.new) }
        ensures crash { Changes Same (file self.old) (file self.new) }
        ensures faults { faults self.old ≤ faults self.new }
        ensures calm { OnOk result (faults self.new ≡ faults self.old) }
        ensures cause { OnErr result (Rose (faults self.old) (faults self.new)) };

    /// Writes all these bytes over what stands at this place, and past the end.
    fn write_at(&mut self, at: u64, bytes: &[u8]) -> Result<(), Failed>
        requires { IsTrue (file self.old).tells → at ≤ length (file self.old).seen }
        ensures written { OnOk result (IsTrue (file self.new).tells
            → (file self.new).seen ≡ put at bytes.now (file self.old).seen) }
        ensures failed { OnErr result (IsTrue (file self.new).tells
            → Torn at (length bytes.now) (file self.old).seen (file self.new).seen) }
        ensures crash { Changes (Torn at (length bytes.now)) (file self.old) (file self.new) }
        ensures faults { faults self.old ≤ faults self.new }
        ensures calm { OnOk result (faults self.new ≡ faults self.old) }
        ensures cause { OnErr result (Rose (faults self.old) (faults self.new)) };

    /// Cuts the file to this length.
    fn cut(&mut self, to: u64) -> Result<(), Failed>
        requires { IsTrue (file self.old).tells → to ≤ length (file self.old).seen }
        ensures done { OnOk result (IsTrue (file self.new).tells
            → (file self.new).seen ≡ take to (file self.old).seen) }
        ensures failed { OnErr result (IsTrue (file self.new).tells
            → MayBeCut to (file self.old).seen (file self.new).seen) }
        ensures crash { Changes (MayBeCut to) (file self.old) (file self.new) }
        ensures faults { faults self.old ≤ faults self.new }
        ensures calm { OnOk result (faults self.new ≡ faults self.old) }
        ensures cause { OnErr result (Rose (faults self.old) (faults self.new)) };

    /// From its success on a crash leaves what a read gives, until the next write or cut.
    fn sync(&mut self) -> Result<(), Failed>
        ensures durable { OnOk result (IsTrue (file self.new).tells
            → Only (file self.old).seen (file self.new).may_leave) }
        ensures seen { SeenStays (file self.old) (file self.new) }
        ensures crash { Changes Same (file self.old) (file self.new) }
        ensures faults { faults self.old ≤ faults self.new }
        ensures calm { OnOk result (faults self.new ≡ faults self.old) }
        ensures cause { OnErr result (Rose (faults self.old) (faults self.new)) };

    // Where it tells of its file, that is a file.
    ghost is_told: { (d : Self) → IsTrue (file d).tells → IsTold (file d) };
}

impl<D: Disk> Disk for &mut D {
    ghost file = { λ d. D.file d.now };

    ghost faults = { λ d. D.faults d.now };

    ghost is_told = { λ d. D.is_told d.now };

    fn len(&mut self) -> Result<u64, Failed> {
        Disk::len(&mut **self)
    }

    fn read_at(&mut self, at: u64, buf: &mut [u8]) -> Result<usize, Failed> {
        Disk::read_at(&mut **self, at, buf)
    }

    fn write_at(&mut self, at: u64, bytes: &[u8]) -> Result<(), Failed> {
        Disk::write_at(&mut **self, at, bytes)
    }

    fn cut(&mut self, to: u64) -> Result<(), Failed> {
        Disk::cut(&mut **self, to)
    }

    fn sync(&mut self) -> Result<(), Failed> {
        Disk::sync(&mut **self)
    }
}
