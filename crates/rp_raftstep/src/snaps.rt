//! Where a leader has its snapshots from.

ghost use Rattle.std.specs.Prelude.{◌≡◌, ℕ, IfOk};

use rp_base::NoMemory;

/// What a replica has applied, of which a leader makes a snapshot.
pub trait MakeSnap<S> {
    /// The index up to which entries are applied.
    ghost index: { Self → ℕ };

    /// The state at that index.
    ghost snapshot: { Self → S };

    fn applied(&self) -> u64
        ensures { result ≡ index self.now };

    fn make_snap(&self) -> Result<S, NoMemory>
        ensures { IfOk result (λ s. s ≡ snapshot self.now) };
}
