//! The bytes in front of a payload: a gate, and the payload's length.
ghost use Rattle.std.specs.Prelude.{◌≡◌, ◌≢◌, ◌+◌, ◌<◌, List, ℕ, length, take, min, MatchOption};
ghost use Rattle.std.specs.Int.{w64, from_be_bytes};
ghost use Rattle.rp_store.specs.Walks.{IsHead, IsWithin};

/// An open gate.
pub(crate) const OPEN: u8 = 1;

/// A closed gate.
pub(crate) const CLOSED: u8 = 0;

/// How many bytes stand in front of a payload.
pub(crate) const HEAD: u64 = 9;

/// What stands at a gate.
#[derive(Clone, Copy, Debug, PartialEq, Eq)]
pub(crate) enum Head {
    /// A gate that is not open.
    Closed,
    /// An open record with a payload of so many bytes, and a byte behind it.
    Whole { size: u64 },
    /// An open record that is cut short or has no byte behind it.
    CutShort,
}

/// What stands at a gate, by the first nine bytes from it on, or all where there are fewer, and by how
/// many bytes there are.
pub(crate) fn head_of(front: &[u8], rest: u64) -> Head
    requires some { 0 < rest }
    requires front { length front.now ≡ min 9 rest }
    ensures head { (bytes : List ℕ) → length bytes ≡ rest
        → take (length front.now) bytes ≡ front.now → IsHead bytes result }
    ensures size { IsWithin result rest }
{
    match front {
        [OPEN, size @ ..] => match number_of(size) {
            Some(size) if size < rest - HEAD => Head::Whole { size },
            _ => Head::CutShort,
        },
        _ => Head::Closed,
    }
}

/// Eight bytes as a number, the highest first.
fn number_of(size: &[u8]) -> Option<u64>
    ensures { MatchOption result (length size.now ≢ 8)
        (λ n. (length size.now ≡ 8) × (n ≡ from_be_bytes w64 size.now)) }
{
    match size {
        [a, b, c, d, e, f, g, h] => Some(u64::from_be_bytes([*a, *b, *c, *d, *e, *f, *g, *h])),
        _ => None,
    }
}
