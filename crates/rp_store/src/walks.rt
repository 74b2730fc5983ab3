//! The walk over the records of a file.
ghost use Rattle.std.specs.Prelude.{◌≡◌, ◌+◌, ◌-◌, ◌^◌, ◌<◌, ◌≤◌, length, drop, IsTrue, IfOk, IfSome};
ghost use Rattle.rp_store.specs.Records.{IsDamagedAt};
ghost use Rattle.rp_store.specs.Walks.{IsCalm, IsHead, IsWithin, BeginsClosed, HasWalked, Blames, IfDamage};

use crate::heads::{HEAD, Head, head_of};
use crate::reads::fill;
use crate::troubles::Trouble;
use rp_disk::Disk;

/// What a walk found: where the gate behind the last open record stands, and the size of that
/// record's payload, if there is one.
#[derive(Clone, Copy, Debug, PartialEq, Eq)]
pub(crate) struct Walked {
    pub(crate) end: u64,
    pub(crate) last: Option<u64>,
}

/// Goes over the open records of a file of so many bytes, more than one.
pub(crate) fn walk<D: Disk>(disk: &mut D, len: u64) -> Result<Walked, Trouble>
    requires some { 1 < len }
    requires length { IsTrue (D.file disk.old).tells → len ≡ length (D.file disk.old).seen }
    ensures found { IfOk result (λ w. IsTrue (D.file disk.new).tells
        → HasWalked w.end w.last (D.file disk.old).seen
        × BeginsClosed (drop w.end (D.file disk.old).seen)) }
    ensures range { IfOk result (λ w. w.end < len) }
    ensures last { IfOk result (λ w. IfSome w.last (λ size. size + 9 ≤ w.end)) }
    ensures damaged { IfDamage result (λ place.
        IsTrue (D.file disk.new).tells → IsDamagedAt place (D.file disk.old).seen) }
    ensures calm { IsCalm (D.file disk.old) (D.file disk.new) }
    ensures cause { Blames (D.faults disk.old) (D.faults disk.new) result }
{
    let mut end = 0;
    let mut last = None;
    loop {
        match head_at(disk, end, len)? {
            Head::Closed => return Ok(Walked { end, last }),
            Head::CutShort => return Err(Trouble::Damaged { place: end }),
            Head::Whole { size } => {
                last = Some(size);
                end += HEAD + size;
            }
        }
    }
}

/// What stands at this place of a file of so many bytes.
fn head_at<D: Disk>(disk: &mut D, at: u64, len: u64) -> Result<Head, Trouble>
    requires place { at < len }
    requires length { IsTrue (D.file disk.old).tells → len ≡ length (D.file disk.old).seen }
    ensures head { IfOk result (λ head. IsTrue (D.file disk.new).tells
        → IsHead (drop at (D.file disk.old).seen) head) }
    ensures range { IfOk result (λ head. IsWithin head (len - at)) }
    ensures undamaged { IfDamage result (λ _. ⊥) }
    ensures calm { IsCalm (D.file disk.old) (D.file disk.new) }
    ensures cause { Blames (D.faults disk.old) (D.faults disk.new) result }
{
    let rest = len - at;
    let mut front = [0; HEAD as usize];
    let front = &mut front[..rest.min(HEAD) as usize];
    if fill(disk, at, front)? {
        Ok(head_of(front, rest))
    } else {
        // The disk says that there are fewer bytes than it said before.
        Ok(Head::CutShort)
    }
}
