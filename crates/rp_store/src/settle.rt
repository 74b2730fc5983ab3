//! The parts of an opening.
ghost use Rattle.std.specs.Prelude.{◌≡◌, ◌⊎◌, ◌+◌, ◌-◌, ◌^◌, ◌<◌, ◌≤◌, Ok, Err, [], ◌∷◌, length, take, drop, IsTrue, IfOk, IfSome, OnOk, OnErr, option_map};
ghost use Rattle.rp_outside.specs.Devices.{Rose};
ghost use Rattle.rp_disk.specs.Files.{Only, MayBeCut};
ghost use Rattle.rp_store.specs.Records.{Gives, last_of};
ghost use Rattle.rp_store.specs.Stores.{OpensAlike, IsKept, IsTrimmedTo};
ghost use Rattle.rp_store.specs.Walks.{IsCalm, Through, IsLookedUp, IsTrimmed, payload_in, Blames, IfDamage};

use crate::heads::{CLOSED, HEAD};
use crate::reads::{fill, length_of, sync};
use crate::troubles::Trouble;
use crate::walks::{Walked, walk};
use rp_base::Bytes;
use rp_disk::Disk;
use rp_outside::Failed;
use std::alloc::Global;

/// What an opening found: where the closed gate stands, where the last payload begins, and that
/// payload.
#[derive(Drop)]
pub(crate) struct Settled {
    pub(crate) end: u64,
    pub(crate) place: Option<u64>,
    pub(crate) payload: Option<Bytes>,
}

/// What is looked up in a file: its length, where the closed gate stands, and the last payload with
/// its size.
#[derive(Drop)]
struct Found {
    len: u64,
    end: u64,
    last: Option<u64>,
    payload: Option<Bytes>,
}

/// Syncs, looks the last payload up, cuts off what stands behind the closed gate, and syncs.
pub(crate) fn settle<D: Disk>(alloc: Global, disk: &mut D) -> Result<Settled, Trouble>
    ensures given { IfOk result (λ s. IsTrue (D.file disk.new).tells → (payloads : _)
        × Gives (D.file disk.old).seen (Ok payloads) × (s.payload ≡ last_of payloads)
        × IsKept payloads (D.file disk.new) s.end s.place) }
    ensures trimmed { IfOk result (λ s. IsTrue (D.file disk.new).tells
        → IsTrimmedTo s.end (D.file disk.old).seen (D.file disk.new).seen) }
    ensures end { IfOk result (λ s. s.end + 1 < 2 ^ 64) }
    ensures damaged { IfDamage result (λ place. IsTrue (D.file disk.new).tells
        → Gives (D.file disk.old).seen (Err place)
        × ((D.file disk.new).seen ≡ (D.file disk.old).seen)) }
    ensures any_moment { OpensAlike (D.file disk.old) (D.file disk.new) }
    ensures cause { Blames (D.faults disk.old) (D.faults disk.new) result }
{
    sync(disk)?;
    let found = look(alloc, disk)?;
    Ok(finish(disk, found)?)
}

/// Cuts off what stands behind the closed gate that was found.
fn finish<D: Disk>(disk: &mut D, found: Found) -> Result<Settled, Failed>
    requires length { IsTrue (D.file disk.old).tells
        → found.len ≡ length (D.file disk.old).seen }
    requires range { found.end + 1 < 2 ^ 64 }
    requires end { IsTrue (D.file disk.old).tells → 1 < found.len → found.end + 1 ≤ found.len }
    requires last { IfSome found.last (λ size. size + 9 ≤ found.end) }
    requires durable { IsTrue (D.file disk.old).tells
        → Only (D.file disk.old).seen (D.file disk.old).may_leave }
    ensures settled { IfOk result (λ s. (s.end ≡ found.end)
        × (s.place ≡ option_map (λ size. found.end - size) found.last)
        × (s.payload ≡ found.payload)) }
    ensures trimmed { OnOk result (IsTrue (D.file disk.new).tells
        → IsTrimmedTo found.end (D.file disk.old).seen (D.file disk.new).seen
        × Only (D.file disk.new).seen (D.file disk.new).may_leave) }
    ensures through { Through (IsTrimmed found.end (D.file disk.old).seen)
        (D.file disk.old) (D.file disk.new) }
    ensures faults { D.faults disk.old ≤ D.faults disk.new }
    ensures still { OnOk result (D.faults disk.new ≡ D.faults disk.old) }
    ensures cause { OnErr result (Rose (D.faults disk.old) (D.faults disk.new)) }
{
    trim(disk, found.len, found.end)?;
    let Found {
        len: _,
        end,
        last,
        payload,
    } = found;
    let place = last.map(|size| end - size);
    Ok(Settled {
        end,
        place,
        payload,
    })
}

/// Looks the last payload up.
fn look<D: Disk>(alloc: Global, disk: &mut D) -> Result<Found, Trouble>
    ensures length { IfOk result (λ f.
        IsTrue (D.file disk.new).tells → f.len ≡ length (D.file disk.old).seen) }
    ensures found { IfOk result (λ f. IsTrue (D.file disk.new).tells
        → IsLookedUp (D.file disk.old).seen f.end f.last f.payload) }
    ensures end { IfOk result (λ f. f.end + 1 < 2 ^ 64) }
    ensures last { IfOk result (λ f. IfSome f.last (λ size. size + 9 ≤ f.end)) }
    ensures damaged { IfDamage result (λ place.
        IsTrue (D.file disk.new).tells → Gives (D.file disk.old).seen (Err place)) }
    ensures calm { IsCalm (D.file disk.old) (D.file disk.new) }
    ensures cause { Blames (D.faults disk.old) (D.faults disk.new) result }
{
    let len = length_of(disk)?;
    if len <= 1 {
        return Ok(Found {
            len,
            end: 0,
            last: None,
            payload: None,
        });
    }
    let Walked { end, last } = walk(disk, len)?;
    let payload = last_payload(alloc, disk, end, last)?;
    Ok(Found {
        len,
        end,
        last,
        payload,
    })
}

/// The last payload, where the records end here and it has this size.
fn last_payload<D: Disk>(
    alloc: Global,
    disk: &mut D,
    end: u64,
    last: Option<u64>,
) -> Result<Option<Bytes>, Trouble>
    requires last { IfSome last (λ size. size + 9 ≤ end) }
    requires end { IsTrue (D.file disk.old).tells → end ≤ length (D.file disk.old).seen }
    ensures payload { IfOk result (λ payload. IsTrue (D.file disk.new).tells
        → payload ≡ payload_in (D.file disk.old).seen end last) }
    ensures undamaged { IfDamage result (λ _. IsTrue (D.file disk.new).tells → ⊥) }
    ensures calm { IsCalm (D.file disk.old) (D.file disk.new) }
    ensures cause { Blames (D.faults disk.old) (D.faults disk.new) result }
{
    match last {
        None => Ok(None),
        Some(size) => Ok(Some(payload_at(alloc, disk, end - size, size)?)),
    }
}

/// So many bytes from this place on, the payload of a record.
fn payload_at<D: Disk>(alloc: Global, disk: &mut D, at: u64, size: u64) -> Result<Bytes, Trouble>
    requires head { 9 ≤ at }
    requires range { at + size < 2 ^ 64 }
    requires end { IsTrue (D.file disk.old).tells → at + size ≤ length (D.file disk.old).seen }
    ensures payload { IfOk result (λ payload. IsTrue (D.file disk.new).tells
        → payload ≡ take size (drop at (D.file disk.old).seen)) }
    ensures undamaged { IfDamage result (λ _. IsTrue (D.file disk.new).tells → ⊥) }
    ensures calm { IsCalm (D.file disk.old) (D.file disk.new) }
    ensures cause { Blames (D.faults disk.old) (D.faults disk.new) result }
{
    let mut bytes = vec![in alloc; 0; size as usize]?;
    if !fill(disk, at, &mut bytes)? {
        // The disk says that there are fewer bytes than it said before.
        return Err(Trouble::Damaged { place: at - HEAD });
    }
    Ok(Bytes::from_vec(bytes))
}

/// Cuts off what stands behind the closed gate of a file of so many bytes, and syncs. A file of at
/// most one byte becomes the one byte 0.
fn trim<D: Disk>(disk: &mut D, len: u64, end: u64) -> Result<(), Failed>
    requires length { IsTrue (D.file disk.old).tells → len ≡ length (D.file disk.old).seen }
    requires range { end + 1 < 2 ^ 64 }
    requires end { IsTrue (D.file disk.old).tells → 1 < len → end + 1 ≤ len }
    requires durable { IsTrue (D.file disk.old).tells
        → Only (D.file disk.old).seen (D.file disk.old).may_leave }
    ensures trimmed { OnOk result (IsTrue (D.file disk.new).tells
        → IsTrimmedTo end (D.file disk.old).seen (D.file disk.new).seen
        × Only (D.file disk.new).seen (D.file disk.new).may_leave) }
    ensures through { Through (IsTrimmed end (D.file disk.old).seen)
        (D.file disk.old) (D.file disk.new) }
    ensures faults { D.faults disk.old ≤ D.faults disk.new }
    ensures still { OnOk result (D.faults disk.new ≡ D.faults disk.old) }
    ensures cause { OnErr result (Rose (D.faults disk.old) (D.faults disk.new)) }
{
    if len <= 1 {
        blank(disk)
    } else {
        cut_to(disk, end + 1)
    }
}

/// Makes a file of at most one byte the one byte 0, and syncs.
fn blank<D: Disk>(disk: &mut D) -> Result<(), Failed>
    requires few { IsTrue (D.file disk.old).tells → length (D.file disk.old).seen ≤ 1 }
    requires durable { IsTrue (D.file disk.old).tells
        → Only (D.file disk.old).seen (D.file disk.old).may_leave }
    ensures blank { OnOk result (IsTrue (D.file disk.new).tells
        → ((D.file disk.new).seen ≡ 0 ∷ [])
        × Only (D.file disk.new).seen (D.file disk.new).may_leave) }
    ensures through { Through (λ c. length c ≤ 1) (D.file disk.old) (D.file disk.new) }
    ensures faults { D.faults disk.old ≤ D.faults disk.new }
    ensures still { OnOk result (D.faults disk.new ≡ D.faults disk.old) }
    ensures cause { OnErr result (Rose (D.faults disk.old) (D.faults disk.new)) }
{
    disk.write_at(0, &[CLOSED])?;
    sync(disk)
}

/// Cuts a file to this length, and syncs.
fn cut_to<D: Disk>(disk: &mut D, to: u64) -> Result<(), Failed>
    requires length { IsTrue (D.file disk.old).tells → to ≤ length (D.file disk.old).seen }
    requires durable { IsTrue (D.file disk.old).tells
        → Only (D.file disk.old).seen (D.file disk.old).may_leave }
    ensures cut { OnOk result (IsTrue (D.file disk.new).tells
        → ((D.file disk.new).seen ≡ take to (D.file disk.old).seen)
        × Only (D.file disk.new).seen (D.file disk.new).may_leave) }
    ensures through { Through (MayBeCut to (D.file disk.old).seen)
        (D.file disk.old) (D.file disk.new) }
    ensures faults { D.faults disk.old ≤ D.faults disk.new }
    ensures still { OnOk result (D.faults disk.new ≡ D.faults disk.old) }
    ensures cause { OnErr result (Rose (D.faults disk.old) (D.faults disk.new)) }
{
    disk.cut(to)?;
    sync(disk)
}
