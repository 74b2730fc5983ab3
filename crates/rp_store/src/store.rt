//! A store: payloads on a disk, of which the last outlives a crash.
ghost use Rattle.std.specs.Prelude.{◌≡◌, ◌+◌, ◌^◌, ◌-◌, ◌<◌, ◌≤◌, ◌++◌, [], ◌∷◌, min, Ok, Err, IsTrue, IfOk, length};
ghost use Rattle.rp_store.specs.Answers.{open_disk, save_disk, IfDamaged, MatchFull, OpenBlames, SaveBlames};
ghost use Rattle.rp_store.specs.Records.{Gives, last_of};
ghost use Rattle.rp_store.specs.Stores.{Keeps, KeepsSome, SavesOrNot, LeavesLast, OpensAlike, IsSound, StaysSound, IsTrimmedTo, staged, opened};

use crate::append::append;
use crate::heads::HEAD;
use crate::settle::{Settled, settle};
use crate::troubles::Trouble;
use rp_base::Bytes;
use rp_disk::Disk;
use std::alloc::Global;
use std::marker::Model;

/// The most bytes that a save leaves in a file.
pub const DISK_BYTES_MOST: u64 = 268_435_456;

/// Payloads on a disk. Contracts see the disk, where the closed gate behind the last record stands,
/// and where the last payload begins.
#[derive(Drop)]
pub struct Store<D: Disk> {
    disk: D,
    end: u64,
    place: Option<u64>,
}

impl<D: Disk> Model for Store<D> {
    ghost use Rattle.rp_store.specs.Stores.{Standing, KeepsSome};

    ghost Value = { Standing D };

    ghost view = { λ s. record { disk = s.disk; end = s.end; place = s.place } };

    ghost invariant = { λ s. KeepsSome D.file (record { disk = s.disk; end = s.end; place = s.place }) };
}

/// Why a disk was not opened. Each hands the disk back.
#[derive(Drop)]
pub enum OpenFault<D: Disk> {
    /// The open record at `place` is cut short or has no byte behind it. Nothing of the file changed.
    Damaged { disk: D, place: u64 },
    /// The disk failed.
    Disk { disk: D },
    /// Memory ran out.
    NoMemory { disk: D },
}

/// Why a payload was not saved.
#[derive(Drop)]
pub enum SaveFault<D: Disk> {
    /// The file would have `needed` bytes, more than `DISK_BYTES_MOST`. Nothing changed.
    Full { store: Store<D>, needed: u64 },
    /// The disk failed. It is to be opened again.
    Disk { disk: D },
}

/// Opens a disk, and gives the payload of its last open record. It syncs first, so that what it reads
/// is what a crash leaves. What stands behind the closed gate is cut off.
pub fn open<D: Disk>(alloc: Global, mut disk: D) -> Result<(Store<D>, Option<Bytes>), OpenFault<D>>
    // The payload is the last that the file gives, as it read when the call began.
    ensures given { IfOk result (λ r. IsTrue (D.file r.0.disk).tells → (payloads : _)
        × Gives (D.file disk).seen (Ok payloads) × (r.1 ≡ last_of payloads)
        × Keeps D.file r.0 payloads) }
    ensures trimmed { IfOk result (λ r. IsTrue (D.file r.0.disk).tells
        → IsTrimmedTo r.0.end (D.file disk).seen (D.file r.0.disk).seen) }
    ensures damaged { IfDamaged result (λ left place. IsTrue (D.file left).tells
        → Gives (D.file disk).seen (Err place) × ((D.file left).seen ≡ (D.file disk).seen)) }
    // A crash at any moment of the call leaves a file that gives what one gives that a crash might
    // have left as the call began, also where the call fails.
    ensures any_moment { OpensAlike (D.file disk) (D.file (open_disk result)) }
    // On a disk that only the store wrote no record is damaged.
    ensures sound { StaysSound (D.file disk) (D.file (open_disk result)) }
    ensures undamaged { IfDamaged result (λ left place.
        IsTrue (D.file left).tells → IsSound (D.file disk) → ⊥) }
    ensures cause { OpenBlames D.faults disk result }
{
    match settle(alloc, &mut disk) {
        Ok(
            Settled {
                end,
                place,
                payload,
            },
        ) => Ok((Store { disk, end, place }, payload)),
        Err(Trouble::Damaged { place }) => Err(OpenFault::Damaged { disk, place }),
        Err(Trouble::Disk) => Err(OpenFault::Disk { disk }),
        Err(Trouble::NoMemory) => Err(OpenFault::NoMemory { disk }),
    }
}

impl<D: Disk> Store<D> {
    /// Saves a payload behind the others. From its success on each crash leaves it as the last one. It
    /// takes no memory.
    pub fn save(self, payload: &Bytes) -> Result<Store<D>, SaveFault<D>>
        ensures saved { IfOk result (λ store. IsTrue (D.file store.disk).tells → (payloads : _)
            × Keeps D.file self payloads
            × Keeps D.file store (payloads ++ (payload.now ∷ []))) }
        ensures written { IfOk result (λ store. IsTrue (D.file store.disk).tells
            → (D.file store.disk).seen ≡ opened self.end (staged (D.file self.disk).seen payload.now)) }
        // Once it has answered Ok, every crash leaves the new payload as the last one.
        ensures acknowledged { IfOk result (λ store. IsTrue (D.file store.disk).tells
            → LeavesLast payload.now (D.file store.disk)) }
        // A crash at any moment of the call leaves the payloads from before it or the new one behind
        // them, also where the call fails.
        ensures any_moment { SavesOrNot D.file self payload.now (save_disk result) }
        ensures sound { IsTrue (D.file (save_disk result)).tells
            → IsSound (D.file (save_disk result)) }
        // Full comes exactly where the file would pass the most bytes, and changes nothing.
        ensures full { MatchFull result
            (λ store needed. (store ≡ self) × (268435456 < self.end + 10 + length payload.now)
            × (needed ≡ min (self.end + 10 + length payload.now) (2 ^ 64 - 1)))
            (self.end + 10 + length payload.now ≤ 268435456) }
        ensures cause { SaveBlames D.faults self.disk result }
    {
        let size = payload.as_slice().len() as u64;
        let needed = self.end.saturating_add(10).saturating_add(size);
        if needed > DISK_BYTES_MOST {
            return Err(SaveFault::Full {
                store: self,
                needed,
            });
        }
        self.put(payload)
    }

    /// Saves a payload for which the file has room.
    fn put(self, payload: &Bytes) -> Result<Store<D>, SaveFault<D>>
        requires room { self.end + 10 + length payload.now ≤ 268435456 }
        ensures saved { IfOk result (λ store. IsTrue (D.file store.disk).tells → (payloads : _)
            × Keeps D.file self payloads
            × Keeps D.file store (payloads ++ (payload.now ∷ []))) }
        ensures written { IfOk result (λ store. IsTrue (D.file store.disk).tells
            → (D.file store.disk).seen ≡ opened self.end (staged (D.file self.disk).seen payload.now)) }
        ensures acknowledged { IfOk result (λ store. IsTrue (D.file store.disk).tells
            → LeavesLast payload.now (D.file store.disk)) }
        ensures any_moment { SavesOrNot D.file self payload.now (save_disk result) }
        ensures sound { IsTrue (D.file (save_disk result)).tells
            → IsSound (D.file (save_disk result)) }
        ensures full { MatchFull result (λ _ _. ⊥) (Unit {0}) }
        ensures cause { SaveBlames D.faults self.disk result }
    {
        let Store {
            mut disk,
            end,
            place: _,
        } = self;
        match append(&mut disk, end, payload.as_slice()) {
            Ok(()) => Ok(Store {
                disk,
                end: end + HEAD + payload.len() as u64,
                place: Some(end + HEAD),
            }),
            Err(_) => Err(SaveFault::Disk { disk }),
        }
    }

    /// The disk. It takes no memory.
    pub fn disk(self) -> D
        ensures disk { result ≡ self.disk }
        ensures kept { KeepsSome D.file self }
    {
        let Store {
            disk,
            end: _,
            place: _,
        } = self;
        disk
    }

    /// The place in the file of the first byte of the last open record's payload, or `None` where no
    /// record is open. It takes no memory.
    pub fn place(&self) -> Option<u64>
        ensures place { result ≡ self.now.place }
        ensures kept { KeepsSome D.file self.now }
    {
        self.place
    }
}
