//! A disk that answers as if a long file lay on it.
ghost use Rattle.rp_disk.specs.Files.{untold};
ghost use Rattle.rp_disk.specs.Told.{untold_is_told};

use rp_disk::Disk;
use rp_outside::Failed;

/// A file with a record of 268,435,400 bytes, one of a single byte behind it, and a closed gate at
/// place 268,435,419. It tells nothing, and forgets what is written.
#[derive(Drop)]
pub struct LongDisk;

/// The byte at this place: two open gates, each with the length of its payload.
fn byte_at(place: u64) -> u8 {
    match place {
        0 | 268_435_409 => 1,
        5 => 15,
        6 | 7 => 255,
        8 => 200,
        268_435_417 => 1,
        _ => 0,
    }
}

impl Disk for LongDisk {
    ghost file = { λ _. untold };

    ghost faults = { λ _. 0 };

    ghost is_told = { λ _ told. untold_is_told told };

    fn len(&mut self) -> Result<u64, Failed> {
        Ok(268_435_420)
    }

    fn read_at(&mut self, at: u64, buf: &mut [u8]) -> Result<usize, Failed> {
        let mut place = at;
        let n = buf.len();
        for byte in buf {
            *byte = byte_at(place);
            place = place.saturating_add(1);
        }
        Ok(n)
    }

    fn write_at(&mut self, _at: u64, _bytes: &[u8]) -> Result<(), Failed> {
        Ok(())
    }

    fn cut(&mut self, _to: u64) -> Result<(), Failed> {
        Ok(())
    }

    fn sync(&mut self) -> Result<(), Failed> {
        Ok(())
    }
}
