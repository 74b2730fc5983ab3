//! Where a key stands among rows in the order of their keys.
ghost use Rattle.std.specs.Prelude.{◌≡◌, ◌≤◌, map, length, take, drop, IsTrue, IfOk, IfErr};
ghost use Rattle.std.specs.Ordering.{nat_cmp};
ghost use Rattle.std.specs.FinMap.Entries.{is_sorted};
ghost use Rattle.rp_table.specs.Place.{IsPlace, IsFound, IsGap};

use rp_base::{Key, NoMemory, Seq, Value};
use rp_slots::Slotted;

/// Rows in the order of their keys.
pub type Rows = Slotted<(Key, Value)>;

/// How many rows stand before the number, by binary search.
pub fn place_of(rows: &Rows, key: u128) -> usize
    requires { IsTrue (is_sorted nat_cmp rows.now.list) }
    ensures { IsPlace rows.now.list key result }
{
    let mut low = 0;
    let mut high = rows.len();
    while low < high {
        let middle = low + (high - low) / 2;
        if rows.at(middle).0.bound() < key {
            low = middle + 1;
        } else {
            high = middle;
        }
    }
    low
}

/// The place of the key's row, or else the place where it would stand.
pub fn find(rows: &Rows, key: Key) -> Result<usize, usize>
    requires { IsTrue (is_sorted nat_cmp rows.now.list) }
    ensures found { IfOk result (IsFound rows.now.list key) }
    ensures absent { IfErr result (IsGap rows.now.list key) }
{
    let at = place_of(rows, key.bound());
    if at < rows.len() {
        if rows.at(at).0 == key {
            return Ok(at);
        }
    }
    Err(at)
}

/// The keys of the rows from the one place to the other.
pub fn keys_of(rows: &Rows, from: usize, to: usize) -> Result<Seq<Key>, NoMemory>
    requires { (from ≤ to) × (to ≤ length rows.now.list) }
    ensures { IfOk result (λ keys. keys ≡ map (λ row. row.0) (drop from (take to rows.now.list))) }
{
    let mut keys = Vec::with_capacity(rows.alloc(), to - from)?;
    for at in from..to {
        keys.push_reserved(rows.at(at).0);
    }
    Ok(Seq::from_vec(keys))
}
