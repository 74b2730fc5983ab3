//! Tables: a range's keys and their values.
ghost use Rattle.std.specs.Prelude.{◌≡◌, ◌+◌, ◌≤◌, ◌<◌, ◌&&◌, nat_lt, nat_le, OnOk, IfOk, slice_get, Some};
ghost use Rattle.std.specs.FinMap as map;

use crate::places::{Rows, find, keys_of, place_of};
use rp_base::{Key, NoMemory, Seq, Span, Value};
use std::alloc::Global;
use std::marker::Model;

/// Keys in ascending order.
pub type KeyList = Seq<Key>;

/// A range's rows. Contracts see a finite map from keys to values, and apart from it the spare
/// room: how many rows can be added without memory.
#[derive(Drop)]
pub struct Table {
    rows: Rows,
}

impl Model for Table {
    ghost use Rattle.std.specs.Prelude.{IsTrue};
    ghost use Rattle.std.specs.Ordering.{nat_cmp};
    ghost use Rattle.std.specs.FinMap.{from_sorted};
    ghost use Rattle.std.specs.FinMap.Entries.{is_sorted};
    ghost use Rattle.rp_table.specs.Held.{Held, held_code};

    ghost Value = { Held };

    ghost coded = { held_code };

    ghost view = { λ t. record { map = from_sorted t.rows.list; spare = t.rows.spare } };

    ghost invariant = { λ t. IsTrue (is_sorted nat_cmp t.rows.list) };
}

impl Table {
    /// No row. It takes no memory.
    pub fn new(alloc: Global) -> Table
        ensures { result.map ≡ map.empty }
    {
        Table {
            rows: Rows::new(alloc),
        }
    }

    /// The number of rows.
    pub fn len(&self) -> usize
        ensures { result ≡ map.len self.now.map }
    {
        self.rows.len()
    }

    /// The key's value.
    pub fn get(&self, key: Key) -> Option<Value>
        ensures { result ≡ map.get self.now.map key }
    {
        match find(&self.rows, key) {
            Ok(at) => Some(self.rows.at(at).1),
            Err(_) => None,
        }
    }

    /// The row at this place, in the order of the keys.
    pub fn row(&self, at: usize) -> (Key, Value)
        requires { at < map.len self.now.map }
        ensures { slice_get (map.entries self.now.map) at ≡ Some result }
    {
        *self.rows.at(at)
    }

    /// Makes room for n rows more.
    pub fn make_room(&mut self, n: usize) -> Result<(), NoMemory>
        ensures map { self.new.map ≡ self.old.map }
        ensures room { OnOk result (n ≤ self.new.spare) }
        ensures kept { self.old.spare ≤ self.new.spare }
    {
        self.rows.make_room(n)
    }

    /// The key gets the value, without memory.
    pub fn write_one(&mut self, key: Key, value: Value)
        requires { 1 ≤ self.old.spare }
        ensures map { self.new.map ≡ map.insert self.old.map key value }
        ensures spare { self.old.spare ≤ self.new.spare + 1 }
    {
        match find(&self.rows, key) {
            Ok(at) => self.rows.replace(at, (key, value)),
            Err(at) => self.rows.insert(at, (key, value)),
        }
    }

    /// The key has no value from then on.
    pub fn remove_one(&mut self, key: Key)
        ensures map { self.new.map ≡ map.remove self.old.map key }
        ensures spare { self.old.spare ≤ self.new.spare }
    {
        if let Ok(at) = find(&self.rows, key) {
            self.rows.remove(at);
        }
    }

    /// Takes the keys from this one on away.
    pub fn cut_at(&mut self, key: Key)
        ensures map { self.new.map ≡ map.retain_keys self.old.map (λ k. nat_lt k key) }
        ensures spare { self.old.spare ≤ self.new.spare }
    {
        let at = place_of(&self.rows, key.bound());
        self.rows.truncate(at);
    }

    /// A copy.
    pub fn copy(&self) -> Result<Table, NoMemory>
        ensures { IfOk result (λ t. t.map ≡ self.now.map) }
    {
        let rows = self.rows.copy_from(0)?;
        Ok(Table { rows })
    }

    /// A copy of the part from the key on.
    pub fn split_off(&self, key: Key) -> Result<Table, NoMemory>
        ensures { IfOk result (λ t. t.map ≡ map.retain_keys self.now.map (λ k. nat_le key k)) }
    {
        let at = place_of(&self.rows, key.bound());
        let rows = self.rows.copy_from(at)?;
        Ok(Table { rows })
    }

    /// How many keys lie in the span.
    pub fn count_in(&self, span: Span) -> u64
        ensures { result ≡ map.len (map.retain_keys self.now.map (λ k. nat_le span.start k && nat_lt k span.end)) }
    {
        let low = place_of(&self.rows, span.start);
        let high = place_of(&self.rows, span.end);
        (high - low) as u64
    }

    /// The keys in the span, ascending.
    pub fn keys_in(&self, span: Span) -> Result<KeyList, NoMemory>
        ensures { IfOk result (λ keys. keys ≡ map.keys (map.retain_keys self.now.map (λ k. nat_le span.start k && nat_lt k span.end))) }
    {
        let start = place_of(&self.rows, span.start);
        let end = place_of(&self.rows, span.end);
        keys_of(&self.rows, start, end)
    }
}
