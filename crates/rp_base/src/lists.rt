//! Lists that contracts see as lists.
ghost use Rattle.std.specs.Prelude.{◌≡◌, ◌+◌, ◌-◌, ◌<◌, ◌≤◌, List, [], ◌∷◌, ◌++◌, length, take, drop, slice_get, IfOk, OnOk, OnErr, vec_len, vec_capacity};

use crate::memory::NoMemory;
use std::alloc::Global;
use std::marker::Model;

/// A list that is made once and handed on. Contracts see it as a list.
#[derive(Drop)]
pub struct Seq<T> {
    items: Vec<T>,
}

impl<T> Model for Seq<T> {
    ghost use Rattle.std.specs.Prelude.{List};

    ghost Value = { List T };

    ghost view = { λ s. s.items.items };
}

/// Any bytes.
pub type Bytes = Seq<u8>;

/// The numbers of calls, counted from 1.
pub type Calls = Seq<u64>;

impl<T> Seq<T> {
    /// The empty list. It takes no memory.
    pub fn new(alloc: Global) -> Seq<T>
        ensures { result ≡ [] }
    {
        Seq {
            items: Vec::new(alloc),
        }
    }

    /// The items of a vector. It takes no memory.
    pub fn from_vec(items: Vec<T>) -> Seq<T>
        ensures { result ≡ items.items }
    {
        Seq { items }
    }

    /// The items as a vector. It takes no memory.
    pub fn into_vec(self) -> Vec<T>
        ensures { result.items ≡ self }
    {
        let Seq { items } = self;
        items
    }

    /// The items as a slice.
    pub fn as_slice(&self) -> &[T]
        ensures { result.now ≡ self.now }
    {
        &self.items
    }

    /// How many items there are.
    pub fn len(&self) -> usize
        ensures { result ≡ length self.now }
    {
        self.items.len()
    }
}

impl<T: Drop> Seq<T> {
    /// Puts an item at the end.
    pub fn push(&mut self, item: T) -> Result<(), NoMemory>
        ensures ok { OnOk result (self.new ≡ self.old ++ item ∷ []) }
        ensures err { OnErr result (self.new ≡ self.old) }
    {
        self.items.push(item)?;
        Ok(())
    }

    /// Keeps the first n items. It takes no memory.
    pub fn truncate(&mut self, n: usize)
        ensures { self.new ≡ take n self.old }
    {
        self.items.truncate(n);
    }

    /// Puts a list at the end. Behind the empty list it takes no memory.
    pub fn append(&mut self, more: Seq<T>) -> Result<(), NoMemory>
        ensures ok { OnOk result (self.new ≡ self.old ++ more) }
        ensures err { OnErr result (self.new ≡ self.old) }
    {
        if self.items.is_empty() {
            *self = more;
            return Ok(());
        }
        let mut more = more.into_vec();
        self.items.append(&mut more)?;
        Ok(())
    }
}

impl<T: Copy> Seq<T> {
    /// An equal list in memory of its own, or want of it.
    pub fn copy(&self) -> Result<Seq<T>, NoMemory>
        ensures { IfOk result (λ s. s ≡ self.now) }
    {
        let items = Vec::from_slice(*self.items.allocator(), &self.items)?;
        Ok(Seq { items })
    }
}

/// A list that grows without memory, once room was made. Contracts see the list, and apart from it
/// its spare room: how many items it takes without memory.
#[derive(Drop)]
pub struct Grown<T> {
    items: Vec<T>,
}

impl<T> Model for Grown<T> {
    ghost use Rattle.std.specs.Prelude.{◌-◌, vec_len, vec_capacity};
    ghost use Rattle.rp_base.specs.Kept.{Kept, kept_code};

    ghost Value = { Kept T };

    ghost coded = { kept_code T.code };

    ghost view = { λ s. record { list = s.items.items; spare = vec_capacity s.items - vec_len s.items } };
}

impl<T> Grown<T> {
    /// The empty list. It takes no memory.
    pub fn new(alloc: Global) -> Grown<T>
        ensures { result.list ≡ [] }
    {
        Grown {
            items: Vec::new(alloc),
        }
    }

    /// The items of a vector, with its spare room. It takes no memory.
    pub fn from_vec(items: Vec<T>) -> Grown<T>
        ensures list { result.list ≡ items.items }
        ensures spare { result.spare ≡ vec_capacity items - vec_len items }
    {
        Grown { items }
    }

    /// The items as a vector, with their spare room. It takes no memory.
    pub fn into_vec(self) -> Vec<T>
        ensures list { result.items ≡ self.list }
        ensures spare { vec_capacity result - vec_len result ≡ self.spare }
    {
        let Grown { items } = self;
        items
    }

    /// Makes room for n items more.
    pub fn make_room(&mut self, n: usize) -> Result<(), NoMemory>
        ensures list { self.new.list ≡ self.old.list }
        ensures room { OnOk result (n ≤ self.new.spare) }
        ensures kept { self.old.spare ≤ self.new.spare }
    {
        self.items.reserve(n)?;
        Ok(())
    }

    /// How many items it takes without memory.
    pub fn spare(&self) -> usize
        ensures { result ≡ self.now.spare }
    {
        self.items.capacity() - self.items.len()
    }

    /// How many items there are.
    pub fn len(&self) -> usize
        ensures { result ≡ length self.now.list }
    {
        self.items.len()
    }

    /// The items as a slice.
    pub fn as_slice(&self) -> &[T]
        ensures { result.now ≡ self.now.list }
    {
        &self.items
    }

    /// Puts an item at the end, without memory.
    pub fn push(&mut self, item: T)
        requires { 1 ≤ self.old.spare }
        ensures list { self.new.list ≡ self.old.list ++ item ∷ [] }
        ensures spare { self.old.spare ≤ self.new.spare + 1 }
    {
        self.items.push_reserved(item);
    }
}

impl<T: Drop> Grown<T> {
    /// Moves the items of a list to the end, without memory.
    pub fn append(&mut self, more: Seq<T>)
        requires { length more ≤ self.old.spare }
        ensures list { self.new.list ≡ self.old.list ++ more }
        ensures spare { self.old.spare ≤ self.new.spare + length more }
    {
        let mut more = more.into_vec();
        self.items.append(&mut more).unwrap();
    }

    /// Keeps the first n items.
    pub fn keep_front(&mut self, n: usize)
        ensures list { self.new.list ≡ take n self.old.list }
        ensures spare { self.old.spare ≤ self.new.spare }
    {
        self.items.truncate(n);
    }

    /// Takes the first n items away.
    pub fn cut_front(&mut self, n: usize)
        requires { n ≤ length self.old.list }
        ensures list { self.new.list ≡ drop n self.old.list }
        ensures spare { self.old.spare ≤ self.new.spare }
    {
        self.items.drain(..n);
    }
}

impl<T: Copy> Grown<T> {
    /// Copies a slice to the end, without memory.
    pub fn append_slice(&mut self, more: &[T])
        requires { length more.now ≤ self.old.spare }
        ensures list { self.new.list ≡ self.old.list ++ more.now }
        ensures spare { self.old.spare ≤ self.new.spare + length more.now }
    {
        self.items.extend_from_slice(more).unwrap();
    }
}
