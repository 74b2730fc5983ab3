//! The numbers of holds, by attempt.
ghost use Rattle.std.specs.Prelude.{◌≡◌, ◌≤◌, ◌<◌, ◌+◌, cond, Bool, [], IsTrue, IsFalse, OnOk, IfNone, IfSome, length};
ghost use Rattle.std.specs.List.{AllWithin, list_any, count_by};
ghost use Rattle.rp_latch.specs.declared.tags.Tag.{Tag};
ghost use Rattle.rp_latch.specs.Indexes.{is_before, has_id};

use rp_base::{CmdId, NoMemory};
use std::alloc::Global;
use std::collections::VecDeque;
use std::marker::Model;

/// The number of a hold, by the attempt that holds.
#[derive(Clone, Copy, PartialEq, Eq)]
pub struct Tag {
    pub id: CmdId,
    pub number: u64,
}

/// Tags in the order of their ids, later commands last, so that a tag mostly comes near the end.
/// Contracts see the list, and apart from it the spare room.
#[derive(Drop)]
pub struct Tags {
    tags: VecDeque<Tag, Global>,
}

impl Model for Tags {
    ghost use Rattle.std.specs.Prelude.{◌-◌};
    ghost use Rattle.std.specs.VecDeque.{deque_len, deque_capacity};
    ghost use Rattle.rp_base.specs.Kept.{Kept};
    ghost use Rattle.rp_latch.specs.declared.tags.Tag.{Tag};
    ghost use Rattle.rp_latch.specs.Indexes.{ById};

    ghost Value = { Kept Tag };

    ghost view = { λ t. record {
      list = t.tags.items;
      spare = deque_capacity t.tags - deque_len t.tags;
    } };

    ghost invariant = { λ t. ById t.tags.items };
}

/// Whether the tag's id stands before this one.
fn is_before(id: CmdId, tag: &Tag) -> bool
    ensures { result ≡ is_before id tag.now }
{
    (tag.id.seq, tag.id.client, tag.id.attempt) < (id.seq, id.client, id.attempt)
}

/// Whether the tag has this id.
fn has_id(id: CmdId, tag: &Tag) -> bool
    ensures { result ≡ has_id id tag.now }
{
    tag.id == id
}

impl Tags {
    /// No tag. It takes no memory.
    pub fn new(alloc: Global) -> Tags
        ensures { result.list ≡ [] }
    {
        Tags {
            tags: VecDeque::new(alloc),
        }
    }

    /// Makes room for n tags more.
    pub fn make_room(&mut self, n: usize) -> Result<(), NoMemory>
        ensures list { self.new.list ≡ self.old.list }
        ensures room { OnOk result (n ≤ self.new.spare) }
        ensures kept { self.old.spare ≤ self.new.spare }
    {
        self.tags.reserve(n)?;
        Ok(())
    }

    /// How many tags have ids before this one, by binary search.
    fn place_of(&self, id: CmdId) -> usize
        ensures within { result ≤ length self.now.list }
        ensures before { AllWithin (λ t. IsTrue (is_before id t)) self.now.list 0 result }
        ensures after { AllWithin
            (λ t. IsFalse (is_before id t)) self.now.list result (length self.now.list) }
    {
        self.tags.partition_point(|tag| is_before(id, tag))
    }

    /// Puts a tag in, without memory.
    pub fn put(&mut self, tag: Tag)
        requires room { 1 ≤ self.old.spare }
        ensures list { (p : Tag → Bool) → count_by p self.new.list
            ≡ count_by p self.old.list + cond (p tag) 1 0 }
        ensures spare { self.old.spare ≤ self.new.spare + 1 }
    {
        let at = self.place_of(tag.id);
        self.tags.insert(at, tag).unwrap();
    }

    /// Takes a tag of the id out, where there is one.
    pub fn take(&mut self, id: CmdId) -> Option<Tag>
        ensures none { IfNone result (IsFalse (list_any (has_id id) self.old.list)) }
        ensures same { IfNone result (self.new.list ≡ self.old.list) }
        ensures id { IfSome result (λ tag. IsTrue (has_id id tag)) }
        ensures list { IfSome result (λ tag. (p : Tag → Bool)
            → count_by p self.new.list + cond (p tag) 1 0 ≡ count_by p self.old.list) }
        ensures spare { self.old.spare ≤ self.new.spare }
    {
        let at = self.place_of(id);
        if at == self.tags.len() {
            return None;
        }
        let tag = self.tags[at];
        if !has_id(id, &tag) {
            return None;
        }
        self.tags.remove(at).unwrap();
        Some(tag)
    }

    /// Takes all tags out.
    pub fn clear(&mut self)
        ensures list { self.new.list ≡ [] }
        ensures spare { self.old.spare ≤ self.new.spare }
    {
        self.tags.clear();
    }
}
