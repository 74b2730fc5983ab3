//! A script as it is written.
ghost use Rattle.std.specs.Prelude.{◌≡◌, ◌+◌, ◌<◌, ◌≤◌, ◌^◌, ◌++◌, IfOk, OnOk, length, codes};
ghost use Rattle.rp_gen.specs.Draws.{picked};
ghost use Rattle.rp_gen.specs.Scripts.{begun, with_split, with_split_due, with_transfer, with_transfer_due, with_keyed, with_move, with_request, with_command, with_rounds, with_next};
ghost use Rattle.rp_gen.specs.Words.{newline, settle_line};

use crate::holders::Holders;
use crate::ranges::{first_key, left_of, range_of, split_is_due, transfer_is_due};
use crate::words::{
    push_counted, push_key, push_keyed, push_move, push_send, push_settle, push_split,
    push_transfer,
};
use rand_core::utils::NextWord;
use rand_pcg::Lcg64Xsh32;
use rp_base::{NoMemory, NodeId, Text, push_word};
use std::alloc::Global;

/// A script as it is written: its text so far, the generator, and who holds each range.
#[derive(Drop)]
pub(crate) struct Draft {
    pub(crate) text: Text,
    pub(crate) draws: Lcg64Xsh32,
    pub(crate) holders: Holders,
}

impl Draft {
    /// The head of the script with this number.
    pub(crate) fn begin(alloc: Global, number: u64) -> Result<Draft, NoMemory>
        ensures { IfOk result (λ draft. draft ≡ begun number) }
    {
        let mut text = Text::new(alloc);
        push_word(&mut text, "cluster 5\n")?;
        push_counted(&mut text, "loss 10 ", number)?;
        push_word(&mut text, "\n")?;
        let first = NodeId::new(1).unwrap();
        Ok(Draft {
            text,
            draws: Lcg64Xsh32::new(number, 1),
            holders: Holders::new(alloc, first)?,
        })
    }

    /// Draws a number below n.
    fn pick(&mut self, n: u32) -> u32
        requires { 0 < n }
        ensures value { result ≡ (picked n self.old.draws).0 }
        ensures draws { self.new ≡ record self.old { draws = (picked n self.old.draws).1 } }
        ensures below { result < n }
    {
        self.draws.next_word() % n
    }

    /// Draws a node.
    fn pick_node(&mut self) -> NodeId
        ensures value { result ≡ 1 + (picked 5 self.old.draws).0 }
        ensures draws { self.new ≡ record self.old { draws = (picked 5 self.old.draws).1 } }
    {
        let number = 1 + self.pick(5);
        NodeId::new(number as u8).unwrap()
    }

    /// Makes the next range by a split.
    fn split(&mut self) -> Result<(), NoMemory>
        requires { length self.old.holders < 4 }
        ensures { OnOk result (self.new ≡ with_split self.old) }
    {
        let right = self.holders.made();
        let left = left_of(right);
        let holder = self.holders.of(left);
        push_split(&mut self.text, holder, left, first_key(right))?;
        self.holders.add(holder)
    }

    /// The next split, if it is due.
    fn split_due(&mut self, size: u64, before: u64) -> Result<(), NoMemory>
        ensures { OnOk result (self.new ≡ with_split_due size before self.old) }
    {
        let made = self.holders.made();
        if split_is_due(size, before, made) {
            self.split()?;
        }
        Ok(())
    }

    /// Gives the lease of a range to a node, both drawn.
    fn transfer(&mut self) -> Result<(), NoMemory>
        ensures { OnOk result (self.new ≡ with_transfer self.old) }
    {
        let made = self.holders.made();
        let range = self.pick(made);
        let to = self.pick_node();
        let holder = self.holders.of(range);
        push_transfer(&mut self.text, holder, range, to)?;
        self.holders.hand_over(range, to);
        Ok(())
    }

    /// The move of a lease, if it is due.
    fn transfer_due(&mut self, size: u64, before: u64) -> Result<(), NoMemory>
        ensures { OnOk result (self.new ≡ with_transfer_due size before self.old) }
    {
        if transfer_is_due(size, before) {
            self.transfer()?;
        }
        Ok(())
    }

    /// A request on a key with a number that is drawn: from `least` on, one of n.
    fn keyed(
        &mut self,
        verb: &str,
        key: u32,
        between: &str,
        least: u32,
        n: u32,
    ) -> Result<(), NoMemory>
        requires some { 0 < n }
        requires fits { least + n ≤ 2 ^ 32 }
        ensures { OnOk result
            (self.new ≡ with_keyed verb.now key between.now least n self.old) }
    {
        let number = least + self.pick(n);
        push_keyed(&mut self.text, verb, key, between, number)
    }

    /// An amount that is drawn moves from a key to another.
    fn moves(&mut self, from: u32, to: u32) -> Result<(), NoMemory>
        ensures { OnOk result (self.new ≡ with_move from to self.old) }
    {
        let by = self.pick(10);
        push_move(&mut self.text, from, to, by)
    }

    /// The request of a kind on a key, in the range that begins with the key `first`.
    #[tactic(auto, unfolding(crate::specs::Scripts::with_request))]
    fn request(&mut self, kind: u32, key: u32, first: u32) -> Result<(), NoMemory>
        ensures { OnOk result (self.new ≡ with_request kind key first self.old) }
    {
        match kind {
            0..=4 => self.keyed("add ", key, " ", 1, 100),
            5 | 6 => self.keyed("put ", key, " ", 0, 1000),
            7 => self.keyed("cput ", key, " none ", 0, 1000),
            8 => {
                push_word(&mut self.text, "del ")?;
                push_key(&mut self.text, key)
            }
            _ => self.moves(key, first),
        }
    }

    /// A command, where so many are written.
    fn command(&mut self, before: u64) -> Result<(), NoMemory>
        ensures { OnOk result (self.new ≡ with_command before self.old) }
    {
        let key = self.pick(1000);
        let kind = self.pick(10);
        let range = range_of(self.holders.made(), key);
        let holder = self.holders.of(range);
        push_send(&mut self.text, holder, range, 1 + before % 16)?;
        self.request(kind, key, first_key(range))?;
        push_word(&mut self.text, "\n")
    }

    /// Rounds behind each sixteenth command.
    fn rounds(&mut self, before: u64) -> Result<(), NoMemory>
        requires { before + 1 < 2 ^ 64 }
        ensures { OnOk result (self.new ≡ with_rounds before self.old) }
    {
        if (before + 1) % 16 == 0 {
            push_settle(&mut self.text, 4)?;
        }
        Ok(())
    }

    /// The next command, with what comes before and behind it.
    pub(crate) fn next(&mut self, size: u64, before: u64) -> Result<(), NoMemory>
        requires { before + 1 < 2 ^ 64 }
        ensures { OnOk result (self.new ≡ with_next size before self.old) }
    {
        self.split_due(size, before)?;
        self.transfer_due(size, before)?;
        self.command(before)?;
        self.rounds(before)
    }

    /// The text, with its end.
    pub(crate) fn end(self) -> Result<Text, NoMemory>
        ensures { IfOk result (λ text. text ≡ self.text ++ settle_line 100 ++ codes "end" ++ newline) }
    {
        let Draft { mut text, .. } = self;
        push_settle(&mut text, 100)?;
        push_word(&mut text, "end\n")?;
        Ok(text)
    }
}
