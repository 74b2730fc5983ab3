//! What was copied of one sender.
ghost use Rattle.std.specs.Prelude.{◌≡◌, ◌+◌, ◌<◌, ◌≤◌, ◌^◌, ◌++◌, [], ◌∷◌, IfOk, OnOk, OnErr, length};
ghost use Rattle.rp_race.specs.Owed.{is_carried};
ghost use Rattle.rp_serving.specs.Letters.{letters_behind};
ghost use Rattle.rp_serving.specs.Mails.{IsCopied};

use crate::letters::Letter;
use rp_base::{Grown, NoMemory, NodeId};
use rp_bufcore::BufferEnd;
use rp_events::Parcel;
use rp_node::Node;
use rp_race::RaceRules;
use rp_replica::copy_message;
use rp_snapshot::Snapshot;
use rp_workers::lost;
use std::alloc::Global;

/// The messages of one sender to a node that were copied and not delivered yet; how many of all
/// that it has sent were looked at; and its rounds by then.
#[derive(Drop)]
pub struct Lane {
    pub(crate) copied: usize,
    pub(crate) rounds: u64,
    pub(crate) letters: Grown<Letter>,
}

/// Whether a message with this number goes to the node and is not lost.
fn is_carried(
    rules: &RaceRules,
    from: NodeId,
    to: NodeId,
    number: u64,
    parcel: &Parcel<Snapshot>,
) -> bool
    ensures { result ≡ is_carried rules.now from to number parcel.now }
{
    parcel.to == to && !lost(rules.loss, rules.salt, from, number)
}

/// A copy of a message, with its number.
fn letter_of(alloc: Global, number: u64, parcel: &Parcel<Snapshot>) -> Result<Letter, NoMemory>
    ensures { IfOk result (λ l. (l.number ≡ number) × (l.parcel ≡ parcel.now)) }
{
    let message = copy_message(alloc, &parcel.message)?;
    Ok(Letter {
        number,
        parcel: Parcel {
            to: parcel.to,
            range: parcel.range,
            message,
        },
    })
}

impl Lane {
    /// Nothing was copied yet. It takes no memory.
    pub(crate) fn new(alloc: Global) -> Lane
        ensures { (result.copied ≡ 0) × (result.letters.list ≡ []) }
    {
        Lane {
            copied: 0,
            rounds: 0,
            letters: Grown::new(alloc),
        }
    }

    /// Looks at the sender's next message, and copies it where it goes to the node and is not lost.
    /// At want of memory nothing was looked at.
    fn look_at(
        &mut self,
        alloc: Global,
        rules: &RaceRules,
        from: NodeId,
        to: NodeId,
        parcel: &Parcel<Snapshot>,
    ) -> Result<(), NoMemory>
        requires { self.old.copied + 1 < 2 ^ 64 }
        ensures ok { OnOk result ((self.new.copied ≡ self.old.copied + 1) × (self.new.letters.list
            ≡ self.old.letters.list ++ letters_behind rules.now from to (self.old.copied + 1) (parcel.now ∷ []))) }
        ensures err { OnErr result ((self.new.copied ≡ self.old.copied)
            × (self.new.letters.list ≡ self.old.letters.list)) }
    {
        let number = self.copied as u64 + 1;
        if is_carried(rules, from, to, number, parcel) {
            let letter = letter_of(alloc, number, parcel)?;
            self.letters.make_room(1)?;
            self.letters.push(letter);
        }
        self.copied += 1;
        Ok(())
    }

    /// Copies what the sender has sent since, as far as it goes to the node and is not lost. At want
    /// of memory some of it is copied.
    pub(crate) fn copy<E: BufferEnd + Drop>(
        &mut self,
        alloc: Global,
        rules: &RaceRules,
        from: NodeId,
        to: NodeId,
        sender: &Node<E>,
    ) -> Result<(), NoMemory>
        requires { self.old.copied ≤ length sender.now.node.sent }
        ensures { IsCopied rules.now from to sender.now.node self.old result self.new }
    {
        let sent = sender.sent().as_slice();
        let more = &sent[self.copied..];
        for parcel in more {
            self.look_at(alloc, rules, from, to, parcel)?;
        }
        self.rounds = sender.rounds();
        Ok(())
    }

    /// Takes the letters out. It takes no memory.
    pub(crate) fn take(&mut self, alloc: Global) -> Vec<Letter>
        ensures taken { result.items ≡ self.old.letters.list }
        ensures left { self.new.letters.list ≡ [] }
        ensures copied { self.new.copied ≡ self.old.copied }
        ensures rounds { self.new.rounds ≡ self.old.rounds }
    {
        std::mem::replace(&mut self.letters, Grown::new(alloc)).into_vec()
    }
}
