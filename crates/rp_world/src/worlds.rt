//! A world of nodes: how it begins, and what it shows.
ghost use Rattle.std.specs.Prelude.{◌≡◌, ◌≤◌, [], length, map, replicate, IfOk, OnOk};
ghost use Rattle.rp_lines.specs.Players.{first_player, noted};
ghost use Rattle.rp_world.specs.Comes.{buffered_of};

use crate::notes::text_of;
use crate::stage::Stage;
use rp_base::{ClientCounts, NoMemory, Seq, Text};
use rp_book::{Book, Handled};
use rp_bufcore::PlainEnd;
use rp_node::Nodes;
use rp_request::{Note, Notes};
use std::alloc::Global;
use std::marker::Model;

/// How many of a hundred messages are lost in settlings to come, and by which salt.
#[derive(Clone, Copy)]
pub(crate) struct Loss {
    pub(crate) percent: u8,
    pub(crate) salt: u64,
}

/// A world of one to five nodes, with all that lines of a script leave beside them: the book of what
/// clients sent, which messages were handled, and what lines have told. Contracts see the player of
/// the lines, room aside.
#[derive(Drop)]
pub struct World {
    pub(crate) alloc: Global,
    pub(crate) stage: Stage,
    pub(crate) sent: ClientCounts,
    pub(crate) book: Book,
    pub(crate) handled: Vec<Handled>,
    pub(crate) loss: Loss,
    pub(crate) notes: Notes,
    pub(crate) events: u64,
}

impl Model for World {
    ghost use Rattle.std.specs.Coded.{codes};
    ghost use Rattle.rp_base.specs.Tables.{table_code};
    ghost use Rattle.rp_lines.specs.Players.{Player};
    ghost use Rattle.rp_world.specs.Keeping.{IsKept};

    ghost Value = { Player };

    ghost coded = { Prim.hlevel (codes, table_code) };

    ghost view = { λ w. record {
      world = w.stage;
      sent = w.sent;
      book = w.book.entries;
      handled = w.handled.items;
      loss = record { percent = w.loss.percent; salt = w.loss.salt };
      notes = w.notes;
      events = w.events;
    } };

    ghost invariant = { λ w. IsKept w.stage.nodes w.book w.events };
}

/// Of each of so many senders no message was handled.
fn first_handled(alloc: Global, nodes: u8) -> Result<Vec<Handled>, NoMemory>
    ensures { IfOk result (λ list. list.items ≡ replicate nodes []) }
{
    let mut list = Vec::new(alloc);
    for _turn in 0..nodes {
        list.push(Handled::new(alloc))?;
    }
    Ok(list)
}

impl World {
    /// A world of so many nodes that has played no line.
    pub fn start(alloc: Global, nodes: u8) -> Result<World, NoMemory>
        requires { nodes ≤ 5 }
        ensures { IfOk result (λ world. world ≡ first_player nodes) }
    {
        let stage = Stage::start(alloc, nodes)?;
        let handled = first_handled(alloc, nodes)?;
        let book = Book::new(alloc);
        Ok(World {
            alloc,
            stage,
            sent: ClientCounts::new(),
            book,
            handled,
            loss: Loss {
                percent: 0,
                salt: 0,
            },
            notes: Seq::new(alloc),
            events: 0,
        })
    }

    /// The nodes.
    pub fn nodes(&self) -> &Nodes<PlainEnd>
        ensures { buffered_of result.now ≡ self.now.world }
    {
        self.stage.nodes()
    }

    /// What the lines have told, in order.
    pub fn notes(&self) -> &Notes
        ensures { result.now ≡ self.now.notes }
    {
        &self.notes
    }

    /// What is left where no more lines are played: the nodes, and what the lines have told.
    pub fn into_parts(self) -> (Nodes<PlainEnd>, Notes)
        ensures nodes { buffered_of result.0 ≡ self.world }
        ensures notes { result.1 ≡ self.notes }
    {
        let World { stage, notes, .. } = self;
        (stage.into_nodes(), notes)
    }

    /// A line has this to tell.
    pub(crate) fn note(&mut self, line: u32, text: Text) -> Result<(), NoMemory>
        ensures { OnOk result (self.new ≡ noted line text self.old) }
    {
        self.notes.push(Note { line, text })
    }

    /// A line has these words to tell.
    pub(crate) fn note_words(&mut self, line: u32, words: &str) -> Result<(), NoMemory>
        ensures { OnOk result (self.new ≡ noted line words.now self.old) }
    {
        let text = text_of(self.alloc, words)?;
        self.note(line, text)
    }
}
