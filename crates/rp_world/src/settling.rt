//! Settlings: so many rounds, in each of which what waits is put, each node ticks and flushes, messages
//! come and what is committed is applied.
ghost use Rattle.std.specs.Prelude.{◌≡◌, ◌≤◌, ◌-◌, ◌∷◌, [], All, OnOk, length};
ghost use Rattle.std.specs.Option.{option_map_or};
ghost use Rattle.rp_events.specs.Nodes.{range_numbers, seat};
ghost use Rattle.rp_events.specs.Worlds.{node_of};
ghost use Rattle.rp_book.specs.Handling.{first_unhandled};
ghost use Rattle.rp_lawful.specs.Comings.{IsPlain};
ghost use Rattle.rp_lines.specs.Players.{did};
ghost use Rattle.rp_lines.specs.Settling.{applies_range, flushes_live, for_each, handling_of, left_to_apply, node_numbers, passes_numbered, settles};
ghost use Rattle.rp_script.specs.Bounds.{IsNode};
ghost use Rattle.rp_world.specs.Comes.{buffered_of};
ghost use Rattle.rp_world.specs.Going.{AsMany, Going};
ghost use Rattle.rp_world.specs.Plays.{Does};
ghost use Rattle.rp_world.specs.Settled.{applied, passed, rounded, ticked};

use crate::faults::PlayFault;
use crate::scenes::sent_by;
use crate::seats::{has_live, live_at};
use crate::worlds::World;
use rp_base::{NodeId, RangeId};
use rp_bufcore::PlainEnd;
use rp_events::WorldEvent;
use rp_node::Nodes;
use rp_replica::Replica;
use rp_workers::lost;

/// The ranges, ascending.
fn ranges() -> [RangeId; 8]
    ensures { result ≡ range_numbers }
{
    [
        RangeId::new(0).unwrap(),
        RangeId::new(1).unwrap(),
        RangeId::new(2).unwrap(),
        RangeId::new(3).unwrap(),
        RangeId::new(4).unwrap(),
        RangeId::new(5).unwrap(),
        RangeId::new(6).unwrap(),
        RangeId::new(7).unwrap(),
    ]
}

/// The numbers that nodes can have, ascending.
fn numbers() -> [NodeId; 5]
    ensures { result ≡ 1 ∷ 2 ∷ 3 ∷ 4 ∷ 5 ∷ [] }
{
    [
        NodeId::new(1).unwrap(),
        NodeId::new(2).unwrap(),
        NodeId::new(3).unwrap(),
        NodeId::new(4).unwrap(),
        NodeId::new(5).unwrap(),
    ]
}

/// How many committed entries a replica has not applied.
fn behind(replica: &Replica) -> u64
    ensures { result ≡ replica.now.replica.raft.head.commit - replica.now.replica.applied.index }
{
    replica
        .commit_index()
        .saturating_sub(replica.applied().index())
}

/// How many committed entries a live replica has not applied; none where there is no live replica.
fn left_to_apply(nodes: &Nodes<PlainEnd>, node: NodeId, range: RangeId) -> u64
    ensures { result ≡ option_map_or (λ n. left_to_apply (seat n range))
        (node_of (buffered_of nodes.now).nodes node) 0 }
{
    match live_at(nodes, node, range) {
        Some(replica) => behind(replica),
        None => 0,
    }
}

impl World {
    /// An event that a script may always make, whatever it is answered.
    pub(crate) fn quietly(&mut self, event: &WorldEvent) -> Result<(), PlayFault>
        requires going { Going self.old }
        requires plain { IsPlain (length self.old.world.nodes) event.now }
        ensures does { Does result self.new (did event.now self.old) }
        ensures going { OnOk result (Going self.new) }
        ensures nodes { OnOk result (AsMany self.old self.new) }
    {
        match self.event(event) {
            Ok(_) => Ok(()),
            Err(fault) => Err(fault),
        }
    }

    /// A live replica's buffer is collected and its inbox flushed.
    fn flushes_live(&mut self, node: NodeId, range: RangeId) -> Result<(), PlayFault>
        requires going { Going self.old }
        requires node { IsNode (length self.old.world.nodes) node }
        ensures does { Does result self.new (flushes_live node range self.old) }
        ensures going { OnOk result (Going self.new) }
        ensures nodes { OnOk result (AsMany self.old self.new) }
    {
        if !has_live(self.stage.nodes(), node, range) {
            return Ok(());
        }
        self.quietly(&WorldEvent::Collect { node, range })?;
        self.quietly(&WorldEvent::Flush { node, range })
    }

    /// So it goes in each of these ranges.
    fn flush_each(&mut self, node: NodeId, ranges: &[RangeId]) -> Result<(), PlayFault>
        requires going { Going self.old }
        requires node { IsNode (length self.old.world.nodes) node }
        ensures does { Does result self.new (for_each (flushes_live node) ranges.now self.old) }
        ensures going { OnOk result (Going self.new) }
        ensures nodes { OnOk result (AsMany self.old self.new) }
    {
        for range in ranges {
            self.flushes_live(node, *range)?;
        }
        Ok(())
    }

    /// A node ticks and flushes its ranges.
    #[tactic(auto, unfolding(crate::specs::Settled::ticked))]
    fn ticks_and_flushes(&mut self, node: NodeId) -> Result<(), PlayFault>
        requires going { Going self.old }
        requires node { IsNode (length self.old.world.nodes) node }
        ensures does { Does result self.new (ticked node self.old) }
        ensures going { OnOk result (Going self.new) }
        ensures nodes { OnOk result (AsMany self.old self.new) }
    {
        self.quietly(&WorldEvent::Tick { node })?;
        let ranges = ranges();
        self.flush_each(node, &ranges)
    }

    /// Each of these nodes ticks and flushes its ranges.
    fn tick_each(&mut self, nodes: &[NodeId]) -> Result<(), PlayFault>
        requires going { Going self.old }
        requires nodes { All (IsNode (length self.old.world.nodes)) nodes.now }
        ensures does { Does result self.new (for_each ticked nodes.now self.old) }
        ensures going { OnOk result (Going self.new) }
        ensures nodes { OnOk result (AsMany self.old self.new) }
    {
        for node in nodes {
            self.ticks_and_flushes(*node)?;
        }
        Ok(())
    }

    /// A message is delivered, or passed over for good where it is lost.
    fn passes_numbered(&mut self, sender: NodeId, number: u64) -> Result<(), PlayFault>
        requires going { Going self.old }
        requires sender { IsNode (length self.old.world.nodes) sender }
        requires number { 1 ≤ number }
        ensures { Does result self.new (passes_numbered sender number self.old) }
    {
        let Some(to) = self.receiver(sender, number) else {
            return Ok(());
        };
        if lost(self.loss.percent, self.loss.salt, sender, number) {
            return Ok(self.handle(sender, number)?);
        }
        self.comes(to, sender, number)
    }

    /// So it goes on.
    fn passes(&mut self, sender: NodeId, number: u64) -> Result<(), PlayFault>
        requires going { Going self.old }
        requires sender { IsNode (length self.old.world.nodes) sender }
        requires number { 1 ≤ number }
        ensures does { Does result self.new (passes_numbered sender number self.old) }
        ensures going { OnOk result (Going self.new) }
        ensures nodes { OnOk result (AsMany self.old self.new) }
    {
        self.passes_numbered(sender, number)
    }

    /// The number of the first message of a sender that was not handled.
    fn first_unhandled(&self, sender: NodeId) -> u64
        requires { sender ≤ length self.now.handled }
        ensures { result ≡ first_unhandled (handling_of self.now sender) }
    {
        self.handled[usize::from(sender.get()) - 1].first_unhandled() as u64
    }

    /// The messages of a sender come, from the first that was not handled up to the end of its list as
    /// its turn begins.
    #[tactic(auto, unfolding(crate::specs::Settled::passed))]
    fn passes_all(&mut self, sender: NodeId) -> Result<(), PlayFault>
        requires going { Going self.old }
        requires sender { IsNode (length self.old.world.nodes) sender }
        ensures does { Does result self.new (passed sender self.old) }
        ensures going { OnOk result (Going self.new) }
        ensures nodes { OnOk result (AsMany self.old self.new) }
    {
        let end = sent_by(self.stage.nodes(), sender).len() as u64 + 1;
        let first = self.first_unhandled(sender);
        for number in first..end {
            self.passes(sender, number)?;
        }
        Ok(())
    }

    /// The messages of each of these senders come.
    fn pass_each(&mut self, nodes: &[NodeId]) -> Result<(), PlayFault>
        requires going { Going self.old }
        requires nodes { All (IsNode (length self.old.world.nodes)) nodes.now }
        ensures does { Does result self.new (for_each passed nodes.now self.old) }
        ensures going { OnOk result (Going self.new) }
        ensures nodes { OnOk result (AsMany self.old self.new) }
    {
        for node in nodes {
            self.passes_all(*node)?;
        }
        Ok(())
    }

    /// A live replica applies what is committed.
    fn applies_range(&mut self, node: NodeId, range: RangeId) -> Result<(), PlayFault>
        requires going { Going self.old }
        requires node { IsNode (length self.old.world.nodes) node }
        ensures does { Does result self.new (applies_range node range self.old) }
        ensures going { OnOk result (Going self.new) }
        ensures nodes { OnOk result (AsMany self.old self.new) }
    {
        let left = left_to_apply(self.stage.nodes(), node, range);
        for _turn in 0..left {
            self.quietly(&WorldEvent::Apply { node, range })?;
        }
        Ok(())
    }

    /// So it goes in each of these ranges.
    fn apply_ranges(&mut self, node: NodeId, ranges: &[RangeId]) -> Result<(), PlayFault>
        requires going { Going self.old }
        requires node { IsNode (length self.old.world.nodes) node }
        ensures does { Does result self.new (for_each (applies_range node) ranges.now self.old) }
        ensures going { OnOk result (Going self.new) }
        ensures nodes { OnOk result (AsMany self.old self.new) }
    {
        for range in ranges {
            self.applies_range(node, *range)?;
        }
        Ok(())
    }

    /// Each live replica of a node applies what is committed.
    #[tactic(auto, unfolding(crate::specs::Settled::applied))]
    fn applies_all(&mut self, node: NodeId) -> Result<(), PlayFault>
        requires going { Going self.old }
        requires node { IsNode (length self.old.world.nodes) node }
        ensures does { Does result self.new (applied node self.old) }
        ensures going { OnOk result (Going self.new) }
        ensures nodes { OnOk result (AsMany self.old self.new) }
    {
        let ranges = ranges();
        self.apply_ranges(node, &ranges)
    }

    /// So do those of each of these nodes.
    fn apply_each(&mut self, nodes: &[NodeId]) -> Result<(), PlayFault>
        requires going { Going self.old }
        requires nodes { All (IsNode (length self.old.world.nodes)) nodes.now }
        ensures does { Does result self.new (for_each applied nodes.now self.old) }
        ensures going { OnOk result (Going self.new) }
        ensures nodes { OnOk result (AsMany self.old self.new) }
    {
        for node in nodes {
            self.applies_all(*node)?;
        }
        Ok(())
    }

    /// The numbers of the nodes that there are, of all numbers that nodes can have.
    fn numbers_of<'a>(&self, all: &'a [NodeId]) -> &'a [NodeId]
        requires going { Going self.now }
        requires all { all.now ≡ 1 ∷ 2 ∷ 3 ∷ 4 ∷ 5 ∷ [] }
        ensures numbers { result.now ≡ node_numbers self.now }
        ensures nodes { All (IsNode (length self.now.world.nodes)) result.now }
    {
        &all[..self.nodes().len()]
    }

    /// Each node ticks and flushes its ranges.
    fn tick_nodes(&mut self) -> Result<(), PlayFault>
        requires { Going self.old }
        ensures does { Does result self.new (for_each ticked (node_numbers self.old) self.old) }
        ensures going { OnOk result (Going self.new) }
        ensures nodes { OnOk result (AsMany self.old self.new) }
    {
        let all = numbers();
        let nodes = self.numbers_of(&all);
        self.tick_each(nodes)
    }

    /// The messages of each node come.
    fn pass_nodes(&mut self) -> Result<(), PlayFault>
        requires { Going self.old }
        ensures does { Does result self.new (for_each passed (node_numbers self.old) self.old) }
        ensures going { OnOk result (Going self.new) }
        ensures nodes { OnOk result (AsMany self.old self.new) }
    {
        let all = numbers();
        let nodes = self.numbers_of(&all);
        self.pass_each(nodes)
    }

    /// Each live replica applies what is committed.
    fn apply_nodes(&mut self) -> Result<(), PlayFault>
        requires { Going self.old }
        ensures does { Does result self.new (for_each applied (node_numbers self.old) self.old) }
        ensures going { OnOk result (Going self.new) }
        ensures nodes { OnOk result (AsMany self.old self.new) }
    {
        let all = numbers();
        let nodes = self.numbers_of(&all);
        self.apply_each(nodes)
    }

    /// A round: attempts go to their buffers, then each node ticks and flushes, then messages come, then
    /// what is committed is applied.
    #[tactic(auto, unfolding(crate::specs::Settled::ticked, crate::specs::Settled::passed, crate::specs::Settled::applied, crate::specs::Settled::rounded))]
    fn round(&mut self) -> Result<(), PlayFault>
        requires { Going self.old }
        ensures does { Does result self.new (rounded self.old) }
        ensures going { OnOk result (Going self.new) }
        ensures nodes { OnOk result (AsMany self.old self.new) }
    {
        self.puts_all()?;
        self.tick_nodes()?;
        self.pass_nodes()?;
        self.apply_nodes()
    }

    /// So many rounds.
    pub(crate) fn settles(&mut self, rounds: u64) -> Result<(), PlayFault>
        requires { Going self.old }
        ensures does { Does result self.new (settles rounds self.old) }
        ensures going { OnOk result (Going self.new) }
        ensures nodes { OnOk result (AsMany self.old self.new) }
    {
        for _round in 0..rounds {
            self.round()?;
        }
        Ok(())
    }
}
