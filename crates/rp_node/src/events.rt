//! What happens at a node.
ghost use Rattle.std.specs.Prelude.{◌≡◌, IfOk, OnErr};
ghost use Rattle.rp_events.specs.MaySteps.{MayStep};
ghost use Rattle.rp_node.specs.Steps.{Steps};

use crate::briefs::Brief;
use crate::nodes::Node;
use rp_base::NoMemory;
use rp_bufcore::BufferEnd;
use rp_events::{Event, EventAnswer};
use rp_snapshot::Snapshot;

impl<B: BufferEnd + Drop> Node<B> {
    /// An event happens: replicas do what it makes of them, what they send and which attempts they
    /// end is kept, and the event stands in the journal with its answer. A collect takes what the
    /// buffer end gives. At want of memory nothing happens.
    pub fn step(&mut self, event: Event<Snapshot>) -> Result<EventAnswer, NoMemory>
        requires { MayStep self.old.node event }
        ensures ok { IfOk result (λ answer. Steps B.gives self.old event self.new answer) }
        ensures err { OnErr result (self.new ≡ self.old) }
    {
        let core = &mut self.core;
        match event {
            Event::Admit { range, id, request } => core.admit(range, id, &request),
            Event::Ask { range } => core.happen_briefly(range, Brief::Ask),
            Event::Transfer { range, to } => core.happen_briefly(range, Brief::Transfer { to }),
            Event::Collect { range } => core.collect(&mut self.end, range),
            Event::Flush { range } => core.flush(range),
            Event::Tick => core.tick(),
            Event::Deliver {
                from,
                range,
                number,
                message,
            } => core.deliver(from, range, number, message),
            Event::Apply { range } => core.happen_briefly(range, Brief::Apply),
            Event::Cut { range } => core.happen_briefly(range, Brief::Cut),
            Event::Remove { range } => core.remove(range),
            Event::Peek { range, key } => core.happen_briefly(range, Brief::Peek { key }),
            Event::Restart => core.restart(),
            Event::Round => core.round().map(|()| EventAnswer::Done),
        }
    }
}
