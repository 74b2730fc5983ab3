//! What a worker works at.
ghost use Rattle.std.specs.Prelude.{◌≡◌};
ghost use Rattle.rp_rounds.specs.Rounds.{Standing, pull, round, post, after_call, after_over};

use rp_base::{NoMemory, NodeId};

/// The nodes as one worker comes to them. Each call is made where it is due, and then the next one
/// is due; after want of memory none is.
pub trait Bench {
    // The worker, the numbers of workers and of nodes, the call that is due, and whether `over` has
    // answered true.
    ghost stands: { Self → Standing };

    /// Copies the messages of a node to another that came since the last time.
    fn pull(&mut self, from: NodeId, to: NodeId) -> Result<(), NoMemory>
        requires { (stands self.old).due ≡ pull from to }
        ensures { stands self.new ≡ after_call result (stands self.old) };

    /// Plays a node's round, or puts it off to the next time.
    fn round(&mut self, node: NodeId) -> Result<(), NoMemory>
        requires { (stands self.old).due ≡ round node }
        ensures { stands self.new ≡ after_call result (stands self.old) };

    /// Posts a node's new outcomes to the clients that wait for them.
    fn post(&mut self, node: NodeId) -> Result<(), NoMemory>
        requires { (stands self.old).due ≡ post node }
        ensures { stands self.new ≡ after_call result (stands self.old) };

    /// Whether the work is over.
    fn over(&mut self) -> bool
        ensures { stands self.new ≡ after_over result (stands self.old) };
}
