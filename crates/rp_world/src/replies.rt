//! The replies that clients have, by the book.
ghost use Rattle.std.specs.Prelude.{◌≡◌, IfOk, length};
ghost use Rattle.rp_events.specs.Lawful.{IsReached};
ghost use Rattle.rp_lines.specs.Views.{replies_of};

use crate::worlds::World;
use rp_base::NoMemory;
use rp_request::Replies;

impl World {
    /// The reply lines of all attempts, by client, command and attempt.
    pub fn replies(&self) -> Result<Replies, NoMemory>
        requires { IsReached (length self.now.world.nodes) self.now.world.nodes }
        ensures { IfOk result (λ replies. replies ≡ replies_of self.now.world.nodes) }
    {
        self.book.replies()
    }
}
