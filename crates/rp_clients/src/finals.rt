//! How a client leaves its commands.
use rp_base::Seq;
use rp_request::End;

/// What a client knows of a command at its end: how its latest attempt ended, `Pending` where that
/// is not known; that as many were refused as a command may have; or that there was none.
pub type Final = End;

/// How a client leaves a command: the number of its latest attempt, 0 where there was none, and
/// what the client knows of it.
#[derive(Clone, Copy, PartialEq, Eq)]
pub struct CommandEnd {
    pub attempt: u16,
    pub end: Final,
}

/// One for each of a client's requests, in their order.
pub type Finals = Seq<CommandEnd>;
