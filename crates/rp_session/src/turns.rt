//! The states of a session add, and what it asks for.
use rp_request::Refusal;

/// Where a session add stands, by the command that it has sent last.
#[derive(Clone, Copy, PartialEq, Eq)]
pub enum Stage {
    /// The token is to get its number.
    Minting,
    /// The token's number is to go to the key.
    Moving,
    /// Whether the token is spent is asked.
    Confirming,
}

/// What is to be done after an outcome.
#[derive(Clone, Copy, PartialEq, Eq)]
pub enum Turn {
    /// The outcome is not known yet.
    Wait,
    /// A further attempt of the same command is due.
    Again,
    /// The session's command is due, as a command of its own.
    Send,
    /// The key rose once.
    Done,
    /// The key did not rise and never will by this add.
    Failed(Refusal),
}
