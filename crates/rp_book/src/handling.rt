//! Which of a sender's messages were handled.
ghost use Rattle.std.specs.Prelude.{◌≡◌, ◌+◌, ◌≤◌, [], drop, length, OnOk, OnErr};
ghost use Rattle.std.specs.List.{prefix_len};
ghost use Rattle.rp_book.specs.Handling.{first_unhandled, handled, is_handled, padded};

use rp_base::NoMemory;
use std::alloc::Global;
use std::marker::Model;

/// Which of a sender's messages were handled, by their numbers from 1 on. Contracts see of each in
/// order whether it was.
#[derive(Drop)]
pub struct Handled {
    flags: Vec<bool>,
    /// So many messages in front were handled, and the next one was not.
    front: usize,
}

impl Model for Handled {
    ghost use Rattle.std.specs.Prelude.{◌≡◌};
    ghost use Rattle.std.specs.List.{prefix_len};
    ghost use Rattle.rp_book.specs.Handling.{Handling};

    ghost Value = { Handling };

    ghost view = { λ h. h.flags.items };

    ghost invariant = { λ h. h.front ≡ prefix_len (λ was. was) h.flags.items };
}

impl Handled {
    /// No message was handled. It takes no memory.
    pub fn new(alloc: Global) -> Handled
        ensures { result ≡ [] }
    {
        Handled {
            flags: Vec::new(alloc),
            front: 0,
        }
    }

    /// Whether the message with this number was handled.
    pub fn is_handled(&self, number: u64) -> bool
        requires { 1 ≤ number }
        ensures { result ≡ is_handled number self.now }
    {
        match self.flags.get(number as usize - 1) {
            None => false,
            Some(was) => *was,
        }
    }

    /// The number of the first message that was not handled.
    pub fn first_unhandled(&self) -> usize
        ensures { result ≡ first_unhandled self.now }
    {
        // There are fewer than 2^63.
        let _ = self.flags.len();
        self.front + 1
    }

    /// The message with this number is handled from now on.
    pub fn handle(&mut self, number: u64) -> Result<(), NoMemory>
        requires { 1 ≤ number }
        ensures ok { OnOk result (self.new ≡ handled number self.old) }
        ensures err { OnErr result (self.new ≡ self.old) }
    {
        mark(&mut self.flags, number as usize)?;
        let front = advanced(&self.flags, self.front);
        self.front = front;
        Ok(())
    }
}

/// The list has as many flags as this, or more.
fn pad(flags: &mut Vec<bool>, count: usize) -> Result<(), NoMemory>
    ensures ok { OnOk result (flags.new.items ≡ padded count flags.old.items) }
    ensures err { OnErr result (flags.new.items ≡ flags.old.items) }
{
    if count > flags.len() {
        flags.resize(count, false)?;
    }
    Ok(())
}

/// The message with this number is handled.
fn mark(flags: &mut Vec<bool>, number: usize) -> Result<(), NoMemory>
    requires { 1 ≤ number }
    ensures ok { OnOk result (flags.new.items ≡ handled number flags.old.items) }
    ensures err { OnErr result (flags.new.items ≡ flags.old.items) }
{
    pad(flags, number)?;
    flags[number - 1] = true;
    Ok(())
}

/// How many in front were handled.
fn leading(flags: &[bool]) -> usize
    ensures { result ≡ prefix_len (λ was. was) flags.now }
{
    flags.iter().take_while(|was| **was).count()
}

/// How many in front were handled, where so many are known to be.
fn advanced(flags: &[bool], front: usize) -> usize
    requires { front ≤ length flags.now }
    ensures { result ≡ front + prefix_len (λ was. was) (drop front flags.now) }
{
    // A slice has fewer than 2^63 flags.
    let _ = flags.len();
    let more = leading(&flags[front..]);
    front + more
}
