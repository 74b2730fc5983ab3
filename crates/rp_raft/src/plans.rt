//! What an event will do: a change of the head, an edit of the log, and messages made already.

ghost use Rattle.std.specs.Prelude.{◌≡◌, ℕ, length, option_copied};
ghost use Rattle.std.specs.Option.{option_map};
ghost use Rattle.rp_raft.specs.Plans.{behind_of, head_after, is_no_cut, room_of, sends_of, snapshot_out, taken_in, PlanFits};
ghost use Rattle.rp_raftstep.specs.RaftState.{RaftState};

use rp_base::{NodeId, Seq};
use rp_raftlog::{Entries, Entry};
use rp_raftstep::{Due, Head, Message};

/// Messages, each with its receiver.
pub type Messages<S> = Seq<(NodeId, Message<S>)>;

/// What an event does to the log.
#[derive(Drop)]
pub(crate) enum LogEdit {
    /// Nothing.
    Stays,
    /// These entries come behind the last.
    Appends {
        entries: Entries,
    },
    /// A leader's entries are taken in.
    Accepts {
        prev_index: u64,
        prev_term: u64,
        entries: Entries,
    },
    /// The base becomes this index.
    Cuts {
        to: u64,
    },
    /// The log begins anew behind a snapshot.
    Resets {
        index: u64,
        term: u64,
    },
}

/// An event but for the commit index of a leader and the messages that are made last.
#[derive(Drop)]
pub(crate) struct RaftDraft<S> {
    pub(crate) head: Head,
    pub(crate) edit: LogEdit,
    pub(crate) messages: Messages<S>,
    pub(crate) due: Due,
    pub(crate) taken: Option<(u64, S)>,
}

/// What an event will do to a Raft. To drop it changes nothing.
#[derive(Drop)]
pub struct RaftPlan<S> {
    /// The draft, with the messages that are made last behind the replies.
    pub(crate) draft: RaftDraft<S>,
    /// The commit index that the event leaves.
    pub(crate) commit: u64,
    /// How many of the messages are replies.
    pub(crate) replies: usize,
}

/// How many entries the edit brings.
pub(crate) fn room_of(edit: &LogEdit) -> usize
    ensures { result ≡ room_of edit.now }
{
    match edit {
        LogEdit::Appends { entries } => entries.len(),
        LogEdit::Accepts { entries, .. } => entries.len(),
        _ => 0,
    }
}

/// The entries that the edit puts behind the log's own.
pub(crate) fn behind_of(edit: &LogEdit) -> &[Entry]
    ensures { result.now ≡ behind_of edit.now }
{
    match edit {
        LogEdit::Appends { entries } => entries.as_slice(),
        _ => &[],
    }
}

/// Whether it is of any event but a Cut.
pub(crate) fn is_no_cut(edit: &LogEdit) -> bool
    ensures { result ≡ is_no_cut edit.now }
{
    !matches!(edit, LogEdit::Cuts { .. })
}

impl<S> RaftPlan<S> {
    /// The term that the event leaves.
    pub fn term(&self) -> u64
        ensures { result ≡ (head_after self.now).term }
    {
        self.draft.head.term
    }

    /// The leader that the event leaves, if one is known.
    pub fn leader(&self) -> Option<NodeId>
        ensures { result ≡ (head_after self.now).leader }
    {
        self.draft.head.leader
    }

    /// The snapshot that the event takes in.
    pub fn taken(&self) -> Option<&S>
        ensures { option_copied result ≡ option_map (λ taken. taken.1) (taken_in self.now) }
    {
        self.draft.taken.as_ref().map(|taken| &taken.1)
    }

    /// How many messages the event sends.
    pub fn sends(&self) -> usize
        ensures { result ≡ length (sends_of self.now) }
    {
        self.draft.messages.len()
    }

    /// Hands out the index and the snapshot that the event takes in: `commit` hands out none any
    /// more. All else that the plan does stays.
    pub fn take_snapshot(&mut self) -> Option<(u64, S)>
        ensures taken { result ≡ taken_in self.old }
        ensures rest { self.new ≡ snapshot_out self.old }
        ensures fits { (st : RaftState) (spare : ℕ)
            → PlanFits st spare self.old → PlanFits st spare self.new }
    {
        self.draft.taken.take()
    }
}
