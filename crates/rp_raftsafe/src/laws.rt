//! Laws of the world of one range, for every schedule of deliveries, ticks, proposals, cuts, removals
//! and restarts. `S` is the type of a range's state, of which snapshots are made. No program calls
//! these.

ghost use Rattle.rp_raftsafe.specs.Safety.{OneLeader, LogsMatch, LeaderComplete, CommitsAgree, OneList, AppendsFit, SentToOthers, OnlyProposed};
ghost use Rattle.rp_raftsafe.specs.Bounds.{Bounded};
ghost use Rattle.rp_raftsafe.specs.Many.{SeesOwn, StartsNowhere};
ghost use Rattle.rp_raftsafe.specs.Starts.{StartUnread, StartsUnread, ShutUnread};
ghost use Rattle.rp_raftsafe.specs.Snapshots.{TakesAbove, StepTakesAbove, SnapsWereApplied};
ghost use Rattle.rp_raftsafe.specs.Parcels.{ParcelsAreMessages, ViewsOfHosts};
ghost use Rattle.rp_raftsafe.specs.Allowed.{EventsAllowed};

/// Election safety (Raft 2014, section 5.2): in each term at most one node is ever leader, at one time
/// or at two.
pub fn one_leader<S>()
    ensures { OneLeader S }
{}

/// Log matching (Raft 2014, section 5.3): two logs that have one term at an index are the same up to
/// it, as far as both show them.
pub fn logs_match<S>()
    ensures { LogsMatch S }
{}

/// Leader completeness (Raft 2014, section 5.4): the log of a leader shows every entry that is
/// committed in an earlier term, at one time or at two.
pub fn leader_complete<S>()
    ensures { LeaderComplete S }
{}

/// State machine safety (Raft 2014, section 5.4.3): two replicas agree on each entry that both have
/// committed, at one time or at two.
pub fn commits_agree<S>()
    ensures { CommitsAgree S }
{}

/// State machine safety, as one list (Raft 2014, section 5.4.3): there is a committed list, which the
/// schedule determines and which only grows, and each replica shows it: its base, its entries up to
/// the commit index, and its state, which is the fold of the list up to the applied index. Each entry
/// of it is Nothing or was proposed.
pub fn one_list<S>()
    ensures { OneList S }
{}

/// Validity: each entry of a log and each payload in a message is Nothing, or was proposed by an event
/// of the schedule.
pub fn only_proposed<S>()
    ensures { OnlyProposed S }
{}

/// An `Append` whose term is not below the receiver's has, above the receiver's base and up to its
/// commit index, the terms that its log has there.
pub fn appends_fit<S>()
    ensures { AppendsFit S }
{}

/// Each message goes to another node than the one that sent it.
pub fn sent_to_others<S>()
    ensures { SentToOthers S }
{}

/// Every term, index and count of a replica or a message stays below a bound that grows with the
/// events: by 2 for a tick, 1 for a message that comes, and 1 for each payload.
pub fn bounded<S>()
    ensures { Bounded S }
{}

/// Of nodes with several ranges and one list of what they sent, each range sees its own world: each
/// event is one of its own, or nothing to it.
pub fn sees_own<S>()
    ensures run { SeesOwn S }
    ensures start { StartsNowhere S }
{}

/// Only Begin reads the state that a range starts with: of one range and of nodes with several, what
/// happens is the same with another start, if each event that begins a range has its start in both. So
/// what a range that has not begun sees does not depend on its start.
pub fn only_begin_reads_start<S>()
    ensures one { StartUnread S }
    ensures many { StartsUnread S }
    ensures shut { ShutUnread S }
{}

/// A snapshot that a Raft event takes in is the one that its message brings, and is above the commit
/// index (Raft 2014, section 7). No other event takes one in.
pub fn takes_above_commit<S>()
    ensures message { TakesAbove S }
    ensures step { StepTakesAbove S }
{}

/// A snapshot that was sent has the index up to which its sender had applied its log before one of the
/// events, and the state that it had there (Raft 2014, section 7).
pub fn snaps_were_applied<S>()
    ensures { SnapsWereApplied S }
{}

/// A parcel that a node has sent is a message of its range; and what a range sees of a node is what
/// the node has of it.
pub fn parcels_are_messages<S>()
    ensures message { ParcelsAreMessages S }
    ensures view { ViewsOfHosts S }
{}

/// In every world of a range each event may be planned by the code, and then extended by a Propose, as
/// long as the bound that the events set stays below the largest number of 64 bits.
pub fn events_allowed<S>()
    ensures { EventsAllowed S }
{}
