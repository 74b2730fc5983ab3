//! One replica's part in Raft: elections, the log, and what is sent (Raft 2014).
//!
//! A Raft is a machine that its caller drives, one event at a time, and that never sends or waits:
//!
//! ```text
//! let plan = raft.plan(event, &source)?;      // may want memory, and then nothing has changed
//! let plan = raft.extend(plan, more, &source)?; // a further Propose in the same step, if any
//! let out = raft.commit(plan);                // takes no memory: the event has happened
//! // send out.messages, each to its receiver; if out.taken is there, the applied state is that one
//! while applied < raft.commit_index() {       // what is committed may be applied, in order
//!     apply(raft.entry(applied + 1));
//!     applied += 1;
//! }
//! ```
//!
//! Two kinds of events mostly send nothing, and then need no plan and no memory: a tick that is
//! only counted (`only_counts`, `count_tick`), and the answer of a peer (`hear`).
//!
//! The caller ticks it (`Tick`: a silent follower stands for election, a leader beats), hands in
//! each message that came (`Receive`), proposes payloads where it leads (`Propose`), and cuts the
//! log at most at the applied index (`Cut`). Between `plan` and `commit` no other event comes; a
//! plan that is dropped changes nothing. Messages may be lost, repeated and reordered, never
//! altered. After a restart (`restart`) it keeps term, vote and log: a caller that has a disk has
//! written these before it sends what the event sent.
//!
//! The messages (`Message` of rp_raftstep): `Vote` asks for a vote in a term, `VoteReply` answers
//! it; `Append` carries a suffix of at most eight entries behind an index and term that the
//! receiver must have, with the commit index, and is the heartbeat where it carries none;
//! `AppendReply` says up to where the logs agree, or the commit index of who answers, from where to
//! try again; `Snap` takes the place of entries that were cut; `Forward` hands a payload to the
//! leader.
#![tactic(auto)]

mod ahead;
mod commits;
mod drafts;
mod elections;
mod followers;
mod heads;
mod leaders;
mod messages;
mod plans;
mod proposals;
mod quiet;
mod rafts;
mod sends;
mod steps;

pub use plans::RaftPlan;
pub use rafts::Raft;
