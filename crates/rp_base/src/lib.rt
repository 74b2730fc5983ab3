//! What all crates of the product speak of: lists, text, keys and numbers.
#![tactic(auto)]

mod client_counts;
mod ids;
mod items;
mod keys;
pub mod laws;
mod leases;
mod limits;
mod lists;
mod memory;
mod numbers;
mod ranges;
mod short_texts;
mod spans;
mod texts;
mod values;

pub use client_counts::ClientCounts;
pub use ids::{CmdId, NodeId, RangeId};
pub use items::{Item, Items};
pub use keys::{BadKey, Key, push_bound, push_key};
pub use leases::{Lease, LeaseAsk, LeaseIndex, LeaseSeq, Tick};
pub use limits::{BATCH_MOST, BUFFER_CAPACITY, FIRST_TERM, Which};
pub use lists::{Bytes, Calls, Grown, Seq};
pub use memory::NoMemory;
pub use numbers::{NumberFault, read_u64};
pub use ranges::{Desc, SplitFault};
pub use short_texts::{BadText, ShortText, push_text};
pub use spans::{KeySpan, Span, Spans};
pub use texts::{Text, push_number, push_word};
pub use values::{Value, push_value};
