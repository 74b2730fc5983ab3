//! What messages weigh.
ghost use Rattle.std.specs.Prelude.{◌≡◌, sum_by};
ghost use Rattle.rp_lines.specs.Players.{entry_weight, load_of, weight_of};
ghost use Rattle.rp_world.specs.Weighing.{capped, load};

use rp_events::Parcel;
use rp_raftlog::Entry;
use rp_raftstep::Message;
use rp_snapshot::Snapshot;

/// What an entry weighs.
fn entry_weight(entry: &Entry) -> u64
    ensures { result ≡ entry_weight entry.now }
{
    1 + entry.payload.len() as u64 / 128
}

/// What entries weigh, as far as it can be counted.
fn entries_weight(entries: &[Entry]) -> u64
    ensures { result ≡ capped (sum_by entry_weight entries.now) }
{
    let mut weight: u64 = 0;
    for entry in entries {
        weight = weight.saturating_add(entry_weight(entry));
    }
    weight
}

/// What a message carries, as far as it can be counted.
fn message_load(message: &Message<Snapshot>) -> u64
    ensures { result ≡ capped (load_of message.now) }
{
    match message {
        Message::Append { entries, .. } => entries_weight(entries.as_slice()),
        Message::Snap { snapshot, .. } => snapshot.rows() as u64,
        Message::Vote { .. }
        | Message::VoteReply { .. }
        | Message::AppendReply { .. }
        | Message::Forward { .. } => 0,
    }
}

/// What a message weighs, as far as it can be counted.
fn parcel_weight(parcel: &Parcel<Snapshot>) -> u64
    ensures { result ≡ capped (weight_of parcel.now) }
{
    message_load(&parcel.message).saturating_add(1)
}

/// What messages weigh, as far as it can be counted.
pub(crate) fn sent_weight(sent: &[Parcel<Snapshot>]) -> u64
    ensures { result ≡ capped (load sent.now) }
{
    let mut weight: u64 = 0;
    for parcel in sent {
        weight = weight.saturating_add(parcel_weight(parcel));
    }
    weight
}
