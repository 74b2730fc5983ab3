//! Where commands took effect.
ghost use Rattle.std.specs.Prelude.{◌≡◌, ◌∷◌, [], ◌++◌, OnOk, None, true};
ghost use Rattle.std.specs.Map.{lookup};
ghost use Rattle.std.specs.Option.{option_copied};
ghost use Rattle.rp_auditor.specs.Playing.{is_told};
ghost use Rattle.rp_auditor.specs.Seen.{is_command, place_of, placed, named_by, is_new, is_first, first_by, took_so, took, is_honest_by, is_honest};
ghost use Rattle.rp_auditor.specs.declared.seen.Placed.TheVariants.{Once};

use crate::items::is_told;
use indexmap::IndexMap;
use rp_base::{CmdId, NoMemory};
use rp_request::{Place, Record, Reply};
use rp_reread::{Answer, Ended};

/// A client's command, by its number.
#[derive(Clone, Copy, PartialEq, Eq, Hash, Drop)]
pub(crate) struct Command {
    pub(crate) client: u16,
    pub(crate) seq: u32,
}

/// The attempt by which a command took effect, and the reply. An enum of one form: the prover takes it
/// into a map, and not a struct of these fields.
#[derive(Drop)]
pub(crate) enum Placed {
    Once { attempt: u16, reply: Reply },
}

/// The commands that took effect so far, in the order of the report.
pub(crate) type Seen = IndexMap<Command, Placed>;

/// What is seen of a command.
pub(crate) fn place_of(seen: &Seen, client: u16, seq: u32) -> Option<&Placed>
    ensures { option_copied result ≡ place_of seen.now.entries client seq }
{
    seen.get(&Command { client, seq })
}

/// No item so far names the command.
fn is_new(seen: &Seen, id: CmdId) -> bool
    ensures { result ≡ is_new seen.now.entries id }
{
    place_of(seen, id.client, id.seq).is_none()
}

/// No item so far names the command of this one.
pub(crate) fn is_first(seen: &Seen, item: &Place) -> bool
    ensures { result ≡ is_first seen.now.entries item.now }
{
    match item {
        Place::Write { id, .. } | Place::Split { id, .. } => is_new(seen, *id),
        Place::Lease(_) => true,
    }
}

/// The command took effect, by this attempt.
fn put(seen: &mut Seen, id: CmdId, reply: Reply) -> Result<(), NoMemory>
    requires { place_of seen.old.entries id.client id.seq ≡ None }
    ensures { OnOk result (seen.new.entries ≡ seen.old.entries ++ placed id reply) }
{
    let command = Command {
        client: id.client,
        seq: id.seq,
    };
    let once = Placed::Once {
        attempt: id.attempt,
        reply,
    };
    drop(seen.insert(command, once)?);
    Ok(())
}

/// The command of a record's item took effect.
pub(crate) fn put_record(seen: &mut Seen, record: &Record) -> Result<(), NoMemory>
    requires { first_by seen.old.entries record.now ≡ true }
    ensures { OnOk result (seen.new.entries ≡ seen.old.entries ++ named_by record.now) }
{
    match record {
        Record::Took(Place::Write { id, reply, .. }) => put(seen, *id, *reply),
        Record::Took(Place::Split { id, right, .. }) => put(seen, *id, Reply::Range(*right)),
        Record::Took(Place::Lease(_)) | Record::Passed(_) => Ok(()),
    }
}

fn took_so(place: Option<&Placed>, attempt: u16, reply: &Reply) -> bool
    ensures { result ≡ took_so attempt reply.now (option_copied place.entry) }
{
    match place {
        Some(
            Placed::Once {
                attempt: other,
                reply: told,
            },
        ) => attempt == *other && is_told(reply, told),
        None => false,
    }
}

fn took(place: Option<&Placed>, attempt: u16) -> bool
    ensures { result ≡ took attempt (option_copied place.entry) }
{
    match place {
        Some(Placed::Once { attempt: other, .. }) => attempt == *other,
        None => false,
    }
}

/// An attempt that took effect has its place, and one that was refused has none.
pub(crate) fn is_honest(seen: &Seen, answer: &Answer) -> bool
    ensures { result ≡ is_honest seen.now.entries answer.now }
{
    let place = place_of(seen, answer.client, answer.seq);
    match answer.end {
        Ended::Success(reply) => took_so(place, answer.attempt, &reply),
        Ended::Refused => !took(place, answer.attempt),
        Ended::Other => true,
    }
}
