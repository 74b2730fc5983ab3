//! How the end of an attempt is read from its text.
ghost use Rattle.std.specs.Prelude.{◌≡◌};
ghost use Rattle.rp_reread.specs.Readers.{Reads, Tells};
ghost use Rattle.rp_reread.specs.Ends.{holder, mismatch, latched, failed, of_key, of_number, of_level, told_by_number, refusal_by, refusal_at, refused_at, ambiguity_by, own_at, ambiguous_at, success_at, end_by, end_at, end_of};

use crate::faults::NotRead;
use crate::reports::Ended;
use crate::requests::reply;
use crate::words::{Words, attempt, bound, key, node, number, option};

#[tactic(auto, unfolding(crate::specs::Ends::holder))]
fn holder(words: &mut Words) -> Result<(), NotRead>
    ensures { Reads result words.new (holder words.old) }
{
    node(words)?;
    number(words, u64::MAX)?;
    Ok(())
}

#[tactic(auto, unfolding(crate::specs::Ends::mismatch))]
fn mismatch(words: &mut Words) -> Result<(), NotRead>
    ensures { Reads result words.new (mismatch words.old) }
{
    number(words, 7)?;
    bound(words)?;
    bound(words)?;
    number(words, 3)?;
    Ok(())
}

#[tactic(auto, unfolding(crate::specs::Ends::latched))]
fn latched(words: &mut Words) -> Result<(), NotRead>
    ensures { Reads result words.new (latched words.old) }
{
    attempt(words)?;
    Ok(())
}

#[tactic(auto, unfolding(crate::specs::Ends::failed))]
fn failed(words: &mut Words) -> Result<(), NotRead>
    ensures { Reads result words.new (failed words.old) }
{
    option(words)?;
    Ok(())
}

#[tactic(auto, unfolding(crate::specs::Ends::of_key))]
fn of_key(words: &mut Words) -> Result<(), NotRead>
    ensures { Reads result words.new (of_key words.old) }
{
    key(words)?;
    Ok(())
}

#[tactic(auto, unfolding(crate::specs::Ends::of_number))]
fn of_number(words: &mut Words) -> Result<(), NotRead>
    ensures { Reads result words.new (of_number words.old) }
{
    number(words, u64::MAX)?;
    Ok(())
}

#[tactic(auto, unfolding(crate::specs::Ends::of_level))]
fn of_level(words: &mut Words) -> Result<(), NotRead>
    ensures { Reads result words.new (of_level words.old) }
{
    number(words, 3)?;
    Ok(())
}

/// Reads one of the last refusals behind its first word.
#[tactic(auto, unfolding(crate::specs::Ends::told_by_number))]
fn told_by_number(word: &[u8], words: &mut Words) -> Result<(), NotRead>
    ensures { Reads result words.new (told_by_number word.now words.old) }
{
    if word == b"overflow".as_slice() {
        of_number(words)
    } else if word == b"short".as_slice() {
        of_number(words)
    } else if word == b"too-wide".as_slice() {
        of_number(words)
    } else if word == b"not-inside".as_slice() {
        Ok(())
    } else if word == b"split-limit".as_slice() {
        of_level(words)
    } else {
        Err(NotRead)
    }
}

/// Reads a refusal behind its first word.
#[tactic(auto, unfolding(crate::specs::Ends::refusal_by))]
fn refusal_by(word: &[u8], words: &mut Words) -> Result<(), NotRead>
    ensures { Reads result words.new (refusal_by word.now words.old) }
{
    if word == b"no-replica".as_slice() {
        Ok(())
    } else if word == b"not-lease-holder".as_slice() {
        holder(words)
    } else if word == b"range-mismatch".as_slice() {
        mismatch(words)
    } else if word == b"latched".as_slice() {
        latched(words)
    } else if word == b"condition-failed".as_slice() {
        failed(words)
    } else if word == b"is-text".as_slice() {
        of_key(words)
    } else {
        told_by_number(word, words)
    }
}

#[tactic(auto, unfolding(crate::specs::Ends::refusal_at))]
fn refusal_at(word: &[u8], words: &mut Words) -> Result<Ended, NotRead>
    ensures { Reads result words.new (refusal_at word.now words.old) }
{
    if word == b"tries".as_slice() {
        let first = words.word()?;
        refusal_by(first, words)?;
        Ok(Ended::Refused)
    } else {
        refusal_by(word, words)?;
        Ok(Ended::Refused)
    }
}

#[tactic(auto, unfolding(crate::specs::Ends::refused_at))]
fn refused_at(words: &mut Words) -> Result<Ended, NotRead>
    ensures { Reads result words.new (refused_at words.old) }
{
    let word = words.word()?;
    refusal_at(word, words)
}

#[tactic(auto, unfolding(crate::specs::Ends::own_at))]
fn own_at(words: &mut Words) -> Result<Ended, NotRead>
    ensures { Reads result words.new (own_at words.old) }
{
    number(words, u64::MAX)?;
    Ok(Ended::Other)
}

#[tactic(auto, unfolding(crate::specs::Ends::ambiguity_by))]
fn ambiguity_by(word: &[u8], words: &mut Words) -> Result<Ended, NotRead>
    ensures { Reads result words.new (ambiguity_by word.now words.old) }
{
    if word == b"snapshot".as_slice() {
        number(words, u64::MAX)?;
        number(words, u64::MAX)?;
        Ok(Ended::Other)
    } else if word == b"removed".as_slice() {
        own_at(words)
    } else if word == b"restarted".as_slice() {
        own_at(words)
    } else {
        Err(NotRead)
    }
}

#[tactic(auto, unfolding(crate::specs::Ends::ambiguous_at))]
fn ambiguous_at(words: &mut Words) -> Result<Ended, NotRead>
    ensures { Reads result words.new (ambiguous_at words.old) }
{
    let word = words.word()?;
    ambiguity_by(word, words)
}

#[tactic(auto, unfolding(crate::specs::Ends::success_at))]
fn success_at(words: &mut Words) -> Result<Ended, NotRead>
    ensures { Reads result words.new (success_at words.old) }
{
    let reply = reply(words)?;
    Ok(Ended::Success(reply))
}

/// Reads how an attempt ended, behind its first word.
#[tactic(auto, unfolding(crate::specs::Ends::end_by))]
fn end_by(word: &[u8], words: &mut Words) -> Result<Ended, NotRead>
    ensures { Reads result words.new (end_by word.now words.old) }
{
    if word == b"ok".as_slice() {
        success_at(words)
    } else if word == b"refused".as_slice() {
        refused_at(words)
    } else if word == b"ambiguous".as_slice() {
        ambiguous_at(words)
    } else if word == b"pending".as_slice() {
        Ok(Ended::Other)
    } else if word == b"unsent".as_slice() {
        Ok(Ended::Other)
    } else {
        Err(NotRead)
    }
}

#[tactic(auto, unfolding(crate::specs::Ends::end_at))]
fn end_at(words: &mut Words) -> Result<Ended, NotRead>
    ensures { Reads result words.new (end_at words.old) }
{
    let word = words.word()?;
    end_by(word, words)
}

/// Reads the end of an attempt that a text spells.
#[tactic(auto, unfolding(crate::specs::Ends::end_of))]
pub fn read_end(text: &[u8]) -> Result<Ended, NotRead>
    ensures { Tells result (end_of text.now) }
{
    let mut words = Words::new(text);
    let end = end_at(&mut words)?;
    match words.next() {
        None => Ok(end),
        Some(_) => Err(NotRead),
    }
}
