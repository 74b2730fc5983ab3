//! The words of a request.
ghost use Rattle.std.specs.Prelude.{◌≡◌, IfOk};
ghost use Rattle.rp_script.specs.Requests.{put, add, cput, del, wipe, moving, split, request_of, request};
ghost use Rattle.rp_request.specs.Words.{words_of};
ghost use Rattle.rp_request.specs.Fits.{FitsRequest};

use crate::faults::{BadWord, LineKind, bad_word};
use crate::keywords::{RequestWord, request_word_of};
use crate::readers::{any_number_at, end_at, expect_at, key_at, span_at, value_at};
use crate::words::Words;
use rp_request::Request;

/// `put K V`
#[tactic(auto, unfolding(crate::specs::Requests::put))]
fn put(words: &mut Words) -> Result<Request, BadWord>
    ensures { result ≡ put words.old }
{
    let key = key_at(words, 6)?;
    let value = value_at(words, 7)?;
    end_at(words, 8)?;
    Ok(Request::Put { key, value })
}

/// `add K D`
#[tactic(auto, unfolding(crate::specs::Requests::add))]
fn add(words: &mut Words) -> Result<Request, BadWord>
    ensures { result ≡ add words.old }
{
    let key = key_at(words, 6)?;
    let by = any_number_at(words, 7)?;
    end_at(words, 8)?;
    Ok(Request::Add { key, by })
}

/// `cput K E V`
#[tactic(auto, unfolding(crate::specs::Requests::cput))]
fn cput(words: &mut Words) -> Result<Request, BadWord>
    ensures { result ≡ cput words.old }
{
    let key = key_at(words, 6)?;
    let expect = expect_at(words, 7)?;
    let value = value_at(words, 8)?;
    end_at(words, 9)?;
    Ok(Request::CPut { key, expect, value })
}

/// `del K`
#[tactic(auto, unfolding(crate::specs::Requests::del))]
fn del(words: &mut Words) -> Result<Request, BadWord>
    ensures { result ≡ del words.old }
{
    let key = key_at(words, 6)?;
    end_at(words, 7)?;
    Ok(Request::Del { key })
}

/// `wipe A B`
#[tactic(auto, unfolding(crate::specs::Requests::wipe))]
fn wipe(words: &mut Words) -> Result<Request, BadWord>
    ensures { result ≡ wipe words.old }
{
    let start = key_at(words, 6)?;
    let span = span_at(words, 7, start)?;
    end_at(words, 8)?;
    Ok(Request::Wipe { span })
}

/// `move A B D`
#[tactic(auto, unfolding(crate::specs::Requests::moving))]
fn moving(words: &mut Words) -> Result<Request, BadWord>
    ensures { result ≡ moving words.old }
{
    let from = key_at(words, 6)?;
    let to = key_at(words, 7)?;
    let by = any_number_at(words, 8)?;
    end_at(words, 9)?;
    Ok(Request::Move { from, to, by })
}

/// `split K`
#[tactic(auto, unfolding(crate::specs::Requests::split))]
fn split(words: &mut Words) -> Result<Request, BadWord>
    ensures { result ≡ split words.old }
{
    let key = key_at(words, 6)?;
    end_at(words, 7)?;
    Ok(Request::Split { key })
}

/// Reads the words behind the first one of a request.
#[tactic(auto, unfolding(crate::specs::Requests::request_of))]
fn request_of(first: RequestWord, words: &mut Words) -> Result<Request, BadWord>
    ensures { result ≡ request_of first words.old }
{
    match first {
        RequestWord::Put => put(words),
        RequestWord::Add => add(words),
        RequestWord::CPut => cput(words),
        RequestWord::Del => del(words),
        RequestWord::Wipe => wipe(words),
        RequestWord::Move => moving(words),
        RequestWord::Split => split(words),
        RequestWord::Unknown => Err(bad_word(5, LineKind::UnknownWord)),
    }
}

/// Reads a request, which begins at word 5 of its line and ends with the line.
#[tactic(auto, unfolding(crate::specs::Requests::request))]
pub fn request(words: &mut Words) -> Result<Request, BadWord>
    ensures { result ≡ request words.old }
{
    match words.next() {
        None => Err(bad_word(5, LineKind::MissingWord)),
        Some(word) => request_of(request_word_of(word), words),
    }
}

/// Reads the words of a request alone, as they stand in a line. The word of a refusal is counted as
/// there: the first word of a request is word 5.
#[tactic(auto, using(crate::proofs::Rules::request_fits))]
pub fn read_request(text: &[u8]) -> Result<Request, BadWord>
    ensures request { result ≡ request (words_of text.now) }
    ensures fits { IfOk result FitsRequest }
{
    request(&mut Words::new(text))
}
