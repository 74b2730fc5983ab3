//! What words ask for, read by clap.
ghost use Rattle.std.specs.Prelude.{◌≡◌, ◌≤◌, map, string_bytes, false, None, Some, IfOk, IfErr, IfSome, option_map};
ghost use Rattle.std.specs.List.{list_any};
ghost use Rattle.clap.specs.Matches.{found_of, first_value};
ghost use Rattle.clap.specs.Simple.{subcommand_rows_of};
ghost use Rattle.clap.specs.Values.{kind_of};
ghost use Rattle.rp_words.specs.Words.{is_odd};
ghost use Rattle.rp_words.specs.Asked.{Line, line_of, form_named, form_or_text, number_in, number_or, plan_by, script_by, asked_in, asked_of, IsPlan, IsSized};
ghost use Rattle.rp_words.specs.Shown.{shown, asked_at};

use crate::asks::{Asked, Form, RacePlan, WordsFault};
use crate::commands::command;
use clap::ArgMatches;
use clap::error::ErrorKind;
use rp_base::read_u64;
use std::alloc::Global;

/// Whether the word begins with a hyphen and names no option.
#[tactic(auto, using(crate::proofs::OddWords::by_places))]
fn is_odd(word: &[u8]) -> bool
    ensures { result ≡ is_odd word.now }
{
    if word.len() < 1 || word[0] != b'-' {
        return false;
    }
    word.len() < 3 || word[1] != b'-'
}

/// The form that a word names.
fn form_named(word: &str) -> Option<Form>
    ensures { result ≡ form_named word.now }
{
    match word {
        "text" => Some(Form::Text),
        "json" => Some(Form::Json),
        "summary" => Some(Form::Summary),
        _ => None,
    }
}

/// The form that an option's value names, text where it is not given.
fn form_or_text(found: Option<&str>) -> Option<Form>
    ensures { result ≡ form_or_text (option_map (λ word. word.now) found.entry) }
{
    match found {
        Some(word) => form_named(word),
        None => Some(Form::Text),
    }
}

/// A number from `low` to `high`.
fn number_in(word: &str, low: u64, high: u64) -> Option<u64>
    ensures value { result ≡ number_in low high word.now }
    ensures least { IfSome result (λ n. low ≤ n) }
    ensures most { IfSome result (λ n. n ≤ high) }
{
    match read_u64(word.as_bytes()) {
        Ok(n) if low <= n && n <= high => Some(n),
        _ => None,
    }
}

/// An option's number, or another where it is not given.
fn number_or(found: Option<&str>, default: u64, low: u64, high: u64) -> Option<u64>
    requires least { low ≤ default }
    requires most { default ≤ high }
    ensures value { result ≡ number_or default low high (option_map (λ word. word.now) found.entry) }
    ensures least { IfSome result (λ n. low ≤ n) }
    ensures most { IfSome result (λ n. n ≤ high) }
{
    match found {
        Some(word) => number_in(word, low, high),
        None => Some(default),
    }
}

/// How a race is run.
fn plan(matches: &ArgMatches<'_>) -> Option<RacePlan>
    ensures plan { result ≡ plan_by (first_value (found_of matches.now)) }
    ensures sized { IfSome result IsPlan }
{
    let workers = number_or(matches.get_str("workers"), 2, 1, 8)?;
    let loss = number_or(matches.get_str("loss"), 0, 0, 50)?;
    let salt = number_or(matches.get_str("salt"), 1, 0, u64::MAX)?;
    let quota = number_or(matches.get_str("quota"), 1024, 1, 65_536)?;
    let form = form_or_text(matches.get_str("form"))?;
    Some(RacePlan {
        workers: workers as u8,
        loss: loss as u8,
        salt,
        quota,
        form,
    })
}

/// A script's number, and how many commands it has.
fn script(number: &str, size: &str) -> Option<Asked>
    ensures asked { result ≡ script_by number.now size.now }
    ensures sized { IfSome result IsSized }
{
    let number = number_in(number, 0, u64::MAX)?;
    let size = number_in(size, 1, 20_000)?;
    Some(Asked::Gen { number, size })
}

/// What a command asks for, by its name and what was found for it.
fn asked(name: &str, matches: &ArgMatches<'_>) -> Option<Asked>
    ensures asked { result ≡ asked_at name.now (first_value (found_of matches.now)) }
    ensures sized { IfSome result IsSized }
{
    match name {
        "run" => {
            let form = form_or_text(matches.get_str("form"))?;
            Some(Asked::Run(form))
        }
        "race" => {
            let plan = plan(matches)?;
            Some(Asked::Race(plan))
        }
        _ => script(matches.get_str("number")?, matches.get_str("size")?),
    }
}

/// What was found for the command that clap entered asks for.
fn found(matches: &ArgMatches<'_>) -> Option<Asked>
    ensures asked { (line : Line) → subcommand_rows_of matches.now ≡ Some (shown line)
        → result ≡ asked_in line }
    ensures sized { IfSome result IsSized }
{
    match matches.subcommand() {
        Some((name, inner)) => asked(name, inner),
        None => None,
    }
}

/// Why clap refuses words: they are no use of the program, but for want of memory.
fn refusal(error: &clap::Error) -> WordsFault
    ensures { result ≡ WordsFault.Usage → (kind_of error.now ≡ ErrorKind.OutOfMemory → ⊥) }
{
    match error.kind() {
        ErrorKind::OutOfMemory => WordsFault::NoMemory,
        _ => WordsFault::Usage,
    }
}

/// What clap makes of the words.
fn parsed<'a>(alloc: Global, words: &'a [String]) -> Result<ArgMatches<'a>, WordsFault>
    requires { list_any is_odd (map string_bytes words.now) ≡ false }
    ensures ok { IfOk result (λ matches. (line : Line)
        × (line_of (map string_bytes words.now) ≡ Some line)
        × (subcommand_rows_of matches ≡ Some (shown line))) }
    ensures err { IfErr result (λ fault. fault ≡ WordsFault.Usage
        → line_of (map string_bytes words.now) ≡ None) }
{
    let command = command(alloc)?;
    match command.try_get_matches_from(words) {
        Ok(matches) => Ok(matches),
        Err(error) => Err(refusal(&error)),
    }
}

/// Whether one of the words begins with a hyphen and names no option.
fn any_odd(words: &[String]) -> bool
    ensures { result ≡ list_any (λ word. is_odd (string_bytes word)) words.now }
{
    words.iter().any(|word| is_odd(word.as_bytes()))
}

/// What words ask for of which none is odd.
fn judged(alloc: Global, words: &[String]) -> Result<Asked, WordsFault>
    requires { list_any is_odd (map string_bytes words.now) ≡ false }
    ensures ok { IfOk result (λ asked. asked_of (map string_bytes words.now) ≡ Some asked) }
    ensures sized { IfOk result IsSized }
    ensures err { IfErr result (λ fault. fault ≡ WordsFault.Usage
        → asked_of (map string_bytes words.now) ≡ None) }
{
    match parsed(alloc, words) {
        Ok(matches) => found(&matches).ok_or(WordsFault::Usage),
        Err(fault) => Err(fault),
    }
}

/// Reads what the words, without the program's name, ask for. The table of words is in FORMATS.md.
/// `Usage` comes exactly where they ask for nothing.
pub fn read_words(alloc: Global, words: &[String]) -> Result<Asked, WordsFault>
    ensures ok { IfOk result (λ asked. asked_of (map string_bytes words.now) ≡ Some asked) }
    ensures sized { IfOk result IsSized }
    ensures err { IfErr result (λ fault. fault ≡ WordsFault.Usage
        → asked_of (map string_bytes words.now) ≡ None) }
{
    if any_odd(words) {
        return Err(WordsFault::Usage);
    }
    judged(alloc, words)
}
