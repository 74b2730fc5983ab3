//! Words that stand in many lines of a report.
ghost use Rattle.std.specs.Prelude.{◌≡◌, ◌++◌, OnOk, OnErr};
ghost use Rattle.std.specs.Fmt.{decimal};
ghost use Rattle.rp_base.specs.Keys.{IsShown};
ghost use Rattle.rp_report.specs.Words.{newline, spaced, spaced_key, spaced_bound, spaced_value, value_or_none, attempt_text, lease_text};

use rp_base::{
    CmdId, Key, Lease, NoMemory, Text, Value, push_bound, push_key, push_number, push_value,
    push_word,
};

/// Appends a number behind a space.
pub fn push_spaced(out: &mut Text, n: u64) -> Result<(), NoMemory>
    ensures ok { OnOk result (out.new ≡ out.old ++ spaced n) }
    ensures err { OnErr result (out.new ≡ out.old) }
{
    let word = format!(in out.alloc(); " {}", n)?;
    push_word(out, &word)
}

/// A number of up to 128 bits.
pub fn push_wide(out: &mut Text, n: u128) -> Result<(), NoMemory>
    ensures { OnOk result (out.new ≡ out.old ++ decimal n) }
{
    let digits = n.to_string(out.alloc())?;
    push_word(out, &digits)
}

/// Such a number behind a space.
pub fn push_spaced_wide(out: &mut Text, n: u128) -> Result<(), NoMemory>
    ensures { OnOk result (out.new ≡ out.old ++ spaced n) }
{
    push_word(out, " ")?;
    push_wide(out, n)
}

/// A word, and a number behind a space.
pub fn push_number_word(out: &mut Text, word: &str, n: u64) -> Result<(), NoMemory>
    ensures { OnOk result (out.new ≡ out.old ++ (word.now ++ spaced n)) }
{
    push_word(out, word)?;
    push_spaced(out, n)
}

/// A word, and two numbers, each behind a space.
pub fn push_numbers(out: &mut Text, word: &str, m: u64, n: u64) -> Result<(), NoMemory>
    ensures { OnOk result (out.new ≡ out.old ++ (word.now ++ spaced m ++ spaced n)) }
{
    push_number_word(out, word, m)?;
    push_spaced(out, n)
}

/// A word, a number behind a space, and the end of the line.
pub fn push_number_line(out: &mut Text, word: &str, n: u64) -> Result<(), NoMemory>
    ensures { OnOk result (out.new ≡ out.old ++ (word.now ++ spaced n ++ newline)) }
{
    push_number_word(out, word, n)?;
    push_word(out, "\n")
}

/// Appends a key behind a space.
pub fn push_spaced_key(out: &mut Text, key: Key) -> Result<(), NoMemory>
    ensures ok { OnOk result (out.new ≡ out.old ++ spaced_key key) }
    ensures err { OnErr result (out.new ≡ out.old) }
{
    let mut text = Text::new(out.alloc());
    push_word(&mut text, " ")?;
    push_key(&mut text, key)?;
    out.append(text)
}

/// A bound behind a space.
pub fn push_spaced_bound(out: &mut Text, bound: u128) -> Result<(), NoMemory>
    requires { IsShown bound }
    ensures { OnOk result (out.new ≡ out.old ++ spaced_bound bound) }
{
    push_word(out, " ")?;
    push_bound(out, bound)
}

/// A value behind a space.
pub fn push_spaced_value(out: &mut Text, value: &Value) -> Result<(), NoMemory>
    ensures { OnOk result (out.new ≡ out.old ++ spaced_value value.now) }
{
    push_word(out, " ")?;
    push_value(out, value)
}

/// Appends a value, or the word `none`.
pub fn push_value_or_none(out: &mut Text, value: &Option<Value>) -> Result<(), NoMemory>
    ensures ok { OnOk result (out.new ≡ out.old ++ value_or_none value.now) }
    ensures err { OnErr result (out.new ≡ out.old) }
{
    match value {
        Some(value) => push_value(out, value),
        None => push_word(out, "none"),
    }
}

/// The client and the command's number, then the attempt's.
pub fn push_attempt(out: &mut Text, id: CmdId) -> Result<(), NoMemory>
    ensures { OnOk result (out.new ≡ out.old ++ attempt_text id) }
{
    push_number(out, u64::from(id.client))?;
    push_word(out, ".")?;
    push_number(out, u64::from(id.seq))?;
    push_spaced(out, u64::from(id.attempt))
}

/// The lease's holder, its number, and the tick at which it expires.
pub fn push_lease(out: &mut Text, lease: Lease) -> Result<(), NoMemory>
    ensures { OnOk result (out.new ≡ out.old ++ lease_text lease) }
{
    push_number(out, u64::from(lease.holder.get()))?;
    push_spaced(out, lease.seq.get())?;
    push_spaced(out, lease.expires.get())
}
