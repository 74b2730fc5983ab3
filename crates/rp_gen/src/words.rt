//! The words of a generated script.
ghost use Rattle.std.specs.Prelude.{◌≡◌, ◌++◌, OnOk, codes};
ghost use Rattle.std.specs.Fmt.{decimal};
ghost use Rattle.rp_gen.specs.Words.{key_word, settle_line, send_words, split_lines, transfer_lines, keyed_words, move_words};

use rp_base::{NoMemory, NodeId, Text, push_number, push_word};

/// Appends a word and a number.
pub(crate) fn push_counted(out: &mut Text, word: &str, n: u64) -> Result<(), NoMemory>
    ensures { OnOk result (out.new ≡ out.old ++ (word.now ++ decimal n)) }
{
    push_word(out, word)?;
    push_number(out, n)
}

/// Appends the key of a number below 1000.
pub(crate) fn push_key(out: &mut Text, n: u32) -> Result<(), NoMemory>
    ensures { OnOk result (out.new ≡ out.old ++ key_word n) }
{
    push_word(out, "k")?;
    if n < 10 {
        push_word(out, "00")?;
    } else if n < 100 {
        push_word(out, "0")?;
    }
    push_number(out, u64::from(n))
}

/// Appends a line of so many rounds.
pub(crate) fn push_settle(out: &mut Text, rounds: u64) -> Result<(), NoMemory>
    ensures { OnOk result (out.new ≡ out.old ++ settle_line rounds) }
{
    push_counted(out, "settle ", rounds)?;
    push_word(out, "\n")
}

/// Appends the words of a command up to its request.
pub(crate) fn push_send(
    out: &mut Text,
    node: NodeId,
    range: u32,
    client: u64,
) -> Result<(), NoMemory>
    ensures { OnOk result (out.new ≡ out.old ++ send_words node range client) }
{
    push_counted(out, "send ", u64::from(node.get()))?;
    push_counted(out, " ", u64::from(range))?;
    push_counted(out, " ", client)?;
    push_word(out, " ")
}

/// Appends a split, between rounds.
pub(crate) fn push_split(out: &mut Text, node: NodeId, range: u32, key: u32) -> Result<(), NoMemory>
    ensures { OnOk result (out.new ≡ out.old ++ split_lines node range key) }
{
    push_settle(out, 30)?;
    push_send(out, node, range, 1)?;
    push_word(out, "split ")?;
    push_key(out, key)?;
    push_word(out, "\n")?;
    push_settle(out, 30)
}

/// Appends the move of a lease, and rounds.
pub(crate) fn push_transfer(
    out: &mut Text,
    node: NodeId,
    range: u32,
    to: NodeId,
) -> Result<(), NoMemory>
    ensures { OnOk result (out.new ≡ out.old ++ transfer_lines node range to) }
{
    push_counted(out, "transfer ", u64::from(node.get()))?;
    push_counted(out, " ", u64::from(range))?;
    push_counted(out, " ", u64::from(to.get()))?;
    push_word(out, "\n")?;
    push_settle(out, 30)
}

/// Appends a request on a key with one number.
pub(crate) fn push_keyed(
    out: &mut Text,
    verb: &str,
    key: u32,
    between: &str,
    number: u32,
) -> Result<(), NoMemory>
    ensures { OnOk result
        (out.new ≡ out.old ++ keyed_words verb.now key between.now number) }
{
    push_word(out, verb)?;
    push_key(out, key)?;
    push_counted(out, between, u64::from(number))
}

/// Appends the move of an amount from a key to another.
pub(crate) fn push_move(out: &mut Text, from: u32, to: u32, by: u32) -> Result<(), NoMemory>
    ensures { OnOk result (out.new ≡ out.old ++ move_words from to by) }
{
    push_word(out, "move ")?;
    push_key(out, from)?;
    push_word(out, " ")?;
    push_key(out, to)?;
    push_counted(out, " ", u64::from(by))
}
