//! The forms of a line.
ghost use Rattle.std.specs.Prelude.{◌≡◌, ◌≤◌};
ghost use Rattle.rp_script.specs.Forms.{cluster, send, admit, again, draw, publish, ask, transfer, flush, apply, cut, remove, restart, tick, deliver, peek, loss, settle, ending, form};

use crate::faults::{BadWord, LineKind, bad_word};
use crate::keywords::Keyword;
use crate::lines::ScriptLine;
use crate::readers::{
    any_number_at, client_at, end_at, key_at, node_at, number_at, range_at, seq_at,
};
use crate::requests::request;
use crate::words::Words;
use rp_base::ClientCounts;

/// `cluster N`
#[tactic(auto, unfolding(crate::specs::Forms::cluster))]
pub fn cluster(words: &mut Words) -> Result<ScriptLine, BadWord>
    ensures { result ≡ cluster words.old }
{
    let nodes = number_at(words, 2, 1, 5)?;
    end_at(words, 3)?;
    Ok(ScriptLine::Cluster { nodes: nodes as u8 })
}

/// `send N R C REQUEST`
#[tactic(auto, unfolding(crate::specs::Forms::send))]
fn send(words: &mut Words, nodes: u8) -> Result<ScriptLine, BadWord>
    requires { nodes ≤ 5 }
    ensures { result ≡ send nodes words.old }
{
    let node = node_at(words, 2, nodes)?;
    let range = range_at(words, 3)?;
    let client = client_at(words, 4)?;
    let request = request(words)?;
    Ok(ScriptLine::Send {
        node,
        range,
        client,
        request,
    })
}

/// `admit N R C REQUEST`
#[tactic(auto, unfolding(crate::specs::Forms::admit))]
fn admit(words: &mut Words, nodes: u8) -> Result<ScriptLine, BadWord>
    requires { nodes ≤ 5 }
    ensures { result ≡ admit nodes words.old }
{
    let node = node_at(words, 2, nodes)?;
    let range = range_at(words, 3)?;
    let client = client_at(words, 4)?;
    let request = request(words)?;
    Ok(ScriptLine::Admit {
        node,
        range,
        client,
        request,
    })
}

/// `again N R C S`
#[tactic(auto, unfolding(crate::specs::Forms::again))]
fn again(words: &mut Words, nodes: u8, commands: &ClientCounts) -> Result<ScriptLine, BadWord>
    requires { nodes ≤ 5 }
    ensures { result ≡ again nodes commands.now words.old }
{
    let node = node_at(words, 2, nodes)?;
    let range = range_at(words, 3)?;
    let client = client_at(words, 4)?;
    let seq = seq_at(words, 5, commands, client)?;
    end_at(words, 6)?;
    Ok(ScriptLine::Again {
        node,
        range,
        client,
        seq,
    })
}

/// `draw C S`
#[tactic(auto, unfolding(crate::specs::Forms::draw))]
fn draw(words: &mut Words, commands: &ClientCounts) -> Result<ScriptLine, BadWord>
    ensures { result ≡ draw commands.now words.old }
{
    let client = client_at(words, 2)?;
    let seq = seq_at(words, 3, commands, client)?;
    end_at(words, 4)?;
    Ok(ScriptLine::Draw { client, seq })
}

/// `publish C S`
#[tactic(auto, unfolding(crate::specs::Forms::publish))]
fn publish(words: &mut Words, commands: &ClientCounts) -> Result<ScriptLine, BadWord>
    ensures { result ≡ publish commands.now words.old }
{
    let client = client_at(words, 2)?;
    let seq = seq_at(words, 3, commands, client)?;
    end_at(words, 4)?;
    Ok(ScriptLine::Publish { client, seq })
}

/// `ask N R`
#[tactic(auto, unfolding(crate::specs::Forms::ask))]
fn ask(words: &mut Words, nodes: u8) -> Result<ScriptLine, BadWord>
    requires { nodes ≤ 5 }
    ensures { result ≡ ask nodes words.old }
{
    let node = node_at(words, 2, nodes)?;
    let range = range_at(words, 3)?;
    end_at(words, 4)?;
    Ok(ScriptLine::Ask { node, range })
}

/// `transfer N R M`
#[tactic(auto, unfolding(crate::specs::Forms::transfer))]
fn transfer(words: &mut Words, nodes: u8) -> Result<ScriptLine, BadWord>
    requires { nodes ≤ 5 }
    ensures { result ≡ transfer nodes words.old }
{
    let node = node_at(words, 2, nodes)?;
    let range = range_at(words, 3)?;
    let to = node_at(words, 4, nodes)?;
    end_at(words, 5)?;
    Ok(ScriptLine::Transfer { node, range, to })
}

/// `flush N R`
#[tactic(auto, unfolding(crate::specs::Forms::flush))]
fn flush(words: &mut Words, nodes: u8) -> Result<ScriptLine, BadWord>
    requires { nodes ≤ 5 }
    ensures { result ≡ flush nodes words.old }
{
    let node = node_at(words, 2, nodes)?;
    let range = range_at(words, 3)?;
    end_at(words, 4)?;
    Ok(ScriptLine::Flush { node, range })
}

/// `apply N R`
#[tactic(auto, unfolding(crate::specs::Forms::apply))]
fn apply(words: &mut Words, nodes: u8) -> Result<ScriptLine, BadWord>
    requires { nodes ≤ 5 }
    ensures { result ≡ apply nodes words.old }
{
    let node = node_at(words, 2, nodes)?;
    let range = range_at(words, 3)?;
    end_at(words, 4)?;
    Ok(ScriptLine::Apply { node, range })
}

/// `cut N R`
#[tactic(auto, unfolding(crate::specs::Forms::cut))]
fn cut(words: &mut Words, nodes: u8) -> Result<ScriptLine, BadWord>
    requires { nodes ≤ 5 }
    ensures { result ≡ cut nodes words.old }
{
    let node = node_at(words, 2, nodes)?;
    let range = range_at(words, 3)?;
    end_at(words, 4)?;
    Ok(ScriptLine::Cut { node, range })
}

/// `remove N R`
#[tactic(auto, unfolding(crate::specs::Forms::remove))]
fn remove(words: &mut Words, nodes: u8) -> Result<ScriptLine, BadWord>
    requires { nodes ≤ 5 }
    ensures { result ≡ remove nodes words.old }
{
    let node = node_at(words, 2, nodes)?;
    let range = range_at(words, 3)?;
    end_at(words, 4)?;
    Ok(ScriptLine::Remove { node, range })
}

/// `restart N`
#[tactic(auto, unfolding(crate::specs::Forms::restart))]
fn restart(words: &mut Words, nodes: u8) -> Result<ScriptLine, BadWord>
    requires { nodes ≤ 5 }
    ensures { result ≡ restart nodes words.old }
{
    let node = node_at(words, 2, nodes)?;
    end_at(words, 3)?;
    Ok(ScriptLine::Restart { node })
}

/// `tick N K`
#[tactic(auto, unfolding(crate::specs::Forms::tick))]
fn tick(words: &mut Words, nodes: u8) -> Result<ScriptLine, BadWord>
    requires { nodes ≤ 5 }
    ensures { result ≡ tick nodes words.old }
{
    let node = node_at(words, 2, nodes)?;
    let count = number_at(words, 3, 1, 10_000)?;
    end_at(words, 4)?;
    Ok(ScriptLine::Tick { node, count })
}

/// `deliver N I`
#[tactic(auto, unfolding(crate::specs::Forms::deliver))]
fn deliver(words: &mut Words, nodes: u8) -> Result<ScriptLine, BadWord>
    requires { nodes ≤ 5 }
    ensures { result ≡ deliver nodes words.old }
{
    let node = node_at(words, 2, nodes)?;
    let number = number_at(words, 3, 1, u64::MAX)?;
    end_at(words, 4)?;
    Ok(ScriptLine::Deliver { node, number })
}

/// `peek N R KEY`
#[tactic(auto, unfolding(crate::specs::Forms::peek))]
fn peek(words: &mut Words, nodes: u8) -> Result<ScriptLine, BadWord>
    requires { nodes ≤ 5 }
    ensures { result ≡ peek nodes words.old }
{
    let node = node_at(words, 2, nodes)?;
    let range = range_at(words, 3)?;
    let key = key_at(words, 4)?;
    end_at(words, 5)?;
    Ok(ScriptLine::Peek { node, range, key })
}

/// `loss P S`
#[tactic(auto, unfolding(crate::specs::Forms::loss))]
fn loss(words: &mut Words) -> Result<ScriptLine, BadWord>
    ensures { result ≡ loss words.old }
{
    let percent = number_at(words, 2, 0, 50)?;
    let salt = any_number_at(words, 3)?;
    end_at(words, 4)?;
    Ok(ScriptLine::Loss {
        percent: percent as u8,
        salt,
    })
}

/// `settle K`
#[tactic(auto, unfolding(crate::specs::Forms::settle))]
fn settle(words: &mut Words) -> Result<ScriptLine, BadWord>
    ensures { result ≡ settle words.old }
{
    let rounds = number_at(words, 2, 1, 10_000)?;
    end_at(words, 3)?;
    Ok(ScriptLine::Settle { rounds })
}

/// `end`
fn end(words: &mut Words) -> Result<ScriptLine, BadWord>
    ensures { result ≡ ending words.old }
{
    end_at(words, 2)?;
    Ok(ScriptLine::End)
}

/// Reads the words behind the first one of a line, given the number of nodes and how many commands
/// each client has.
#[tactic(auto, unfolding(crate::specs::Forms::form))]
pub fn form(
    keyword: Keyword,
    words: &mut Words,
    nodes: u8,
    commands: &ClientCounts,
) -> Result<ScriptLine, BadWord>
    requires { nodes ≤ 5 }
    ensures { result ≡ form keyword nodes commands.now words.old }
{
    match keyword {
        Keyword::Cluster => cluster(words),
        Keyword::Send => send(words, nodes),
        Keyword::Admit => admit(words, nodes),
        Keyword::Again => again(words, nodes, commands),
        Keyword::Draw => draw(words, commands),
        Keyword::Publish => publish(words, commands),
        Keyword::Ask => ask(words, nodes),
        Keyword::Transfer => transfer(words, nodes),
        Keyword::Flush => flush(words, nodes),
        Keyword::Apply => apply(words, nodes),
        Keyword::Cut => cut(words, nodes),
        Keyword::Remove => remove(words, nodes),
        Keyword::Restart => restart(words, nodes),
        Keyword::Tick => tick(words, nodes),
        Keyword::Deliver => deliver(words, nodes),
        Keyword::Peek => peek(words, nodes),
        Keyword::Loss => loss(words),
        Keyword::Settle => settle(words),
        Keyword::End => end(words),
        Keyword::Unknown => Err(bad_word(1, LineKind::UnknownWord)),
    }
}
