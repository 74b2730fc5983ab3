//! Scripts that are read from bytes.
use rp_base::{Seq, Which};
use rp_script::{NumberedLine, ScriptFault, ScriptLine, ScriptReader, ScriptStop, read_lines};
use std::test::Fail;

/// Every form of line, and two lines that are skipped.
const EACH_FORM: &str = "cluster 3\nsend 1 0 1 put a 5\nadmit 2 7 1 del b\nagain 2 7 1 2\n\
draw 1 1\npublish 1 2\nask 2 7\ntransfer 2 7 3\n\n# none\nflush 2 7\napply 2 7\ncut 2 7\n\
remove 2 7\nrestart 2\ntick 2 10000\ndeliver 2 18446744073709551615\npeek 2 7 b\nloss 50 0\n\
settle 1\nsend 1 0 64 cput a none 5\nsend 1 0 64 wipe a ~\nsend 1 0 64 move a b 5\nend";

/// What ends the reading.
fn fault_of(read: &Result<Seq<NumberedLine>, ScriptStop>) -> Option<ScriptFault> {
    match read {
        Err(ScriptStop::Judged { fault }) => Some(*fault),
        _ => None,
    }
}

#[test]
fn each_form_is_read(rt: HostRuntime) -> Result<(), Fail> {
    let lines = read_lines(rt.alloc(), false, EACH_FORM.as_bytes()).map_err(|_| "each form")?;
    assert!(rt; lines.len() == 22);
    assert!(rt; lines.as_slice()[21].number == 24);
    Ok(())
}

#[test]
fn pieces_that_cut_lines(rt: HostRuntime) -> Result<(), Fail> {
    let lines = ScriptReader::new(rt.alloc(), false)
        .feed(b"# one\n\nclus")
        .map_err(|_| "first")?
        .feed(b"ter 1\nend")
        .map_err(|_| "second")?
        .finish()
        .map_err(|_| "end")?;
    assert!(rt; lines.len() == 2);
    assert!(rt; lines.as_slice()[0].line == ScriptLine::Cluster { nodes: 1 });
    Ok(())
}

#[test]
fn a_line_of_257_bytes(rt: HostRuntime) {
    let read = read_lines(rt.alloc(), false, &[b'#'; 257]);
    let which = Which::LineBytes;
    assert!(rt; fault_of(&read) == Some(ScriptFault::Limit { which, count: 257 }));
}
