//! Lines that are taken and refused.
use rp_base::{Key, NodeId, RangeId, Value};
use rp_request::Request;
use rp_script::{LineFault, LineKind, Script, ScriptLine};
use std::test::Fail;

/// What the first line of a script that is refused is refused for.
fn refusal(race: bool, lines: &[&str]) -> Option<(u32, LineKind)> {
    let mut script = Script::new(race);
    for line in lines {
        if let Err(LineFault::Refused { word, kind }) = script.take(line.as_bytes()) {
            return Some((word, kind));
        }
    }
    None
}

/// Whether this line behind `cluster 3` is refused so.
fn refuses(line: &str, word: u32, kind: LineKind) -> bool {
    refusal(false, &["cluster 3", line]) == Some((word, kind))
}

#[test]
fn a_line_is_taken(rt: HostRuntime) -> Result<(), Fail> {
    let node = NodeId::new(2).ok_or("2")?;
    let range = RangeId::new(7).ok_or("7")?;
    let key = Key::read(b"a").map_err(|_| "a")?;
    let send = ScriptLine::Send {
        node,
        range,
        client: 64,
        request: Request::Put {
            key,
            value: Value::Number(5),
        },
    };
    let mut script = Script::new(false);
    assert!(rt; script.take(b"cluster 3") == Ok(Some(ScriptLine::Cluster { nodes: 3 })));
    assert!(rt; script.take(b"# none") == Ok(None));
    assert!(rt; script.take(b"send 2 7 64 put a 5") == Ok(Some(send)));
    assert!(rt; script.finish() == Err(LineKind::NoEnd));
    Ok(())
}

#[test]
fn words_are_refused(rt: HostRuntime) {
    assert!(rt; refuses("restart 4", 2, LineKind::OutOfRange));
    assert!(rt; refuses("draw 65 1", 2, LineKind::OutOfRange));
    assert!(rt; refuses("again 1 0 1 1", 5, LineKind::NotSent));
    assert!(rt; refuses("send 1 0 1 wipe b a", 7, LineKind::BadSpan));
    assert!(rt; refuses("tick 1 18446744073709551616", 3, LineKind::OutOfRange));
}
