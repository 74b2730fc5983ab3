//! Scripts and words of which no race is played.
use crate::tops::call;
use rp_clients::PlainGate;
use std::alloc::Global;
use std::test::Fail;

const USAGE: &str =
    "usage: rp run [--form F] | rp race [--workers W] [--loss P] [--salt S] [--quota U] [--form F] | rp gen NUMBER SIZE\n";

#[test]
fn lines_that_only_a_run_has(rt: HostRuntime) -> Result<(), Fail> {
    for script in [
        "cluster 1\ntick 1 1\nend\n",
        "cluster 1\nadmit 1 0 1 put a 5\nend\n",
        "cluster 1\nagain 1 0 1 1\nend\n",
        "cluster 1\ndraw 1 1\nend\n",
        "cluster 1\npublish 1 1\nend\n",
        "cluster 1\nask 1 0\nend\n",
        "cluster 1\nflush 1 0\nend\n",
        "cluster 1\napply 1 0\nend\n",
        "cluster 1\ncut 1 0\nend\n",
        "cluster 1\nremove 1 0\nend\n",
        "cluster 1\nrestart 1\nend\n",
        "cluster 1\ndeliver 1 1\nend\n",
        "cluster 1\npeek 1 0 a\nend\n",
        "cluster 1\nloss 1 1\nend\n",
        "cluster 1\nsettle 1\nend\n",
    ] {
        let ended = call(&rt, rt.alloc(), "race", script.as_bytes(), &PlainGate)?;
        assert!(rt; ended.is(3, b"refused 2 1 not-in-race\n"));
    }
    Ok(())
}

#[test]
fn scripts_that_are_refused(rt: HostRuntime) -> Result<(), Fail> {
    for (script, output) in [
        ("", "refused 1 0 no-cluster\n"),
        ("cluster 1\n", "refused 2 0 no-end\n"),
        ("cluster 1\nrace\nend\n", "refused 2 1 unknown-word\n"),
        (
            "cluster 1\nsend 2 0 1 del k\n",
            "refused 2 2 out-of-range\n",
        ),
        ("cluster 1\ntransfer 1 0\n", "refused 2 4 missing-word\n"),
    ] {
        let ended = call(&rt, rt.alloc(), "race", script.as_bytes(), &PlainGate)?;
        assert!(rt; ended.is(3, output.as_bytes()));
    }
    Ok(())
}

/// A cluster of one node and so many lines.
fn script(alloc: Global, line: &str, count: u32) -> Result<Vec<u8>, Fail> {
    let mut script = b"cluster 1\n".to_vec(alloc)?;
    for _ in 0..count {
        script.extend_from_slice(line.as_bytes())?;
    }
    Ok(script)
}

#[test]
fn sends_past_the_limit(rt: HostRuntime) -> Result<(), Fail> {
    let mut script = script(rt.alloc(), "send 1 0 1 add a 1\n", 4096)?;
    script.extend_from_slice(b"send\n")?;
    let ended = call(&rt, rt.alloc(), "race", &script, &PlainGate)?;
    assert!(rt; ended.is(4, b"limit commands 4097\n"));
    Ok(())
}

#[test]
fn words_outside_the_table(rt: HostRuntime) -> Result<(), Fail> {
    for words in [
        "race --workers",
        "race --workers 0",
        "race --workers 9",
        "race --workers two",
        "race --workers 2 --workers 2",
        "race --loss 51",
        "race --loss=-1",
        "race --salt 18446744073709551616",
        "race --quota 0",
        "race --quota 65537",
        "race --form list",
        "race --turns 5",
        "race race",
        "race --",
        "race --help",
        "run --workers 2",
    ] {
        let ended = call(&rt, rt.alloc(), words, b"cluster 1\nend\n", &PlainGate)?;
        assert!(rt; ended.is(2, USAGE.as_bytes()));
    }
    Ok(())
}
