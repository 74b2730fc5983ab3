//! The top calls: worked scripts, refusals, words, and faults of the source and the sink.
ghost use Rattle.std.specs.Prelude.{◌≤◌};

use crate::scripts::{
    A_TEXT, A_TEXT_SHOWN, CONDITIONS, CONDITIONS_SHOWN, END_OF_THE_TYPE, END_OF_THE_TYPE_SHOWN,
    FULL, FULL_SHOWN, NO_LINE, NO_LINE_JSON, NO_LINE_SHOWN, NOTES, NOTES_SHOWN, ONE_PUT,
    ONE_PUT_COUNTED, ONE_PUT_SHOWN, TWO_CLIENTS, TWO_CLIENTS_SHOWN, TWO_NAMES, TWO_NAMES_SHOWN,
    WIPES, WIPES_SHOWN,
};
use rp_base::{Bytes, Seq};
use rp_clients::PlainGate;
use rp_outside::{MemorySink, MemorySource, SoundSink, SoundSource};
use rp_top::{Form, Status, run_call, top_call};
use std::alloc::Global;
use std::sync::Wait;
use std::test::Fail;
use std::thread::Threads;

const USAGE: &str =
    "usage: rp run [--form F] | rp race [--workers W] [--loss P] [--salt S] [--quota U] [--form F] | rp gen NUMBER SIZE\n";

fn bytes(alloc: Global, text: &[u8]) -> Result<Bytes, Fail> {
    Ok(Seq::from_vec(text.to_vec(alloc)?))
}

/// The words of a text, which spaces part.
fn words(alloc: Global, text: &str) -> Result<Vec<String>, Fail> {
    let mut words = Vec::new(alloc);
    for word in text.split_whitespace() {
        words.push(String::from_str(alloc, word)?)?;
    }
    Ok(words)
}

fn is_held(sink: &SoundSink, text: &[u8]) -> bool {
    match sink.bytes() {
        Some(held) => held == text,
        None => false,
    }
}

/// Whether the words and the script give this status and this output, with ample memory and no
/// fault.
fn gives<R: Threads + Wait + Sync>(
    rt: &R,
    alloc: Global,
    text: &str,
    script: &[u8],
    status: u8,
    output: &[u8],
) -> Result<bool, Fail> {
    let words = words(alloc, text)?;
    let mut source = SoundSource::new(bytes(alloc, script)?, 7);
    let mut sink = SoundSink::new(alloc, 64);
    sink.make_room(4096)?;
    let code = top_call(rt, alloc, &words, &mut source, &mut sink, &PlainGate);
    Ok(code == status && is_held(&sink, output))
}

#[test]
fn worked_scripts(rt: HostRuntime) -> Result<(), Fail> {
    for (script, report) in [
        (ONE_PUT, ONE_PUT_SHOWN),
        (END_OF_THE_TYPE, END_OF_THE_TYPE_SHOWN),
        (TWO_NAMES, TWO_NAMES_SHOWN),
        (A_TEXT, A_TEXT_SHOWN),
        (CONDITIONS, CONDITIONS_SHOWN),
        (WIPES, WIPES_SHOWN),
        (FULL, FULL_SHOWN),
        (TWO_CLIENTS, TWO_CLIENTS_SHOWN),
        (NO_LINE, NO_LINE_SHOWN),
        (NOTES, NOTES_SHOWN),
    ] {
        let (script, report) = (script.as_bytes(), report.as_bytes());
        assert!(rt; gives(&rt, rt.alloc(), "run", script, 0, report)?);
    }
    Ok(())
}

#[test]
fn words_of_the_program(rt: HostRuntime) -> Result<(), Fail> {
    for (words, status, output) in [
        ("run --form text", 0, ONE_PUT_SHOWN),
        ("run --form=text", 0, ONE_PUT_SHOWN),
        ("run --form summary", 0, ONE_PUT_COUNTED),
        ("run --form=summary", 0, ONE_PUT_COUNTED),
        ("", 2, USAGE),
        ("run run", 2, USAGE),
        ("run --form", 2, USAGE),
        ("run --form=list", 2, USAGE),
        ("race", 3, "refused 3 1 not-in-race\n"),
        ("race --workers 9", 2, USAGE),
        ("gen 7 0", 2, USAGE),
        ("gen 7 20001", 2, USAGE),
    ] {
        assert!(rt;
            gives(
                &rt,
                rt.alloc(),
                words,
                ONE_PUT.as_bytes(),
                status,
                output.as_bytes()
            )?
        );
    }
    Ok(())
}

#[test]
fn a_report_as_json(rt: HostRuntime) -> Result<(), Fail> {
    let (script, report) = (NO_LINE.as_bytes(), NO_LINE_JSON.as_bytes());
    assert!(rt; gives(&rt, rt.alloc(), "run --form=json", script, 0, report)?);
    Ok(())
}

#[test]
fn scripts_that_are_refused(rt: HostRuntime) -> Result<(), Fail> {
    for (script, output) in [
        ("", "refused 1 0 no-cluster\n"),
        ("\nend\n", "refused 2 1 no-cluster\n"),
        ("cluster 1\n", "refused 2 0 no-end\n"),
        ("cluster 6\n", "refused 1 2 out-of-range\n"),
        ("cluster 1\nsend 1 0 1 pu", "refused 2 5 unknown-word\n"),
        (
            "cluster 1\nsend 1 0 1 split\n",
            "refused 2 6 missing-word\n",
        ),
        (
            "cluster 1\nsend 2 0 1 split k\n",
            "refused 2 2 out-of-range\n",
        ),
        (
            "cluster 1\nadmit 1 0 1 split k k\n",
            "refused 2 7 extra-word\n",
        ),
        ("cluster 1\nsettle 0\n", "refused 2 2 out-of-range\n"),
    ] {
        assert!(rt;
            gives(
                &rt,
                rt.alloc(),
                "run",
                script.as_bytes(),
                3,
                output.as_bytes()
            )?
        );
    }
    Ok(())
}

#[test]
fn scripts_past_a_limit(rt: HostRuntime) -> Result<(), Fail> {
    let lines = vec![in rt.alloc(); b'\n'; 65537]?;
    assert!(rt;
        gives(
            &rt,
            rt.alloc(),
            "run",
            &[b'#'; 257],
            4,
            b"limit line-bytes 257\n"
        )?
    );
    assert!(rt; gives(&rt, rt.alloc(), "run", &lines, 4, b"limit lines 65537\n")?);
    Ok(())
}

/// A source whose third call fails leaves the sink as it was.
fn reading_fails(alloc: Global, source: &mut MemorySource, sink: &mut SoundSink) -> bool {
    let status = run_call(alloc, source, sink, Form::Text);
    status == Status::ReadFault && status.code() == 5 && is_held(sink, b"".as_slice())
}

#[test]
fn a_source_whose_third_call_fails(rt: HostRuntime) -> Result<(), Fail> {
    let fails = Seq::from_vec([3].to_vec(rt.alloc())?);
    let script = bytes(rt.alloc(), ONE_PUT.as_bytes())?;
    let mut sink = SoundSink::new(rt.alloc(), 64);
    sink.make_room(4096)?;
    let mut source = MemorySource::new(script, 4, fails);
    assert!(rt; reading_fails(rt.alloc(), &mut source, &mut sink));
    Ok(())
}

/// What a sink of pieces of 40 bytes holds when its second call fails.
const FORTY: &str = "nodes 1\nreply 1.1 1 ok none\nrange 0 ^ ~ ";

/// A sink whose second call fails holds what the first one wrote.
fn writing_fails(alloc: Global, source: &mut SoundSource, sink: &mut MemorySink) -> bool {
    let status = run_call(alloc, source, sink, Form::Text);
    status == Status::WriteFault && status.code() == 6 && sink.bytes() == FORTY.as_bytes()
}

#[test]
fn a_sink_whose_second_call_fails(rt: HostRuntime) -> Result<(), Fail> {
    let fails = Seq::from_vec([2].to_vec(rt.alloc())?);
    let script = bytes(rt.alloc(), ONE_PUT.as_bytes())?;
    let mut sink = MemorySink::new(rt.alloc(), 40, fails);
    sink.make_room(4096)?;
    let mut source = SoundSource::new(script, 4096);
    assert!(rt; writing_fails(rt.alloc(), &mut source, &mut sink));
    Ok(())
}
