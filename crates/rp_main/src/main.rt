//! The program `rp`.
#![tactic(auto)]

use rp_clients::PlainGate;
use rp_outside::{StdSink, StdSource};
use rp_top::top_call;
use std::alloc::Global;
use std::process::ExitCode;
use std::rt::Env;
use std::{env, io};

/// The words behind the program's name.
fn words<R: Env + AllocGlobal>(rt: &R, alloc: Global) -> io::Result<Vec<String>> {
    let words = env::args(rt)?.skip(1).collect(alloc)?;
    Ok(words)
}

fn main(rt: HostRuntime) -> ExitCode {
    let words = match words(&rt, rt.alloc()) {
        Ok(words) => words,
        Err(e) if e.kind() == io::ErrorKind::OutOfMemory => return ExitCode::from(7),
        // Words that are no text are none of the program's.
        Err(_) => Vec::new(rt.alloc()),
    };
    let mut source = StdSource::new(rt.reader());
    let mut sink = StdSink::new(io::writer(&rt));
    let code = top_call(&rt, rt.alloc(), &words, &mut source, &mut sink, &PlainGate);
    ExitCode::from(code)
}
