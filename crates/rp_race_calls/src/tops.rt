//! The top call, over sources and sinks without faults.
ghost use Rattle.std.specs.Prelude.{◌≤◌};

use rp_base::{Bytes, Seq};
use rp_clients::Gate;
use rp_outside::{SoundSink, SoundSource};
use rp_top::top_call;
use std::alloc::Global;
use std::sync::Wait;
use std::test::Fail;
use std::thread::Threads;

/// What the program answered, and what it wrote.
#[derive(Drop)]
pub struct Ended {
    pub status: u8,
    sink: SoundSink,
}

impl Ended {
    /// Whether the program ended so, and wrote just this.
    pub fn is(&self, status: u8, output: &[u8]) -> bool {
        self.status == status && self.sink.bytes() == Some(output)
    }

    /// What was written, where it is a text.
    pub fn text(&self) -> Option<&str> {
        std::str::from_utf8(self.sink.bytes()?).ok()
    }
}

pub fn bytes(alloc: Global, text: &[u8]) -> Result<Bytes, Fail> {
    Ok(Seq::from_vec(text.to_vec(alloc)?))
}

/// The words of a text, which spaces part.
pub fn words(alloc: Global, text: &str) -> Result<Vec<String>, Fail> {
    let mut words = Vec::new(alloc);
    for word in text.split_whitespace() {
        words.push(String::from_str(alloc, word)?)?;
    }
    Ok(words)
}

/// Calls the program with these words on this script, with ample memory and no fault.
pub fn call<R: Threads + Wait + Sync, G: Gate + Sync>(
    rt: &R,
    alloc: Global,
    text: &str,
    script: &[u8],
    gate: &G,
) -> Result<Ended, Fail> {
    let words = words(alloc, text)?;
    let mut source = SoundSource::new(bytes(alloc, script)?, 4096);
    let mut sink = SoundSink::new(alloc, 64);
    sink.make_room(4096)?;
    let status = top_call(rt, alloc, &words, &mut source, &mut sink, gate);
    Ok(Ended { status, sink })
}
