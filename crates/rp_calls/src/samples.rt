//! Values that several tests use.
use rp_base::{CmdId, Key, ShortText, Value};
use std::test::Fail;
use std::thread::{Threads, join};

/// The key that a text spells.
pub fn key(text: &str) -> Result<Key, Fail> {
    Ok(Key::read(text.as_bytes()).ok().ok_or("a key")?)
}

/// A value that is this text.
pub fn text(text: &str) -> Result<Value, Fail> {
    let text = ShortText::read(text.as_bytes()).ok().ok_or("a text")?;
    Ok(Value::Text(text))
}

/// The first attempt of client 1's command with this number.
pub fn attempt(number: u32) -> CmdId {
    CmdId {
        client: 1,
        seq: number,
        attempt: 1,
    }
}

/// A value that went to a thread and came back.
pub fn passed<T: Send + Drop>(rt: &impl Threads, value: T) -> T {
    let (value, ()) = join(rt, move || value, || ());
    value
}
