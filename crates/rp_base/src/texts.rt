//! Text that grows, and what is put at its end.
ghost use Rattle.std.specs.Prelude.{◌≡◌, List, [], ◌++◌, length, OnOk, OnErr, string_bytes};
ghost use Rattle.std.specs.Fmt.{decimal};

use crate::memory::NoMemory;
use std::alloc::Global;
use std::marker::Model;

/// Text that grows. Contracts see its bytes.
#[derive(Drop)]
pub struct Text {
    text: String,
}

impl Model for Text {
    ghost use Rattle.std.specs.Prelude.{List, ℕ, string_bytes};

    ghost Value = { List ℕ };

    ghost view = { λ t. string_bytes t.text };
}

impl Text {
    /// The empty text. It takes no memory.
    pub fn new(alloc: Global) -> Text
        ensures { result ≡ [] }
    {
        Text {
            text: String::new(alloc),
        }
    }

    /// The text of a string. It takes no memory.
    pub fn from_string(text: String) -> Text
        ensures { result ≡ string_bytes text }
    {
        Text { text }
    }

    /// The text as a string. It takes no memory.
    pub fn into_string(self) -> String
        ensures { string_bytes result ≡ self }
    {
        let Text { text } = self;
        text
    }

    /// The UTF-8 bytes.
    pub fn as_bytes(&self) -> &[u8]
        ensures { result.now ≡ self.now }
    {
        self.text.as_bytes()
    }

    /// The text as Rust has it.
    pub fn as_str(&self) -> &str
        ensures { result.now ≡ self.now }
    {
        self.text.as_str()
    }

    /// How many bytes it has.
    pub fn len(&self) -> usize
        ensures { result ≡ length self.now }
    {
        self.text.len()
    }

    /// Where its memory comes from.
    pub fn alloc(&self) -> Global {
        *self.text.allocator()
    }

    /// Puts a text at the end. Behind the empty text it takes no memory.
    pub fn append(&mut self, more: Text) -> Result<(), NoMemory>
        ensures ok { OnOk result (self.new ≡ self.old ++ more) }
        ensures err { OnErr result (self.new ≡ self.old) }
    {
        if self.text.is_empty() {
            *self = more;
            return Ok(());
        }
        self.text.push_str(more.as_str())?;
        Ok(())
    }
}

/// Appends the word.
pub fn push_word(out: &mut Text, word: &str) -> Result<(), NoMemory>
    ensures ok { OnOk result (out.new ≡ out.old ++ word.now) }
    ensures err { OnErr result (out.new ≡ out.old) }
{
    out.text.push_str(word)?;
    Ok(())
}

/// Appends the shortest decimal of a number.
pub fn push_number(out: &mut Text, n: u64) -> Result<(), NoMemory>
    ensures ok { OnOk result (out.new ≡ out.old ++ decimal n) }
    ensures err { OnErr result (out.new ≡ out.old) }
{
    let digits = n.to_string(*out.text.allocator())?;
    out.text.push_str(&digits)?;
    Ok(())
}
