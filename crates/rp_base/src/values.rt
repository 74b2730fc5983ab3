//! Values: numbers and texts, which a key of a table maps to.
ghost use Rattle.std.specs.Prelude.{◌≡◌, ◌∷◌, ◌++◌, OnOk, OnErr};
ghost use Rattle.rp_base.specs.Values.{value_text};

use crate::memory::NoMemory;
use crate::short_texts::ShortText;
use crate::texts::{Text, push_number, push_word};

/// What a key of a table maps to. The number 5 and the text `5` are not equal.
#[derive(Clone, Copy, Debug, PartialEq, Eq)]
pub enum Value {
    Number(u64),
    Text(ShortText),
}

/// Appends an apostrophe and the text's bytes.
fn push_quoted(out: &mut Text, text: &ShortText) -> Result<(), NoMemory>
    ensures ok { OnOk result (out.new ≡ out.old ++ 39 ∷ text.now) }
    ensures err { OnErr result (out.new ≡ out.old) }
{
    let word = format!(in out.alloc(); "'{}", text.as_str())?;
    push_word(out, &word)
}

/// Appends the value as it is spelled: a number's shortest decimal, or an apostrophe and the text.
pub fn push_value(out: &mut Text, value: &Value) -> Result<(), NoMemory>
    ensures ok { OnOk result (out.new ≡ out.old ++ value_text value.now) }
    ensures err { OnErr result (out.new ≡ out.old) }
{
    match value {
        Value::Number(number) => push_number(out, *number),
        Value::Text(text) => push_quoted(out, text),
    }
}
