//! What the parts of a value of JSON are.
ghost use Rattle.std.specs.Prelude.{◌≡◌, ◌≤◌, ◌-◌, ◌^◌, map, ⊤, IfOk, MatchOption, MatchResult, Some, None};
ghost use Rattle.rp_base.specs.Keys.{IsShown};
ghost use Rattle.rp_base.specs.ShortTexts.{text_of};
ghost use Rattle.serde_json.specs.View.{view};
ghost use Rattle.rp_reread.specs.Readers.{Tells};
ghost use Rattle.rp_reread.specs.Forms.{sized, has_members, elements, up_to, whole, any_whole, node_of, whole_in, text_in, list_in, value_of, key_of_data, bound_of};

use crate::faults::NotRead;
use crate::words::{bound_in, key_in, text_in as short_text};
use rp_base::{Key, NodeId, Value as Held};
use serde_json::Value;

/// Whether the value is an object with so many members.
fn has_members(value: &Value, n: usize) -> bool
    ensures { result ≡ has_members n (view value.now) }
{
    match value.as_object() {
        Some(members) => members.len() == n,
        None => false,
    }
}

/// An object with so many members.
pub(crate) fn sized(value: &Value, n: usize) -> Result<(), NotRead>
    ensures { Tells result (sized n (view value.now)) }
{
    if has_members(value, n) {
        Ok(())
    } else {
        Err(NotRead)
    }
}

/// The items of a list.
pub(crate) fn elements(value: &Value) -> Result<&Vec<Value>, NotRead>
    ensures { MatchResult result (λ list. elements (view value.now) ≡ Some (map view list.now.items))
        (λ _. elements (view value.now) ≡ None) }
{
    match value.as_array() {
        Some(list) => Ok(list),
        None => Err(NotRead),
    }
}

/// A whole number up to this one.
#[tactic(auto, unfolding(crate::specs::Forms::whole))]
pub(crate) fn whole(value: &Value, high: u64) -> Result<u64, NotRead>
    ensures whole { Tells result (whole high (view value.now)) }
    ensures to { IfOk result (λ n. n ≤ high) }
{
    match value.as_u64() {
        Some(number) if number <= high => Ok(number),
        _ => Err(NotRead),
    }
}

/// A node.
#[tactic(auto, unfolding(crate::specs::Forms::node_of))]
pub(crate) fn node(value: &Value) -> Result<NodeId, NotRead>
    ensures { Tells result (node_of (view value.now)) }
{
    let number = whole(value, 5)?;
    match NodeId::new(number as u8) {
        Some(node) => Ok(node),
        None => Err(NotRead),
    }
}

/// The whole number at a key of an object.
pub(crate) fn whole_in(value: &Value, key: &str, high: u64) -> Result<u64, NotRead>
    ensures whole { Tells result (whole_in key.now high (view value.now)) }
    ensures to { IfOk result (λ n. n ≤ high) }
{
    match value.get(key) {
        Some(member) => whole(member, high),
        None => Err(NotRead),
    }
}

/// The text at a key of an object.
pub(crate) fn text_in<'v>(value: &'v Value, key: &str) -> Result<&'v str, NotRead>
    ensures { MatchResult result (λ text. text_in key.now (view value.now) ≡ Some text.now)
        (λ _. text_in key.now (view value.now) ≡ None) }
{
    let Some(member) = value.get(key) else {
        return Err(NotRead);
    };
    match member.as_str() {
        Some(text) => Ok(text),
        None => Err(NotRead),
    }
}

/// The list at a key of an object.
pub(crate) fn list_in<'v>(value: &'v Value, key: &str) -> Result<&'v Vec<Value>, NotRead>
    ensures { MatchResult result (λ list. list_in key.now (view value.now) ≡ Some (map view list.now.items))
        (λ _. list_in key.now (view value.now) ≡ None) }
{
    match value.get(key) {
        Some(member) => elements(member),
        None => Err(NotRead),
    }
}

/// A key.
pub(crate) fn key(value: &Value) -> Result<Key, NotRead>
    ensures { Tells result (key_of_data (view value.now)) }
{
    match value.as_str() {
        Some(text) => key_in(text.as_bytes()),
        None => Err(NotRead),
    }
}

/// The bound at a key of an object.
pub(crate) fn bound(value: &Value, key: &str) -> Result<u128, NotRead>
    ensures { Tells result (bound_of key.now (view value.now)) }
{
    let text = text_in(value, key)?;
    bound_in(text.as_bytes())
}

/// A value of a table: a number, or a text as it is.
pub(crate) fn held(value: &Value) -> Result<Held, NotRead>
    ensures { Tells result (value_of (view value.now)) }
{
    match value {
        Value::String(text) => short_text(text.as_bytes()),
        Value::Number(number) => match number.as_u64() {
            Some(number) => Ok(Held::Number(number)),
            None => Err(NotRead),
        },
        Value::Null | Value::Bool(_) | Value::Array(_) | Value::Object(_) => Err(NotRead),
    }
}
