//! The report as JSON.
ghost use Rattle.std.specs.Prelude.{◌≡◌, ◌++◌, true, OnOk, OnErr, IfOk, string_bytes};
ghost use Rattle.serde_json.specs.Events.{SendsValue};
ghost use Rattle.rp_report.specs.Shown.{IsShownView};
ghost use Rattle.rp_report.specs.ShownTests.{view_is_shown};
ghost use Rattle.rp_report.specs.Json.{view_value, json_object, json_report};

use crate::json_objects::send_view;
use crate::views::View;
use rp_base::{NoMemory, Text, push_word};
use serde::{Described, Serialize, Serializer};
use std::alloc::Global;

/// A view that is sent: each of its bounds is one that can be shown.
#[derive(Drop)]
struct Sent<'a> {
    view: &'a View,
    alloc: Global,
    ghost shown: { view_is_shown view.now ≡ true },
}

impl Described for Sent<'_> {
    ghost writes = { λ sent. SendsValue (view_value sent.view.now) };
}

impl Serialize for Sent<'_> {
    fn serialize<S: Serializer>(&self, out: &mut S) -> Result<(), S::Error> {
        send_view(self.alloc, out, self.view)
    }
}

/// The compact object.
fn object_text(alloc: Global, view: &View) -> Result<String, NoMemory>
    requires { IsShownView view.now }
    ensures { IfOk result (λ text. string_bytes text ≡ json_object view.now) }
{
    let sent = Sent { view, alloc };
    match serde_json::to_string(alloc, &sent) {
        Ok(text) => Ok(text),
        Err(_) => Err(NoMemory),
    }
}

/// Appends the report as JSON, one compact object and a newline, or nothing. Keys stand in the order
/// of their bytes; indexes and counts are numbers, spelled in full. Each bound of the view is the
/// least, the greatest, or a key.
pub fn write_json(view: &View, out: &mut Text) -> Result<(), NoMemory>
    requires { IsShownView view.now }
    ensures ok { OnOk result (out.new ≡ out.old ++ json_report view.now) }
    ensures err { OnErr result (out.new ≡ out.old) }
{
    let mut text = Text::from_string(object_text(out.alloc(), view)?);
    push_word(&mut text, "\n")?;
    out.append(text)
}
