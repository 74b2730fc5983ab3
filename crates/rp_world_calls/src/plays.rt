//! A line that has nothing to do.
ghost use Rattle.std.specs.Prelude.{◌≡◌};
ghost use Rattle.rp_lines.specs.Players.{first_player};

use crate::samples::{first, one};
use rp_request::Note;
use rp_script::ScriptLine;
use rp_world::World;
use std::test::Fail;

/// The first line behind the one that names one node: nothing is committed that could be applied.
#[tactic(auto, using(crate::proofs::Playing::first_line))]
fn applies(world: &mut World) -> bool
    requires { world.old ≡ first_player 1 }
{
    let line = ScriptLine::Apply {
        node: one(),
        range: first(),
    };
    world.play(2, &line).is_ok()
}

/// Whether this is told alone: there was nothing to do on line 2.
fn tells_nothing(notes: &[Note]) -> bool {
    match notes {
        [note] => note.line == 2 && note.text.as_str() == "nothing",
        _ => false,
    }
}

#[test]
fn a_line_is_told(rt: HostRuntime) -> Result<(), Fail> {
    let mut world = World::start(rt.alloc(), 1)?;
    assert!(rt; applies(&mut world) && tells_nothing(world.notes().as_slice()));
    Ok(())
}
