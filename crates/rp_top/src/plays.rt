//! The play of a script that was read whole, and what its world shows.
ghost use Rattle.std.specs.Prelude.{◌≡◌, ◌≢◌, ◌≤◌, ℕ, Err, Ok, length, IfOk};
ghost use Rattle.rp_events.specs.Lawful.{IsReached};
ghost use Rattle.rp_lawful.specs.Playable.{IsFront};
ghost use Rattle.rp_lines.specs.Players.{first_player};
ghost use Rattle.rp_lines.specs.Scripts.{played_all};
ghost use Rattle.rp_lines.specs.Views.{IsViewOf};
ghost use Rattle.rp_script.specs.Bounds.{IsScript};
ghost use Rattle.rp_top.specs.Answers.{IsOutput};
ghost use Rattle.rp_top.specs.Gives.{Gives, stop_by};
ghost use Rattle.rp_racelines.specs.Rules.{nodes_in};
ghost use Rattle.rp_top.specs.Scripts.{behind_first, by_play, play_of};
ghost use Rattle.rp_world.specs.Plays.{Does};

use crate::outputs::written;
use crate::stops::Stop;
use rp_base::{NoMemory, Text};
use rp_chronicle::view;
use rp_report::View;
use rp_script::{NumberedLine, ScriptFault, ScriptLine};
use rp_words::Form;
use rp_world::{PlayFault, World};
use std::alloc::Global;

/// How many nodes the first line names.
pub fn nodes_named(lines: &[NumberedLine]) -> u8
    ensures { result ≡ nodes_in lines.now }
{
    match lines {
        [first, ..] => match first.line {
            ScriptLine::Cluster { nodes } => nodes,
            _ => 0,
        },
        [] => 0,
    }
}

/// The lines behind the first.
fn behind_first(lines: &[NumberedLine]) -> &[NumberedLine]
    ensures { result.now ≡ behind_first lines.now }
{
    match lines {
        [_, rest @ ..] => rest,
        [] => lines,
    }
}

/// Plays lines one after another, from the nodes' start.
fn play_all(world: &mut World, nodes: u8, lines: &[NumberedLine]) -> Result<(), PlayFault>
    requires first { world.old ≡ first_player nodes }
    requires front { IsFront nodes lines.now }
    ensures { Does result world.new (played_all (first_player nodes) lines.now) }
{
    for line in lines {
        match world.play(line.number, &line.line) {
            Ok(()) => {}
            Err(fault) => return Err(fault),
        }
    }
    Ok(())
}

/// Why a play stopped.
fn stop_of_play(fault: PlayFault) -> Stop
    ensures stop { result ≡ stop_by fault }
    ensures calm { result ≢ Stop.ReadFault }
{
    match fault {
        PlayFault::Limit { which, count } => Stop::Judged {
            fault: ScriptFault::Limit { which, count },
        },
        PlayFault::NoMemory => Stop::NoMemory,
    }
}

/// The world that has played the lines of a script.
pub fn play_script(alloc: Global, lines: &[NumberedLine]) -> Result<World, Stop>
    requires few { length lines.now ≤ 65536 }
    requires is_script { IsScript lines.now }
    ensures played { Gives result (by_play (play_of lines.now)) }
    ensures reached { IfOk result (λ w. IsReached (nodes_in lines.now) w.world.nodes) }
    ensures size { IfOk result (λ w. IsReached (length w.world.nodes) w.world.nodes) }
    ensures calm { result ≢ Err Stop.ReadFault }
{
    let nodes = nodes_named(lines);
    let mut world = World::start(alloc, nodes)?;
    match play_all(&mut world, nodes, behind_first(lines)) {
        Ok(()) => Ok(world),
        Err(fault) => Err(stop_of_play(fault)),
    }
}

/// What a world shows: its nodes and notes are moved out of it.
fn view_of(alloc: Global, world: World) -> Result<View, NoMemory>
    requires { IsReached (length world.world.nodes) world.world.nodes }
    ensures { IfOk result (IsViewOf world.world.nodes world.notes) }
{
    let replies = world.replies()?;
    let (nodes, notes) = world.into_parts();
    view(alloc, &nodes, replies, notes)
}

/// What a world shows, in a form.
pub fn shown(alloc: Global, world: World, form: Form) -> Result<Text, NoMemory>
    requires { IsReached (length world.world.nodes) world.world.nodes }
    ensures { IfOk result (IsOutput form (Ok world)) }
{
    let view = view_of(alloc, world)?;
    written(alloc, &view, form)
}
