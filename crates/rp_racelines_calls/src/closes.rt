//! The replies of a race, and how it ended.
ghost use Rattle.std.specs.Prelude.{◌<◌, ◌^◌, length};
ghost use Rattle.rp_events.specs.Lawful.{IsReached};
ghost use Rattle.rp_racelines.specs.Verdicts.{command_count};

use crate::samples::{goes_on, key, rules, sends, world_of_one};
use rp_base::Key;
use rp_race::RaceRules;
use rp_racelines::{Verdict, is_whole, judge, replies};
use rp_request::{End, Outcome, Reply, ReplyLine};
use rp_world::World;
use std::alloc::Global;
use std::test::Fail;

/// Whether client 1's command alone ended so.
fn is_line(lines: &[ReplyLine], attempt: u16, end: &End) -> bool {
    match lines {
        [line] => (line.client, line.seq, line.attempt) == (1, 1, attempt) && line.end == *end,
        _ => false,
    }
}

/// Whether the nodes of a world show this of the only command, and the race ended so.
fn shows(
    alloc: Global,
    rules: &RaceRules,
    world: &World,
    attempt: u16,
    end: &End,
    verdict: Verdict,
) -> bool
    requires reached { IsReached (length world.now.world.nodes) world.now.world.nodes }
    requires clients { length rules.now.requests < 2 ^ 16 }
    requires commands { command_count rules.now < 2 ^ 32 }
{
    let nodes = world.nodes();
    match replies(alloc, rules, nodes) {
        Ok(lines) => {
            is_line(lines.as_slice(), attempt, end) && judge(rules, nodes, &lines) == verdict
        }
        Err(_) => false,
    }
}

/// It is unsent at first, pending once it was sent, and ended once it was applied.
fn is_followed(alloc: Global, rules: &RaceRules, world: &mut World, key: Key) -> bool
    requires reached { IsReached (length world.old.world.nodes) world.old.world.nodes }
    requires clients { length rules.now.requests < 2 ^ 16 }
    requires commands { command_count rules.now < 2 ^ 32 }
{
    let pending = End::Outcome(Outcome::Pending);
    let ended = End::Outcome(Outcome::Success(Reply::Old(None)));
    shows(alloc, rules, world, 0, &End::Unsent, Verdict::GoesOn)
        && is_whole(world.nodes())
        && sends(world, key)
        && shows(alloc, rules, world, 1, &pending, Verdict::GoesOn)
        && goes_on(world)
        && shows(alloc, rules, world, 1, &ended, Verdict::Ok)
        && !is_whole(world.nodes())
}

/// Whether it is so by the rules of this script.
fn is_told(alloc: Global, text: &str, world: &mut World, key: Key) -> bool
    requires { IsReached (length world.old.world.nodes) world.old.world.nodes }
{
    match rules(alloc, text) {
        Some(rules) => is_followed(alloc, &rules, world, key),
        None => false,
    }
}

#[test]
fn a_put_is_told(rt: HostRuntime) -> Result<(), Fail> {
    let key = key("a")?;
    let mut world = world_of_one(rt.alloc())?;
    let told = is_told(
        rt.alloc(),
        "cluster 1\nsend 1 0 1 put a 5\nend",
        &mut world,
        key,
    );
    assert!(rt; told);
    Ok(())
}
