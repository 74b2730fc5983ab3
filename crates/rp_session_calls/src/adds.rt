//! Worked session adds.
ghost use Rattle.std.specs.Prelude.{◌≡◌, ◌≤◌, true};
ghost use Rattle.rp_session.specs.Tokens.{IsAdd};

use rp_base::{Key, LeaseIndex, Value};
use rp_request::{Ambiguity, Outcome, Refusal, Reply, Request};
use rp_session::{Session, Stage, Turn};
use std::test::Fail;

fn key(text: &str) -> Result<Key, Fail> {
    Ok(Key::read(text.as_bytes()).ok().ok_or("a key")?)
}

/// Client 1's first add: 5 to the key `a`.
fn add() -> Result<Session, Fail> {
    let raised = key("a")?;
    if Session::can_begin(1, 1, raised, 5) {
        Ok(Session::begin(1, 1, raised, 5))
    } else {
        Err("an add")?
    }
}

/// Where the session stands after the outcome, and its turn.
fn goes(session: &mut Session, outcome: Outcome, turn: Turn, stage: Stage) -> bool {
    session.takes(&outcome) && session.next(outcome) == turn && session.stage() == stage
}

fn set() -> Outcome {
    Outcome::Success(Reply::Set)
}

fn restarted() -> Outcome {
    Outcome::Ambiguous(Ambiguity::Restarted {
        own: LeaseIndex::new(2),
    })
}

/// Whether the first commands are those over the token `a-01000001`.
fn mints(session: &Session, token: Key) -> bool {
    session.request()
        == Request::CPut {
            key: token,
            expect: None,
            value: Value::Number(5),
        }
}

fn moves(session: &Session, token: Key, raised: Key) -> bool {
    session.request()
        == Request::Move {
            from: token,
            to: raised,
            by: 5,
        }
}

fn confirms(session: &Session, token: Key) -> bool {
    session.request()
        == Request::CPut {
            key: token,
            expect: Some(Value::Number(0)),
            value: Value::Number(0),
        }
}

#[test]
fn a_move_that_restarted_is_confirmed(rt: HostRuntime) -> Result<(), Fail> {
    let token = key("a-01000001")?;
    let raised = key("a")?;
    let mut session = add()?;
    assert!(rt; mints(&session, token));
    assert!(rt; goes(&mut session, set(), Turn::Send, Stage::Moving));
    assert!(rt; moves(&session, token, raised));
    assert!(rt; goes(&mut session, restarted(), Turn::Send, Stage::Moving));
    let short = Outcome::Refused(Refusal::Short { actual: 0 });
    assert!(rt; goes(&mut session, short, Turn::Send, Stage::Confirming));
    assert!(rt; confirms(&session, token));
    assert!(rt; goes(&mut session, set(), Turn::Done, Stage::Confirming));
    assert!(rt; session.has_ended());
    Ok(())
}

#[test]
fn an_overflow_fails(rt: HostRuntime) -> Result<(), Fail> {
    let mut session = add()?;
    assert!(rt; goes(&mut session, Outcome::Pending, Turn::Wait, Stage::Minting));
    assert!(rt; goes(&mut session, set(), Turn::Send, Stage::Moving));
    let full = Refusal::Overflow { actual: u64::MAX };
    assert!(rt;
        goes(
            &mut session,
            Outcome::Refused(full),
            Turn::Failed(full),
            Stage::Moving
        )
    );
    assert!(rt; session.has_ended() && !session.takes(&set()));
    Ok(())
}

#[test]
fn a_key_with_a_dash_has_no_add(rt: HostRuntime) -> Result<(), Fail> {
    assert!(rt; !Session::can_begin(1, 1, key("a-b")?, 5));
    assert!(rt; !Session::can_begin(1, 1, key("abcdefgh")?, 5));
    assert!(rt; Session::can_begin(32, 999_999, key("abcdefg")?, 1));
    Ok(())
}
