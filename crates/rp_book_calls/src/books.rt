//! A book that gets attempts, and is told of their outcomes.
use crate::samples::{attempt, key, put};
use rp_base::{CmdId, Key, Value};
use rp_book::{Book, Booked, Draw};
use rp_request::{End, Outcome, Refusal, ReplyLine};
use std::test::Fail;

/// The book gets an attempt that it lacks, where memory is left.
fn gets(book: &mut Book, id: CmdId, booked: Booked) -> bool {
    if book.get(id).is_some() {
        return false;
    }
    match book.make_room(1) {
        Ok(()) => {
            book.put(id, booked);
            true
        }
        Err(_) => false,
    }
}

/// It gets an attempt of client 2, and two of client 1.
fn gets_three(book: &mut Book, key: Key, value: &Value) -> bool {
    gets(book, attempt(2, 1), put(key, value))
        && gets(book, attempt(1, 1), put(key, value))
        && gets(book, attempt(1, 2), put(key, value))
}

/// Whether this is the number of the last attempt that the book has of a client's command.
fn is_latest(book: &Book, client: u16, attempt: u16) -> bool {
    match book.latest(client, 1) {
        Some((id, _)) => id.client == client && id.attempt == attempt,
        None => false,
    }
}

/// Whether these are the attempts by client, command and attempt.
fn are_in_order(list: &[(CmdId, Booked)]) -> bool {
    match list {
        [first, second, third] => {
            first.0 == attempt(1, 1) && second.0 == attempt(1, 2) && third.0 == attempt(2, 1)
        }
        _ => false,
    }
}

fn lists_in_order(book: &Book) -> bool {
    match book.by_attempt() {
        Ok(list) => are_in_order(list.as_slice()),
        Err(_) => false,
    }
}

/// Whether the last attempts are the first of client 2, the second of client 1, and none of client 3.
fn has_latest(book: &Book) -> bool {
    is_latest(book, 2, 1) && is_latest(book, 1, 2) && book.latest(3, 1).is_none()
}

#[test]
fn keeps_attempts(rt: HostRuntime) -> Result<(), Fail> {
    let key = key()?;
    let mut book = Book::new(rt.alloc());
    let kept = gets_three(&mut book, key, &Value::Number(5));
    assert!(rt; kept && has_latest(&book) && lists_in_order(&book));
    Ok(())
}

/// Whether the book has an attempt so far in its buffer.
fn has_draw(book: &Book, id: CmdId, draw: Draw) -> bool {
    match book.get(id) {
        Some(booked) => booked.draw == draw,
        None => false,
    }
}

/// It draws place 7, and then it is published.
fn goes_on(book: &mut Book, id: CmdId) -> bool {
    let undrawn = has_draw(book, id, Draw::Undrawn);
    book.set_draw(id, Draw::Drawn { place: 7 });
    let drawn = has_draw(book, id, Draw::Drawn { place: 7 });
    book.set_draw(id, Draw::Published);
    undrawn && drawn && has_draw(book, id, Draw::Published)
}

/// The first attempt of client 1 goes on, and its second one does not.
fn one_goes_on(book: &mut Book) -> bool {
    goes_on(book, attempt(1, 1)) && has_draw(book, attempt(1, 2), Draw::Undrawn)
}

#[test]
fn an_attempt_goes_on(rt: HostRuntime) -> Result<(), Fail> {
    let key = key()?;
    let mut book = Book::new(rt.alloc());
    assert!(rt; gets_three(&mut book, key, &Value::Number(5)) && one_goes_on(&mut book));
    Ok(())
}

/// The first attempt of client 1 is refused, and the book is told.
fn tells(book: &mut Book) -> bool {
    let before = book.outcome(attempt(1, 1));
    book.tell(attempt(1, 1), Outcome::Refused(Refusal::NoReplica));
    before == Some(Outcome::Pending)
        && book.outcome(attempt(1, 1)) == Some(Outcome::Refused(Refusal::NoReplica))
        && book.outcome(attempt(3, 1)).is_none()
}

/// Whether a line tells this of the first command of a client.
fn is_line(line: &ReplyLine, client: u16, attempt: u16, outcome: Outcome) -> bool {
    line.client == client
        && line.seq == 1
        && line.attempt == attempt
        && line.end == End::Outcome(outcome)
}

/// Whether these lines tell the first attempt of client 1 refused, and what came after it pending.
fn are_told(lines: &[ReplyLine]) -> bool {
    match lines {
        [first, second, third] => {
            is_line(first, 1, 1, Outcome::Refused(Refusal::NoReplica))
                && is_line(second, 1, 2, Outcome::Pending)
                && is_line(third, 2, 1, Outcome::Pending)
        }
        _ => false,
    }
}

fn replies_as_told(book: &Book) -> bool {
    match book.replies() {
        Ok(lines) => are_told(lines.as_slice()),
        Err(_) => false,
    }
}

#[test]
fn replies_as_it_was_told(rt: HostRuntime) -> Result<(), Fail> {
    let key = key()?;
    let mut book = Book::new(rt.alloc());
    let kept = gets_three(&mut book, key, &Value::Number(5));
    assert!(rt; kept && tells(&mut book) && replies_as_told(&book));
    Ok(())
}
