//! One call of each kind, and worked texts.
use crate::samples::{key, passed};
use rp_base::{
    BadKey, BadText, Bytes, Calls, ClientCounts, Grown, Key, KeySpan, NoMemory, NumberFault, Seq,
    ShortText, Text, Value, push_bound, push_key, push_number, push_text, push_value, push_word,
    read_u64,
};
use std::test::Fail;

#[test]
fn reads_keys(rt: HostRuntime) {
    let cases = [
        ("", Err(0)),
        ("A", Err(0)),
        ("a b", Err(1)),
        ("ab.c", Err(2)),
        ("k\u{e9}y", Err(1)),
        ("0123456789abcde~", Err(15)),
        ("0123456789abcdefg", Err(16)),
        ("0123456789abcdef~", Err(16)),
        ("0123456789~bcdef~", Err(10)),
        ("a", Ok(0x61 << 120)),
        ("/_-", Ok(0x2f5f2d << 104)),
        ("az09", Ok(0x617a3039 << 96)),
        ("0123456789abcdef", Ok(0x30313233343536373839616263646566)),
    ];
    for (text, want) in cases {
        let read = match Key::read(text.as_bytes()) {
            Ok(key) => Ok(key.bound()),
            Err(BadKey { place }) => Err(place),
        };
        assert!(rt; read == want, "of {text}");
    }
}

#[test]
fn reads_numbers(rt: HostRuntime) {
    let cases = [
        ("0", Ok(0)),
        ("007", Ok(7)),
        ("18446744073709551615", Ok(18446744073709551615)),
        ("00018446744073709551615", Ok(18446744073709551615)),
        ("18446744073709551616", Err(NumberFault::TooLarge)),
        ("99999999999999999999999", Err(NumberFault::TooLarge)),
        ("", Err(NumberFault::NotNumber { place: 0 })),
        ("+1", Err(NumberFault::NotNumber { place: 0 })),
        ("12a", Err(NumberFault::NotNumber { place: 2 })),
        (
            "99999999999999999999999 ",
            Err(NumberFault::NotNumber { place: 23 }),
        ),
    ];
    for (text, want) in cases {
        assert!(rt; read_u64(text.as_bytes()) == want, "of {text}");
    }
}

#[test]
fn joins_texts(rt: HostRuntime) -> Result<(), Fail> {
    let mut text = Text::from_string(String::from_str(rt.alloc(), "lease ")?);
    let mut more = Text::new(rt.alloc());
    push_word(&mut more, "none")?;
    text.append(more)?;
    push_number(&mut text, 1)?;
    assert!(rt; text.into_string().as_str() == "lease none1");
    Ok(())
}

/// A list with the first item of its copy behind it.
fn joined(calls: &mut Calls) -> Result<(), NoMemory> {
    let mut more = calls.copy()?;
    more.truncate(1);
    calls.append(more)
}

#[test]
fn joins_lists(rt: HostRuntime) -> Result<(), Fail> {
    let mut calls: Calls = Seq::new(rt.alloc());
    calls.push(3)?;
    calls.push(1)?;
    joined(&mut calls)?;
    assert!(rt; is_3_1_3(calls.as_slice()));
    let items = calls.into_vec();
    assert!(rt; is_3_1_3(items.as_slice()));
    assert!(rt; Seq::from_vec(items).len() == 3);
    Ok(())
}

fn is_3_1_3(items: &[u64]) -> bool {
    matches!(items, [3, 1, 3])
}

#[test]
fn passes_through_threads(rt: HostRuntime) -> Result<(), Fail> {
    let mut text = Text::new(rt.alloc());
    push_word(&mut text, "put")?;
    let mut bytes: Bytes = Seq::new(rt.alloc());
    bytes.push(7)?;
    let (text, bytes) = (passed(&rt, text), passed(&rt, bytes));
    assert!(rt; text.as_str() == "put" && bytes.as_slice() == [7].as_slice());
    Ok(())
}

#[test]
fn reads_texts(rt: HostRuntime) {
    let most = "0123456789abcdef0123456789ABCDEF!#$%&()*+,-./:;<=>?@[]^_`{|}~'xyz";
    let cases = [
        ("", Ok(0)),
        ("'hi", Ok(3)),
        (most, Err(64)),
        (&most[..64], Ok(64)),
        ("a b", Err(1)),
        ("ab\u{e9}", Err(2)),
        ("\u{7f}", Err(0)),
    ];
    for (text, want) in cases {
        let read = match ShortText::read(text.as_bytes()) {
            Ok(kept) => Ok(kept.len()),
            Err(BadText { place }) => Err(place),
        };
        assert!(rt; read == want, "of {text}");
    }
}

#[test]
fn writes_words_and_numbers(rt: HostRuntime) -> Result<(), Fail> {
    let five = ShortText::read(b"5")?;
    let mut out = Text::new(rt.alloc());
    push_word(&mut out, "applied ")?;
    push_number(&mut out, u64::MAX)?;
    push_value(&mut out, &Value::Number(5))?;
    push_value(&mut out, &Value::Text(five))?;
    push_text(&mut out, &five)?;
    assert!(rt; out.as_str() == "applied 184467440737095516155'55");
    Ok(())
}

#[test]
fn shows_bounds(rt: HostRuntime) -> Result<(), Fail> {
    let (m, long) = (key("m")?, key("0123456789abcdef")?);
    let mut out = Text::new(rt.alloc());
    push_bound(&mut out, 0)?;
    push_bound(&mut out, u128::MAX)?;
    push_bound(&mut out, m.bound())?;
    push_key(&mut out, long)?;
    assert!(rt; out.as_str() == "^~m0123456789abcdef");
    Ok(())
}

#[test]
fn keeps_room(rt: HostRuntime) -> Result<(), Fail> {
    let mut ticks = Grown::from_vec(Vec::new(rt.alloc()));
    ticks.make_room(2)?;
    ticks.push(40);
    ticks.push(56);
    assert!(rt; ticks.len() == 2);
    let ticks = ticks.into_vec();
    assert!(rt; matches!(ticks.as_slice(), [40, 56]));
    Ok(())
}

/// What takes no memory.
#[test]
fn finds_numbers(rt: HostRuntime) -> Result<(), Fail> {
    let key = key("b")?;
    let span = KeySpan::new(key, None).ok_or("no span")?.span();
    assert!(rt; span.start == 0x62 << 120 && span.end == u128::MAX);
    assert!(rt; Key::of_bound(span.start) == Some(key) && Key::of_bound(span.end).is_none());
    Ok(())
}

#[test]
fn counts_of_clients(rt: HostRuntime) {
    let mut counts = ClientCounts::new();
    assert!(rt; counts.add_one(64) == 1);
    assert!(rt; counts.add_one(64) == 2 && counts.get(1) == 0);
}
