//! Texts of views and of values that are not empty.
ghost use Rattle.std.specs.Prelude.{IfOk};
ghost use Rattle.rp_report.specs.Shown.{IsShownDesc, IsShownOutcome, IsShownView};

use rp_base::{
    CmdId, Desc, Key, Lease, LeaseIndex, LeaseSeq, NoMemory, NodeId, RangeId, Seq, ShortText, Text,
    Tick, Value,
};
use rp_report::{
    RangeView, ReplicaView, Row, View, push_outcome, push_range_line, push_refusal,
    push_replica_lines, push_reply, push_request, push_spaced, push_spaced_key, push_value_or_none,
    write_summary, write_text,
};
use rp_request::{Ambiguity, End, Outcome, Place, Record, Refusal, Reply, ReplyLine, Request, Why};
use std::alloc::Global;
use std::test::Fail;

/// The text `hi`.
fn hi() -> Result<Value, Fail> {
    Ok(Value::Text(ShortText::read(b"hi")?))
}

/// The lease of node 1 at the start.
fn first_lease() -> Lease {
    Lease {
        holder: NodeId::new(1).unwrap(),
        seq: LeaseSeq::new(1),
        expires: Tick::new(40),
    }
}

/// The whole key space, in range 0.
fn whole() -> Desc
    ensures { IsShownDesc result }
{
    Desc {
        id: RangeId::new(0).unwrap(),
        level: 0,
        start: 0,
        end: u128::MAX,
    }
}

/// A live replica in which the key `a` has the text `hi`.
fn with_row(alloc: Global) -> Result<ReplicaView, Fail> {
    let mut rows = Seq::new(alloc);
    rows.push(Row {
        key: Key::read(b"a")?,
        value: hi()?,
    })?;
    Ok(ReplicaView::Live {
        term: 1,
        applied: 2,
        lai: LeaseIndex::new(1),
        rows,
    })
}

/// The write of command 1.1: the key `a` gets the text `hi`.
fn put_hi() -> Result<Record, Fail> {
    Ok(Record::Took(Place::Write {
        id: CmdId {
            client: 1,
            seq: 1,
            attempt: 1,
        },
        request: Request::Put {
            key: Key::read(b"a")?,
            value: hi()?,
        },
        seq: LeaseSeq::new(1),
        reply: Reply::Old(None),
    }))
}

/// A view of one node without ranges.
fn empty(alloc: Global) -> View
    ensures { IsShownView result }
{
    View {
        nodes: 1,
        notes: Seq::new(alloc),
        replies: Seq::new(alloc),
        ranges: Seq::new(alloc),
        messages: 0,
    }
}

/// One more attempt, and how it ended.
fn answered(mut view: View, seq: u32, outcome: Outcome) -> Result<View, Fail>
    requires shown { IsShownView view }
    requires outcome { IsShownOutcome outcome }
    ensures { IfOk result (λ v. IsShownView v) }
{
    let reply = ReplyLine {
        client: 1,
        seq,
        attempt: 1,
        end: End::Outcome(outcome),
    };
    view.replies.push(reply)?;
    Ok(view)
}

/// A command that took effect, and one that is refused since the key has a text.
fn both_answered(view: View, key: Key) -> Result<View, Fail>
    requires { IsShownView view }
    ensures { IfOk result (λ v. IsShownView v) }
{
    let view = answered(view, 1, Outcome::Success(Reply::Old(None)))?;
    answered(view, 2, Outcome::Refused(Refusal::IsText { key }))
}

/// One more range.
fn ranged(mut view: View, range: RangeView) -> Result<View, Fail>
    requires shown { IsShownView view }
    requires desc { IsShownDesc range.desc }
    ensures { IfOk result (λ v. IsShownView v) }
{
    view.ranges.push(range)?;
    Ok(view)
}

/// The range 0 over the whole key space, from index 1 on.
fn first_range(records: Vec<Record>, replicas: Vec<ReplicaView>) -> RangeView
    ensures desc { IsShownDesc result.desc }
{
    RangeView {
        desc: whole(),
        lease: first_lease(),
        first: 1,
        records: Seq::from_vec(records),
        replicas: Seq::from_vec(replicas),
    }
}

/// The range with an entry that carries nothing and the put of a text, and its one replica.
fn one_range(alloc: Global) -> Result<RangeView, Fail>
    ensures { IfOk result (λ range. IsShownDesc range.desc) }
{
    let put = put_hi()?;
    let records = vec![in alloc; Record::Passed(Why::Nothing), put]?;
    let replicas = vec![in alloc; with_row(alloc)?]?;
    Ok(first_range(records, replicas))
}

/// A put of a text, an add that is refused, and an entry that carries nothing, on one node.
fn one_text(alloc: Global) -> Result<View, Fail>
    ensures { IfOk result (λ v. IsShownView v) }
{
    let key = Key::read(b"a")?;
    let range = one_range(alloc)?;
    let view = ranged(empty(alloc), range)?;
    both_answered(view, key)
}

/// The text of a view and its summary behind it.
fn write_both(view: &View, out: &mut Text) -> Result<(), NoMemory>
    requires { IsShownView view.now }
{
    write_text(view, out)?;
    write_summary(view, out)
}

const ONE_TEXT: &str = "\
nodes 1\nreply 1.1 1 ok none\nreply 1.2 1 refused is-text a\n\
range 0 ^ ~ level 0 lease 1 1 40\npass 1 nothing\n\
place 2 write 1.1 1 put a 'hi under 1 ok none\nnode 1 live term 1 applied 2 lai 1\n\
row a 'hi\nend\n\
commands 2\nattempts 2\nok 1\nrefused 1\nambiguous 0\npending 0\nranges 1\nplaces 1\n\
passed 1\nmessages 0\n";

#[test]
fn a_text_is_reported_and_summed_up(rt: HostRuntime) -> Result<(), Fail> {
    let view = one_text(rt.alloc())?;
    let mut out = Text::new(rt.alloc());
    let written = write_both(&view, &mut out);
    assert!(rt; written.is_ok() && out.as_str() == ONE_TEXT);
    Ok(())
}

#[test]
fn requests_and_replies_are_spelled(rt: HostRuntime) -> Result<(), Fail> {
    let mut out = Text::new(rt.alloc());
    let request = Request::CPut {
        key: Key::read(b"a")?,
        expect: Some(hi()?),
        value: Value::Number(7),
    };
    push_request(&mut out, &request)?;
    push_reply(&mut out, &Reply::Set)?;
    assert!(rt; out.as_str() == "cput a 'hi 7set");
    Ok(())
}

#[test]
fn ends_are_spelled(rt: HostRuntime) -> Result<(), Fail> {
    let mut out = Text::new(rt.alloc());
    let own = LeaseIndex::new(1);
    push_outcome(&mut out, &Outcome::Ambiguous(Ambiguity::Restarted { own }))?;
    push_refusal(
        &mut out,
        &Refusal::IsText {
            key: Key::read(b"a")?,
        },
    )?;
    assert!(rt; out.as_str() == "ambiguous restarted 1is-text a");
    Ok(())
}

/// The line of the range and those of its replicas.
fn write_range(replicas: &[ReplicaView], out: &mut Text) -> Result<(), NoMemory> {
    push_range_line(out, &whole(), &first_lease())?;
    push_replica_lines(out, replicas)
}

const RANGE_LINES: &str = "range 0 ^ ~ level 0 lease 1 1 40\nnode 1 live term 1 applied 2 lai 1\n\
row a 'hi\nnode 2 removed applied 3\n";

#[test]
fn lines_of_a_range_are_written(rt: HostRuntime) -> Result<(), Fail> {
    let live = with_row(rt.alloc())?;
    let replicas = vec![in rt.alloc(); live, ReplicaView::Removed { applied: 3 }]?;
    let mut out = Text::new(rt.alloc());
    let written = write_range(&replicas, &mut out);
    assert!(rt; written.is_ok() && out.as_str() == RANGE_LINES);
    Ok(())
}

#[test]
fn words_are_written(rt: HostRuntime) -> Result<(), Fail> {
    let mut out = Text::new(rt.alloc());
    push_spaced(&mut out, 7)?;
    push_spaced_key(&mut out, Key::read(b"a")?)?;
    push_value_or_none(&mut out, &Some(hi()?))?;
    assert!(rt; out.as_str() == " 7 a'hi");
    Ok(())
}
