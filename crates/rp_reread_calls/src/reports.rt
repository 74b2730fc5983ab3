//! Worked reports.
use rp_base::{CmdId, Key, LeaseSeq, Value};
use rp_request::{Place, Record, Reply, Request};
use rp_reread::{Answer, Ended, Entry, RangeRead, ReadFault, Report, read_report};
use std::alloc::Global;
use std::test::Fail;

/// Whether the report says that one node has the one range, with one entry and one answer.
fn has_one_of_each(report: &Report) -> bool {
    report.nodes == 1 && report.ranges.len() == 1 && report.answers.len() == 1
}

fn is_put(entry: &Entry, key: Key) -> bool {
    let put = Place::Write {
        id: CmdId {
            client: 1,
            seq: 1,
            attempt: 1,
        },
        request: Request::Put {
            key,
            value: Value::Number(5),
        },
        seq: LeaseSeq::new(1),
        reply: Reply::Old(None),
    };
    entry.index == 1 && entry.kept == Record::Took(put)
}

fn has_put(range: &RangeRead, key: Key) -> bool {
    match range.entries.as_slice() {
        [entry] => is_put(entry, key),
        _ => false,
    }
}

fn is_ok(answer: &Answer) -> bool {
    answer.client == 1 && answer.end == Ended::Success(Reply::Old(None))
}

/// Whether the report has the put, its answer, and one row.
fn says_put(report: &Report, key: Key) -> bool {
    match (report.ranges.as_slice(), report.answers.as_slice()) {
        ([range], [answer]) => has_put(range, key) && is_ok(answer),
        _ => false,
    }
}

fn reads(alloc: Global, bytes: &[u8], key: Key) -> bool {
    match read_report(alloc, bytes) {
        Ok(report) => has_one_of_each(&report) && says_put(&report, key),
        Err(_) => false,
    }
}

fn refuses(alloc: Global, bytes: &[u8], fault: ReadFault) -> bool {
    match read_report(alloc, bytes) {
        Ok(_) => false,
        Err(why) => why == fault,
    }
}

#[test]
fn a_report_is_read(rt: HostRuntime) -> Result<(), Fail> {
    let key = Key::read(b"a").ok().ok_or("a key")?;
    assert!(rt;
        reads(
            rt.alloc(),
            b"{\"nodes\":1,\"notes\":[],\"ranges\":[{\"end\":\"~\",\"id\":0,\"lease\":[1,1,40],\"level\":0,\"list\":[{\"index\":1,\"text\":\"write 1.1 1 put a 5 under 1 ok none\"}],\"replicas\":[{\"applied\":1,\"lai\":1,\"node\":1,\"rows\":[[\"a\",5]],\"state\":\"live\",\"term\":1}],\"start\":\"^\"}],\"replies\":[{\"attempt\":1,\"client\":1,\"outcome\":\"ok none\",\"seq\":1}]}",
            key
        )
    );
    Ok(())
}

#[test]
fn what_is_no_json_is_refused(rt: HostRuntime) -> Result<(), Fail> {
    assert!(rt; refuses(rt.alloc(), b"{", ReadFault::NotJson));
    Ok(())
}

#[test]
fn what_is_no_report_is_refused(rt: HostRuntime) -> Result<(), Fail> {
    let alloc = rt.alloc();
    assert!(rt; refuses(alloc, b"{}", ReadFault::NotReport));
    assert!(rt;
        refuses(
            alloc,
            b"{\"nodes\":1,\"notes\":[],\"ranges\":[{\"end\":\"~\",\"id\":0,\"lease\":[1,1,40],\"level\":0,\"list\":[{\"index\":1,\"text\":\"write 1.1 1 put a 05 under 1 ok none\"}],\"replicas\":[{\"applied\":1,\"lai\":1,\"node\":1,\"rows\":[[\"a\",5]],\"state\":\"live\",\"term\":1}],\"start\":\"^\"}],\"replies\":[{\"attempt\":1,\"client\":1,\"outcome\":\"ok none\",\"seq\":1}]}",
            ReadFault::NotReport
        )
    );
    assert!(rt;
        refuses(
            alloc,
            b"{\"nodes\":1,\"notes\":[],\"ranges\":[{\"end\":\"~\",\"id\":0,\"lease\":[1,1,40],\"level\":0,\"list\":[{\"index\":1,\"text\":\"write 1.1 1 put a  5 under 1 ok none\"}],\"replicas\":[{\"applied\":1,\"lai\":1,\"node\":1,\"rows\":[[\"a\",5]],\"state\":\"live\",\"term\":1}],\"start\":\"^\"}],\"replies\":[{\"attempt\":1,\"client\":1,\"outcome\":\"ok none\",\"seq\":1}]}",
            ReadFault::NotReport
        )
    );
    assert!(rt;
        refuses(
            alloc,
            b"{\"nodes\":1,\"notes\":[],\"ranges\":[{\"end\":\"~\",\"id\":0,\"lease\":[1,1,40],\"level\":0,\"list\":[{\"index\":1.0,\"text\":\"write 1.1 1 put a 5 under 1 ok none\"}],\"replicas\":[{\"applied\":1,\"lai\":1,\"node\":1,\"rows\":[[\"a\",5]],\"state\":\"live\",\"term\":1}],\"start\":\"^\"}],\"replies\":[{\"attempt\":1,\"client\":1,\"outcome\":\"ok none\",\"seq\":1}]}",
            ReadFault::NotReport
        )
    );
    assert!(rt;
        refuses(
            alloc,
            b"{\"nodes\":1,\"notes\":[],\"ranges\":[{\"end\":\"~\",\"id\":0,\"lease\":[1,1,40],\"level\":0,\"list\":[{\"index\":1,\"text\":\"write 1.1 1 put a 5 under 1 ok none\"}],\"replicas\":[{\"applied\":1,\"lai\":1,\"node\":1,\"rows\":[[\"a\",5],[\"a\",5]],\"state\":\"live\",\"term\":1}],\"start\":\"^\"}],\"replies\":[{\"attempt\":1,\"client\":1,\"outcome\":\"ok none\",\"seq\":1}]}",
            ReadFault::NotReport
        )
    );
    Ok(())
}
