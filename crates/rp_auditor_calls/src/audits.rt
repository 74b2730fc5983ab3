//! Worked audits.
use rp_auditor::{AuditFault, Check, Verdict, audit};
use std::alloc::Global;
use std::test::Fail;

fn says(alloc: Global, report: &[u8], verdict: Verdict) -> bool {
    audit(alloc, report) == Ok(verdict)
}

fn fails(alloc: Global, index: u64, report: &[u8], check: Check) -> bool {
    says(
        alloc,
        report,
        Verdict::No {
            range: 0,
            index,
            check,
        },
    )
}

#[test]
fn a_report_of_nothing_is_right(rt: HostRuntime) -> Result<(), Fail> {
    let alloc = rt.alloc();
    assert!(rt;
        says(
            alloc,
            b"{\"nodes\":1,\"notes\":[],\"ranges\":[{\"end\":\"~\",\"id\":0,\"lease\":[1,1,40],\"level\":0,\"list\":[],\"replicas\":[{\"applied\":0,\"lai\":0,\"node\":1,\"rows\":[],\"state\":\"live\",\"term\":1}],\"start\":\"^\"}],\"replies\":[]}",
            Verdict::Yes
        )
    );
    assert!(rt;
        fails(
            alloc,
            0,
            b"{\"nodes\":1,\"notes\":[],\"ranges\":[{\"end\":\"~\",\"id\":0,\"lease\":[1,1,40],\"level\":0,\"list\":[],\"replicas\":[{\"applied\":0,\"lai\":0,\"node\":1,\"rows\":[[\"a\",5]],\"state\":\"live\",\"term\":1}],\"start\":\"^\"}],\"replies\":[]}",
            Check::Rows
        )
    );
    Ok(())
}

#[test]
fn a_report_of_a_put_is_right(rt: HostRuntime) -> Result<(), Fail> {
    let alloc = rt.alloc();
    assert!(rt;
        says(
            alloc,
            b"{\"nodes\":1,\"notes\":[],\"ranges\":[{\"end\":\"~\",\"id\":0,\"lease\":[1,1,40],\"level\":0,\"list\":[{\"index\":1,\"text\":\"write 1.1 1 put a 5 under 1 ok none\"}],\"replicas\":[{\"applied\":1,\"lai\":1,\"node\":1,\"rows\":[[\"a\",5]],\"state\":\"live\",\"term\":1}],\"start\":\"^\"}],\"replies\":[{\"attempt\":1,\"client\":1,\"outcome\":\"ok none\",\"seq\":1}]}",
            Verdict::Yes
        )
    );
    assert!(rt;
        fails(
            alloc,
            1,
            b"{\"nodes\":1,\"notes\":[],\"ranges\":[{\"end\":\"~\",\"id\":0,\"lease\":[1,1,40],\"level\":0,\"list\":[{\"index\":1,\"text\":\"write 1.1 1 put a 5 under 1 ok none\"}],\"replicas\":[{\"applied\":1,\"lai\":1,\"node\":1,\"rows\":[[\"a\",6]],\"state\":\"live\",\"term\":1}],\"start\":\"^\"}],\"replies\":[{\"attempt\":1,\"client\":1,\"outcome\":\"ok none\",\"seq\":1}]}",
            Check::Rows
        )
    );
    assert!(rt;
        fails(
            alloc,
            1,
            b"{\"nodes\":1,\"notes\":[],\"ranges\":[{\"end\":\"~\",\"id\":0,\"lease\":[1,1,40],\"level\":0,\"list\":[{\"index\":1,\"text\":\"write 1.1 1 put a 5 under 2 ok none\"}],\"replicas\":[{\"applied\":1,\"lai\":1,\"node\":1,\"rows\":[[\"a\",5]],\"state\":\"live\",\"term\":1}],\"start\":\"^\"}],\"replies\":[{\"attempt\":1,\"client\":1,\"outcome\":\"ok none\",\"seq\":1}]}",
            Check::Lease
        )
    );
    Ok(())
}

#[test]
fn a_wrong_number_is_found(rt: HostRuntime) -> Result<(), Fail> {
    let alloc = rt.alloc();
    assert!(rt;
        fails(
            alloc,
            1,
            b"{\"nodes\":1,\"notes\":[],\"ranges\":[{\"end\":\"~\",\"id\":0,\"lease\":[1,1,40],\"level\":0,\"list\":[{\"index\":1,\"text\":\"write 1.1 1 put a 5 under 1 ok 3\"}],\"replicas\":[{\"applied\":1,\"lai\":1,\"node\":1,\"rows\":[[\"a\",5]],\"state\":\"live\",\"term\":1}],\"start\":\"^\"}],\"replies\":[{\"attempt\":1,\"client\":1,\"outcome\":\"ok none\",\"seq\":1}]}",
            Check::Reply
        )
    );
    assert!(rt;
        fails(
            alloc,
            0,
            b"{\"nodes\":1,\"notes\":[],\"ranges\":[{\"end\":\"~\",\"id\":0,\"lease\":[1,1,40],\"level\":0,\"list\":[{\"index\":2,\"text\":\"write 1.1 1 put a 5 under 1 ok none\"}],\"replicas\":[{\"applied\":1,\"lai\":1,\"node\":1,\"rows\":[[\"a\",5]],\"state\":\"live\",\"term\":1}],\"start\":\"^\"}],\"replies\":[{\"attempt\":1,\"client\":1,\"outcome\":\"ok none\",\"seq\":1}]}",
            Check::Indexes
        )
    );
    assert!(rt;
        fails(
            alloc,
            0,
            b"{\"nodes\":1,\"notes\":[],\"ranges\":[{\"end\":\"~\",\"id\":0,\"lease\":[1,1,40],\"level\":0,\"list\":[{\"index\":1,\"text\":\"write 1.1 1 put a 5 under 1 ok none\"}],\"replicas\":[{\"applied\":1,\"lai\":1,\"node\":1,\"rows\":[[\"a\",5]],\"state\":\"live\",\"term\":1}],\"start\":\"^\"}],\"replies\":[{\"attempt\":1,\"client\":1,\"outcome\":\"ok 3\",\"seq\":1}]}",
            Check::Replies
        )
    );
    assert!(rt;
        fails(
            alloc,
            0,
            b"{\"nodes\":1,\"notes\":[],\"ranges\":[{\"end\":\"~\",\"id\":0,\"lease\":[1,1,40],\"level\":0,\"list\":[{\"index\":1,\"text\":\"write 1.1 1 put a 5 under 1 ok none\"}],\"replicas\":[{\"applied\":1,\"lai\":1,\"node\":1,\"rows\":[[\"a\",5]],\"state\":\"live\",\"term\":1}],\"start\":\"^\"}],\"replies\":[{\"attempt\":1,\"client\":1,\"outcome\":\"refused no-replica\",\"seq\":1}]}",
            Check::Replies
        )
    );
    Ok(())
}

#[test]
fn what_is_no_report_is_refused(rt: HostRuntime) -> Result<(), Fail> {
    let alloc = rt.alloc();
    assert!(rt; audit(alloc, b"{") == Err(AuditFault::NotJson));
    assert!(rt; audit(alloc, b"{}") == Err(AuditFault::NotReport));
    assert!(rt;
        audit(
            alloc,
            b"{\"nodes\":1,\"notes\":[],\"ranges\":[{\"end\":\"~\",\"id\":0,\"lease\":[1,1,40],\"level\":0,\"list\":[{\"index\":1,\"text\":\"write 1.1 1 put a 05 under 1 ok none\"}],\"replicas\":[{\"applied\":1,\"lai\":1,\"node\":1,\"rows\":[[\"a\",5]],\"state\":\"live\",\"term\":1}],\"start\":\"^\"}],\"replies\":[{\"attempt\":1,\"client\":1,\"outcome\":\"ok none\",\"seq\":1}]}"
        ) == Err(AuditFault::NotReport)
    );
    Ok(())
}
