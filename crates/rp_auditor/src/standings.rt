//! The state of a range, as its list is played.
ghost use Rattle.std.specs.Prelude.{◌≡◌, ◌<◌, ℕ, slice_get, true, IfOk, OnOk, IsOk, IsSome, Some, None};
ghost use Rattle.std.specs.FinMap.{entries, len};
ghost use Rattle.rp_base.specs.Tables.{below};
ghost use Rattle.rp_base.specs.declared.values.Value.{Value};
ghost use Rattle.rp_base.specs.Splits.{split_of};
ghost use Rattle.rp_request.specs.Batches.{write, write_all, after_batch};
ghost use Rattle.rp_request.specs.Effect.{effect};
ghost use Rattle.rp_eval.specs.Faults.{refusal_of};
ghost use Rattle.rp_request.specs.Items.{after_item, after_request};
ghost use Rattle.rp_request.specs.Starts.{first_state};
ghost use Rattle.rp_request.specs.declared.requests.Request.TheVariants.{Split};
ghost use Rattle.rp_auditor.specs.Audits.{is_left};
ghost use Rattle.rp_auditor.specs.Playing.{after_record, is_row, same_rows, has_rows, is_under, is_within, replies_so, HasParts, desc_after, Plays, Takes, Answers};
ghost use Rattle.rp_auditor.specs.Starts.{right_state};

use crate::items::{follows, is_told, same_lease};
use rp_base::{Desc, Key, Lease, NoMemory};
use rp_eval::{EvalFault, evaluate, in_bounds};
use rp_range::{first_desc, first_lease, split_at};
use rp_report::Row;
use rp_request::{Op, Place, Record, Reply, Request};
use rp_reread::RangeRead;
use rp_table::Table;
use std::alloc::Global;
use std::marker::Model;

/// The state of a range: its table, its description and its lease. Contracts see the state.
#[derive(Drop)]
pub(crate) struct Standing {
    table: Table,
    desc: Desc,
    lease: Lease,
}

impl Model for Standing {
    ghost use Rattle.std.specs.Coded.{codes};
    ghost use Rattle.rp_base.specs.Tables.{table_code};
    ghost use Rattle.rp_request.specs.Items.{State};

    ghost Value = { State };

    ghost coded = { Prim.hlevel (codes, table_code) };

    ghost view = { λ s. record { table = s.table.map; desc = s.desc; lease = s.lease } };
}

/// Makes one write.
fn write(table: &mut Table, op: Op) -> Result<(), NoMemory>
    ensures { OnOk result (table.new.map ≡ write table.old.map op) }
{
    match op {
        Op::Set { key, value } => {
            table.make_room(1)?;
            table.write_one(key, value);
        }
        Op::Remove { key } => table.remove_one(key),
    }
    Ok(())
}

/// Makes the writes in their order.
fn write_all(table: &mut Table, ops: &[Op]) -> Result<(), NoMemory>
    ensures { OnOk result (table.new.map ≡ write_all table.old.map ops.now) }
{
    for op in ops {
        write(table, *op)?;
    }
    Ok(())
}

/// A fault of an evaluation is a refusal, or want of memory.
fn refused(fault: EvalFault) -> Result<Option<Reply>, NoMemory>
    ensures { IfOk result (λ o. (o ≡ None) × IsSome (refusal_of fault)) }
{
    match fault.refusal() {
        Some(_) => Ok(None),
        None => Err(NoMemory),
    }
}

/// Whether the row at a place of a table is this one.
fn is_row(table: &Table, at: usize, row: &Row) -> bool
    requires { at < len table.now.map }
    ensures { (e : ℕ × Value) → slice_get (entries table.now.map) at ≡ Some e → result ≡ is_row e row.now }
{
    let (key, value) = table.row(at);
    key == row.key && value == row.value
}

/// Whether the rows are those of a table.
fn same_rows(table: &Table, rows: &[Row]) -> bool
    ensures { result ≡ same_rows (entries table.now.map) rows.now }
{
    if rows.len() != table.len() {
        return false;
    }
    for at in 0..rows.len() {
        if !is_row(table, at, &rows[at]) {
            return false;
        }
    }
    true
}

impl Standing {
    /// The state from which range 0 starts.
    pub(crate) fn first(alloc: Global) -> Standing
        ensures { result ≡ first_state }
    {
        Standing {
            table: Table::new(alloc),
            desc: first_desc(),
            lease: first_lease(),
        }
    }

    /// The state in memory of its own.
    pub(crate) fn copy(&self) -> Result<Standing, NoMemory>
        ensures { IfOk result (λ s. s ≡ self.now) }
    {
        let table = self.table.copy()?;
        Ok(Standing {
            table,
            desc: self.desc,
            lease: self.lease,
        })
    }

    /// The state of the right part of a split at the key, where there is one.
    pub(crate) fn right(&self, key: Key) -> Result<Option<Standing>, NoMemory>
        ensures { IfOk result (λ s. s ≡ right_state key self.now) }
    {
        let Ok((_, desc)) = split_at(self.desc, key) else {
            return Ok(None);
        };
        let table = self.table.split_off(key)?;
        Ok(Some(Standing {
            table,
            desc,
            lease: self.lease,
        }))
    }

    /// Makes the writes of a batch. A split takes its keys and cuts the description.
    fn apply(&mut self, request: &Request, ops: &[Op]) -> Result<(), NoMemory>
        requires { HasParts self.old.desc request.now }
        ensures { OnOk result (self.new ≡ record {
          table = after_batch self.old.table request.now ops.now;
          desc = desc_after self.old.desc request.now;
          lease = self.old.lease;
        }) }
    {
        match request {
            Request::Split { key } => {
                self.cut(*key);
                Ok(())
            }
            Request::Put { .. }
            | Request::Add { .. }
            | Request::CPut { .. }
            | Request::Del { .. }
            | Request::Wipe { .. }
            | Request::Move { .. } => write_all(&mut self.table, ops),
        }
    }

    /// The left part of a split at the key stays.
    fn cut(&mut self, key: Key)
        requires { IsOk (split_of self.old.desc key) }
        ensures { self.new ≡ record {
          table = below self.old.table key;
          desc = desc_after self.old.desc (Split key);
          lease = self.old.lease;
        } }
    {
        match split_at(self.desc, key) {
            Ok((left, _)) => {
                self.desc = left;
                self.table.cut_at(key);
            }
            Err(_) => unreachable!(),
        }
    }

    /// Plays a request, and gives its reply; none where it is refused.
    pub(crate) fn play(
        &mut self,
        alloc: Global,
        request: Request,
    ) -> Result<Option<Reply>, NoMemory>
        ensures { IfOk result (λ o. Plays self.old request o self.new) }
    {
        match evaluate(alloc, &self.table, self.desc, request) {
            Ok(done) => {
                self.apply(&request, done.batch.as_slice())?;
                Ok(Some(done.reply))
            }
            Err(fault) => refused(fault),
        }
    }

    /// Takes a request: false where it is refused.
    fn take_request(&mut self, alloc: Global, request: Request) -> Result<bool, NoMemory>
        ensures { IfOk result (λ taken. Takes (after_request self.old request) taken self.new) }
    {
        match self.play(alloc, request) {
            Ok(Some(_)) => Ok(true),
            Ok(None) => Ok(false),
            Err(fault) => Err(fault),
        }
    }

    /// Takes an item: false where it is refused.
    pub(crate) fn take(&mut self, alloc: Global, item: &Place) -> Result<bool, NoMemory>
        ensures { IfOk result (λ taken. Takes (after_item self.old item.now) taken self.new) }
    {
        match item {
            Place::Write { request, .. } => self.take_request(alloc, *request),
            Place::Split { key, .. } => self.take_request(alloc, Request::Split { key: *key }),
            Place::Lease(lease) => {
                self.lease = *lease;
                Ok(true)
            }
        }
    }

    /// Takes a record: false where its item is refused.
    pub(crate) fn take_record(&mut self, alloc: Global, record: &Record) -> Result<bool, NoMemory>
        ensures { IfOk result (λ taken. Takes (after_record (Some self.old) record.now) taken self.new) }
    {
        match record {
            Record::Took(item) => self.take(alloc, item),
            Record::Passed(_) => Ok(true),
        }
    }

    /// The item's sequence is that of the state, and a lease follows that of the state.
    pub(crate) fn is_under(&self, item: &Place) -> bool
        ensures { result ≡ is_under self.now item.now }
    {
        match item {
            Place::Write { seq, .. } | Place::Split { seq, .. } => *seq == self.lease.seq,
            Place::Lease(lease) => follows(&self.lease, lease),
        }
    }

    /// The item's keys lie in the bounds of the state.
    pub(crate) fn is_within(&self, item: &Place) -> bool
        ensures { result ≡ is_within self.now item.now }
    {
        match item {
            Place::Write { request, .. } => in_bounds(self.desc, request),
            Place::Split { key, .. } => in_bounds(self.desc, &Request::Split { key: *key }),
            Place::Lease(_) => true,
        }
    }

    /// Takes an item whose reply is that of its effect: false where it is not.
    pub(crate) fn answer(&mut self, alloc: Global, item: &Place) -> Result<bool, NoMemory>
        ensures { IfOk result (λ so. Answers self.old item.now so self.new) }
    {
        match item {
            Place::Write { request, reply, .. } => self.answer_with(alloc, *request, reply),
            Place::Split { key, right, .. } => {
                self.answer_with(alloc, Request::Split { key: *key }, &Reply::Range(*right))
            }
            Place::Lease(lease) => {
                self.lease = *lease;
                Ok(true)
            }
        }
    }

    fn answer_with(
        &mut self,
        alloc: Global,
        request: Request,
        told: &Reply,
    ) -> Result<bool, NoMemory>
        ensures { IfOk result (λ so. (replies_so (effect self.old.table self.old.desc request) told.now ≡ so)
            × (so ≡ true → after_request self.old request ≡ Some self.new)) }
    {
        match self.play(alloc, request) {
            Ok(Some(reply)) => Ok(is_told(&reply, told)),
            Ok(None) => Ok(false),
            Err(fault) => Err(fault),
        }
    }

    /// Whether level, bounds and lease are those that are told of the range.
    pub(crate) fn is_left(&self, range: &RangeRead) -> bool
        ensures { result ≡ is_left range.now self.now }
    {
        let told = self.desc.level == range.level
            && self.desc.start == range.start
            && self.desc.end == range.end;
        told && same_lease(&self.lease, &range.lease)
    }

    /// Whether the rows are those of the table.
    pub(crate) fn has_rows(&self, rows: &[Row]) -> bool
        ensures { result ≡ has_rows rows.now self.now }
    {
        same_rows(&self.table, rows)
    }
}
