//! What payloads change, and how.
ghost use Rattle.std.specs.Prelude.{◌≡◌, ◌+◌, ◌-◌, ◌^◌, ◌<◌, ◌≤◌, length, IsOk, OnOk};
ghost use Rattle.rp_base.specs.Splits.{split_of};
ghost use Rattle.rp_base.specs.Tables.{below};
ghost use Rattle.rp_request.specs.declared.verdicts.Verdict.TheVariants as verdicts;
ghost use Rattle.rp_request.specs.Applied.{right_number, left_of, command_verdict, asked, ask_record, leased, item, command_record, taken, written, verdict, record_of, after};
ghost use Rattle.rp_request.specs.Applicable.{MaySplit, Fits};
ghost use Rattle.rp_apply.specs.Rooms.{rows_of};

use crate::batches::write_all;
use rp_base::{Desc, Key, Lease, LeaseAsk, LeaseIndex, NoMemory, RangeId};
use rp_range::{after, split_at};
use rp_request::{Command, Payload, Place, Record, Request, Verdict, Why};
use rp_table::Table;
use std::marker::Model;

/// What payloads change, each replica's in the same way (Raft's state machine). Contracts see the
/// applied state, and apart from it how many rows can be added without memory.
#[derive(Drop)]
pub struct Machine {
    pub desc: Desc,
    pub lease: Lease,
    pub lai: LeaseIndex,
    pub table: Table,
}

impl Model for Machine {
    ghost use Rattle.std.specs.Coded.{codes};
    ghost use Rattle.rp_base.specs.Tables.{table_code};
    ghost use Rattle.rp_apply.specs.Rooms.{StateHeld};

    ghost Value = { StateHeld };

    ghost coded = { Prim.hlevel (codes, table_code) };

    ghost view = { λ m. record {
      state = record { desc = m.desc; lease = m.lease; lai = m.lai; table = m.table.map };
      rows = m.table.spare;
    } };
}

impl Machine {
    /// What the check says of a command: its lease sequence is tested before its index.
    #[tactic(auto, unfolding(rp_request::specs::Applied::command_verdict))]
    fn check_command(&self, command: &Command) -> Verdict
        ensures { result ≡ command_verdict self.now.state command.now }
    {
        if command.seq != self.lease.seq {
            return Verdict::OldLease {
                now: self.lease.seq,
            };
        }
        if command.max <= self.lai {
            return Verdict::OldIndex { lai: self.lai };
        }
        Verdict::Took
    }

    /// What the check says of a payload.
    #[tactic(auto, unfolding(rp_request::specs::Applied::asked))]
    pub fn check(&self, payload: &Payload) -> Verdict
        ensures { result ≡ verdict self.now.state payload.now }
    {
        match payload {
            Payload::Nothing => Verdict::Nothing,
            Payload::Write(command) => self.check_command(command),
            Payload::Lease(ask) => {
                if ask.prev == self.lease.seq {
                    Verdict::Took
                } else {
                    Verdict::LeaseMoved
                }
            }
        }
    }

    /// Makes room for the rows that a payload may add.
    pub fn make_room(&mut self, payload: &Payload) -> Result<(), NoMemory>
        ensures state { self.new.state ≡ self.old.state }
        ensures room { OnOk result (rows_of payload.now ≤ self.new.rows) }
        ensures kept { self.old.rows ≤ self.new.rows }
    {
        match payload {
            Payload::Write(command) => self.table.make_room(command.batch.as_slice().len()),
            _ => Ok(()),
        }
    }

    /// The range becomes its left part. The number of the right one.
    fn split(&mut self, key: Key) -> RangeId
        requires { IsOk (split_of self.old.state.desc key) }
        ensures number { result ≡ right_number self.old.state.desc }
        ensures state { self.new.state ≡ record {
          desc = left_of self.old.state.desc (split_of self.old.state.desc key);
          lease = self.old.state.lease;
          lai = self.old.state.lai;
          table = below self.old.state.table key;
        } }
        ensures rows { self.old.rows ≤ self.new.rows }
    {
        let (left, right) = split_at(self.desc, key).unwrap();
        self.desc = left;
        self.table.cut_at(key);
        right.id
    }

    /// Makes the writes of a command, or the cut of a split. The item that it is.
    fn take(&mut self, command: &Command) -> Place
        requires room { length command.now.batch ≤ self.old.rows }
        requires split { MaySplit self.old.state.desc command.now.request }
        ensures item { result ≡ item self.old.state.desc command.now }
        ensures state { self.new.state ≡ taken self.old.state command.now }
        ensures rows { self.old.rows ≤ self.new.rows + length command.now.batch }
    {
        self.lai = command.max;
        if let Request::Split { key } = command.request {
            let right = self.split(key);
            return Place::Split {
                id: command.id,
                key,
                right,
                seq: command.seq,
            };
        }
        write_all(&mut self.table, command.batch.as_slice());
        Place::Write {
            id: command.id,
            request: command.request,
            seq: command.seq,
            reply: command.reply,
        }
    }

    /// Takes a command, or passes it. The record of it.
    fn write(&mut self, command: &Command) -> Record
        requires room { length command.now.batch ≤ self.old.rows }
        requires split { command_verdict self.old.state command.now ≡ verdicts.Took → MaySplit self.old.state.desc command.now.request }
        ensures record_kept { result ≡ command_record self.old.state.desc command.now (command_verdict self.old.state command.now) }
        ensures state { self.new.state ≡ written self.old.state command.now (command_verdict self.old.state command.now) }
        ensures rows { self.old.rows ≤ self.new.rows + length command.now.batch }
    {
        match self.check_command(command) {
            Verdict::Took => Record::Took(self.take(command)),
            Verdict::OldLease { .. } => Record::Passed(Why::OldLease),
            Verdict::OldIndex { .. } => Record::Passed(Why::OldIndex),
            Verdict::LeaseMoved => Record::Passed(Why::LeaseMoved),
            Verdict::Nothing => Record::Passed(Why::Nothing),
        }
    }

    /// Takes a lease ask, or passes it. The record of it.
    #[tactic(auto, unfolding(rp_request::specs::Applied::asked))]
    fn ask(&mut self, ask: LeaseAsk) -> Record
        requires { self.old.state.lease.seq < 2 ^ 64 - 1 }
        ensures record_kept { result ≡ ask_record (asked self.old.state ask) }
        ensures state { self.new.state ≡ leased self.old.state (asked self.old.state ask) }
        ensures rows { self.old.rows ≤ self.new.rows }
    {
        match after(self.lease, ask) {
            Some(lease) => {
                self.lease = lease;
                Record::Took(Place::Lease(self.lease))
            }
            None => Record::Passed(Why::LeaseMoved),
        }
    }

    /// Does what a payload does, without memory. The record that it leaves.
    pub fn apply(&mut self, payload: &Payload) -> Record
        requires room { rows_of payload.now ≤ self.old.rows }
        requires seq { self.old.state.lease.seq < 2 ^ 64 - 1 }
        requires split { Fits self.old.state payload.now }
        ensures record_kept { result ≡ record_of self.old.state payload.now }
        ensures state { self.new.state ≡ after self.old.state payload.now }
        ensures rows { self.old.rows ≤ self.new.rows + rows_of payload.now }
    {
        match payload {
            Payload::Nothing => Record::Passed(Why::Nothing),
            Payload::Write(command) => self.write(command),
            Payload::Lease(ask) => self.ask(*ask),
        }
    }
}
