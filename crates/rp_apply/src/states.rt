//! The applied state of a replica, and the check of a payload.
ghost use Rattle.std.specs.Prelude.{◌≡◌, ◌+◌, ◌-◌, ◌^◌, ◌<◌, ◌≤◌, length, IfOk, OnOk};
ghost use Rattle.rp_request.specs.Applied.{verdict};
ghost use Rattle.rp_request.specs.History.{started, applied, reset_to};
ghost use Rattle.rp_request.specs.Applicable.{Fits};
ghost use Rattle.rp_apply.specs.Rooms.{IsWithin, needed, together};

use crate::machines::Machine;
use crate::pieces::Piece;
use rp_base::{Desc, Lease, LeaseIndex, NoMemory};
use rp_request::{Payload, Record, Verdict};
use rp_table::Table;
use std::alloc::Global;
use std::marker::Model;

/// What a replica has applied: the range's description, its lease, the lease applied index and the
/// table, at an index of the log; the records of the indexes since the last snapshot, and the pieces
/// of records from before each snapshot. Contracts see these, and apart from them the room.
#[derive(Drop)]
pub struct ApplyState {
    machine: Machine,
    index: u64,
    before: u64,
    records: Vec<Record>,
    earlier: Vec<Piece>,
}

impl Model for ApplyState {
    ghost use Rattle.std.specs.Prelude.{◌≡◌, ◌+◌, ◌-◌, length, vec_len, vec_capacity};
    ghost use Rattle.std.specs.Coded.{codes};
    ghost use Rattle.rp_base.specs.Tables.{table_code};
    ghost use Rattle.rp_apply.specs.Rooms.{Held};

    ghost Value = { Held };

    ghost coded = { Prim.hlevel (codes, table_code) };

    ghost view = { λ s. record {
      history = record {
        state = s.machine.state;
        index = s.index;
        records = record { first = s.before + 1; list = s.records.items };
        earlier = s.earlier.items;
      };
      room = record {
        rows = s.machine.rows;
        records = vec_capacity s.records - vec_len s.records;
        pieces = vec_capacity s.earlier - vec_len s.earlier;
      };
    } };

    ghost invariant = { λ s. s.before + length s.records.items ≡ s.index };
}

impl ApplyState {
    /// A replica that begins in this state, at this index. It takes no memory.
    pub fn start(
        alloc: Global,
        desc: Desc,
        lease: Lease,
        lai: LeaseIndex,
        table: Table,
        index: u64,
    ) -> ApplyState
        ensures { result.history ≡ started (record { desc = desc; lease = lease; lai = lai; table = table.map }) index }
    {
        ApplyState {
            machine: Machine {
                desc,
                lease,
                lai,
                table,
            },
            index,
            before: index,
            records: Vec::new(alloc),
            earlier: Vec::new(alloc),
        }
    }

    /// Bounds and level of the range as of the applied index.
    pub fn desc(&self) -> Desc
        ensures { result ≡ self.now.history.state.desc }
    {
        self.machine.desc
    }

    /// The lease as of the applied index.
    pub fn lease(&self) -> Lease
        ensures { result ≡ self.now.history.state.lease }
    {
        self.machine.lease
    }

    /// The lease applied index: the maximum of the last command that was taken.
    pub fn lai(&self) -> LeaseIndex
        ensures { result ≡ self.now.history.state.lai }
    {
        self.machine.lai
    }

    /// The rows as of the applied index.
    pub fn table(&self) -> &Table
        ensures { result.now.map ≡ self.now.history.state.table }
    {
        &self.machine.table
    }

    /// The index of the last entry that was applied.
    pub fn index(&self) -> u64
        ensures { result ≡ self.now.history.index }
    {
        self.index
    }

    /// The index before that of the first record since the last snapshot.
    pub fn before(&self) -> u64
        ensures { result + 1 ≡ self.now.history.records.first }
    {
        self.before
    }

    /// The records since the last snapshot, in the order of their indexes, the last one of the index.
    pub fn records(&self) -> &[Record]
        ensures records { result.now ≡ self.now.history.records.list }
        ensures last { self.now.history.records.first + length result.now ≡ self.now.history.index + 1 }
    {
        &self.records
    }

    /// The pieces of records from before each snapshot, in order.
    pub fn earlier(&self) -> &[Piece]
        ensures { result.now ≡ self.now.history.earlier }
    {
        &self.earlier
    }

    /// Makes all room that a payload needs where it is applied. The answer is what the check says of it.
    pub fn plan_one(&mut self, payload: &Payload) -> Result<Verdict, NoMemory>
        ensures history { self.new.history ≡ self.old.history }
        ensures room { OnOk result (IsWithin (needed payload.now) self.new.room) }
        ensures kept { IsWithin self.old.room self.new.room }
        ensures verdict { IfOk result (λ v. v ≡ verdict self.old.history.state payload.now) }
    {
        self.records.reserve(1)?;
        self.machine.make_room(payload)?;
        Ok(self.machine.check(payload))
    }

    /// Applies the payload of the next index, and keeps its record, without memory.
    pub fn commit_one(&mut self, payload: &Payload)
        requires room { IsWithin (needed payload.now) self.old.room }
        requires index { self.old.history.index < 2 ^ 64 - 1 }
        requires seq { self.old.history.state.lease.seq < 2 ^ 64 - 1 }
        requires split { Fits self.old.history.state payload.now }
        ensures history { self.new.history ≡ applied self.old.history payload.now }
        ensures room { IsWithin self.old.room (together self.new.room (needed payload.now)) }
    {
        let record = self.machine.apply(payload);
        self.records
            .extend_from_slice(std::slice::from_ref(&record))
            .unwrap();
        self.index += 1;
    }

    /// Makes room for one more earlier piece.
    pub fn plan_reset(&mut self) -> Result<(), NoMemory>
        ensures history { self.new.history ≡ self.old.history }
        ensures room { OnOk result (1 ≤ self.new.room.pieces) }
        ensures kept { IsWithin self.old.room self.new.room }
    {
        self.earlier.reserve(1)?;
        Ok(())
    }

    /// Takes in the state of a snapshot, without memory: the records become the last earlier piece,
    /// and new ones begin behind the index.
    pub fn reset(&mut self, desc: Desc, lease: Lease, lai: LeaseIndex, table: Table, index: u64)
        requires { 1 ≤ self.old.room.pieces }
        ensures { self.new.history ≡ reset_to self.old.history (record { desc = desc; lease = lease; lai = lai; table = table.map }) index }
    {
        let none = Vec::new(*self.records.allocator());
        let records = std::mem::replace(&mut self.records, none);
        self.earlier.push_reserved(Piece::new(self.before, records));
        self.machine = Machine {
            desc,
            lease,
            lai,
            table,
        };
        self.index = index;
        self.before = index;
    }
}

/// What the check at application says of a payload in this state: nothing is passed; a lease ask is
/// taken, or passed where it does not follow the present sequence; a command is passed where its
/// sequence is not the present one, else where its maximum is at or below the lease applied index,
/// else it is taken (after CockroachDB).
pub fn check(state: &ApplyState, payload: &Payload) -> Verdict
    ensures { result ≡ verdict state.now.history.state payload.now }
{
    state.machine.check(payload)
}
