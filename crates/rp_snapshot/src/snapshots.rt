//! A snapshot: how it is made, copied and taken apart.
ghost use Rattle.std.specs.Prelude.{◌≡◌, IfOk};
ghost use Rattle.std.specs.FinMap.{len};

use rp_base::{Desc, Lease, LeaseIndex, NoMemory};
use rp_table::Table;
use std::alloc::Global;
use std::marker::Model;

/// A copy of what a replica has applied: the range's description, its lease, the lease applied
/// index and the table. The index of the log stands in the message that carries it. Contracts see
/// the applied state.
#[derive(Drop)]
pub struct Snapshot {
    parts: Box<Parts>,
}

/// What a snapshot holds. It stands apart, so that a message moves as eight bytes what few carry.
#[derive(Drop)]
struct Parts {
    desc: Desc,
    lease: Lease,
    lai: LeaseIndex,
    table: Table,
}

impl Model for Snapshot {
    ghost use Rattle.std.specs.Coded.{codes};
    ghost use Rattle.rp_base.specs.Tables.{table_code};
    ghost use Rattle.rp_request.specs.Applied.{AppliedState};

    ghost Value = { AppliedState };

    ghost coded = { Prim.hlevel (codes, table_code) };

    ghost view = { λ s. record {
      desc = s.parts.value.desc;
      lease = s.parts.value.lease;
      lai = s.parts.value.lai;
      table = s.parts.value.table.map;
    } };
}

/// A snapshot of this applied state. The copy of the table has that table's allocator.
#[cold]
pub fn make(
    alloc: Global,
    desc: Desc,
    lease: Lease,
    lai: LeaseIndex,
    table: &Table,
) -> Result<Snapshot, NoMemory>
    ensures { IfOk result (λ s. s ≡ record {
      desc = desc;
      lease = lease;
      lai = lai;
      table = table.now.map;
    }) }
{
    let table = table.copy()?;
    let parts = Parts {
        desc,
        lease,
        lai,
        table,
    };
    Ok(Snapshot {
        parts: Box::new(alloc, parts)?,
    })
}

impl Snapshot {
    /// A copy.
    #[cold]
    pub fn copy(&self) -> Result<Snapshot, NoMemory>
        ensures { IfOk result (λ s. s ≡ self.now) }
    {
        let alloc = *Box::allocator(&self.parts);
        let Parts {
            desc,
            lease,
            lai,
            ..
        } = *self.parts;
        make(alloc, desc, lease, lai, &self.parts.table)
    }

    /// The parts, as an applied state takes them in. It takes no memory, and nothing is copied.
    #[cold]
    pub fn into_parts(self) -> (Desc, Lease, LeaseIndex, Table)
        ensures { self ≡ record {
          desc = result.0;
          lease = result.1;
          lai = result.2;
          table = result.3.map;
        } }
    {
        let Snapshot { parts } = self;
        let Parts {
            desc,
            lease,
            lai,
            table,
        } = Box::into_inner(parts);
        (desc, lease, lai, table)
    }

    /// The range's description.
    pub fn desc(&self) -> Desc
        ensures { result ≡ self.now.desc }
    {
        self.parts.desc
    }

    /// The range's lease.
    pub fn lease(&self) -> Lease
        ensures { result ≡ self.now.lease }
    {
        self.parts.lease
    }

    /// The lease applied index.
    pub fn lai(&self) -> LeaseIndex
        ensures { result ≡ self.now.lai }
    {
        self.parts.lai
    }

    /// The rows.
    pub fn table(&self) -> &Table
        ensures { result.now.map ≡ self.now.table }
    {
        &self.parts.table
    }

    /// The number of the table's rows.
    pub fn rows(&self) -> usize
        ensures { result ≡ len self.now.table }
    {
        self.parts.table.len()
    }
}
