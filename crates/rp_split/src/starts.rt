//! The applied state in which a range starts.
ghost use Rattle.std.specs.Prelude.{◌≡◌, ℕ, IsOk, IfOk, Some};
ghost use Rattle.rp_base.specs.Splits.{split_of};
ghost use Rattle.rp_request.specs.States.{first_applied, right_with};

use rp_base::{Desc, Key, Lease, NoMemory};
use rp_range::{first_desc, first_lease, split_at};
use rp_table::Table;
use std::alloc::Global;
use std::marker::Model;

/// What a range starts with: its description, its lease and its table. Contracts see the applied
/// state, in which no command has been applied: its lease applied index is 0.
#[derive(Drop)]
pub struct RightStart {
    desc: Desc,
    lease: Lease,
    table: Table,
}

impl Model for RightStart {
    ghost use Rattle.std.specs.Coded.{codes};
    ghost use Rattle.rp_base.specs.Tables.{table_code};
    ghost use Rattle.rp_request.specs.Applied.{AppliedState};

    ghost Value = { AppliedState };

    ghost coded = { Prim.hlevel (codes, table_code) };

    ghost view = { λ s. record {
      desc = s.desc;
      lease = s.lease;
      lai = 0;
      table = s.table.map;
    } };
}

/// The start of the first range: all keys, the first lease, and no row. It takes no memory.
pub fn first(alloc: Global) -> RightStart
    ensures { result ≡ first_applied }
{
    RightStart {
        desc: first_desc(),
        lease: first_lease(),
        table: Table::new(alloc),
    }
}

/// The start of the right range where a range splits at the key: a copy of the part of its table
/// from the key on, the right description and its present lease. The range's own lease applied index
/// does not matter. The copy has the table's allocator.
pub fn trigger(
    _alloc: Global,
    table: &Table,
    desc: Desc,
    lease: Lease,
    key: Key,
) -> Result<RightStart, NoMemory>
    requires { IsOk (split_of desc key) }
    ensures { IfOk result (λ right. (lai : ℕ) → right_with
        (record { desc = desc; lease = lease; lai = lai; table = table.now.map })
        key (split_of desc key) ≡ Some right) }
{
    let (_left, right) = split_at(desc, key).unwrap();
    let table = table.split_off(key)?;
    Ok(RightStart {
        desc: right,
        lease,
        table,
    })
}

impl RightStart {
    /// The parts, as a replica begins with them. It takes no memory, and nothing is copied.
    pub fn into_parts(self) -> (Desc, Lease, Table)
        ensures { self ≡ record {
          desc = result.0;
          lease = result.1;
          lai = 0;
          table = result.2.map;
        } }
    {
        let RightStart { desc, lease, table } = self;
        (desc, lease, table)
    }

    /// The range's description.
    pub fn desc(&self) -> Desc
        ensures { result ≡ self.now.desc }
    {
        self.desc
    }

    /// The range's lease.
    pub fn lease(&self) -> Lease
        ensures { result ≡ self.now.lease }
    {
        self.lease
    }

    /// The rows.
    pub fn table(&self) -> &Table
        ensures { result.now.map ≡ self.now.table }
    {
        &self.table
    }
}
