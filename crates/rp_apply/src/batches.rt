//! The writes of a batch, made on a table.
ghost use Rattle.std.specs.Prelude.{◌≡◌, ◌+◌, ◌≤◌, length};
ghost use Rattle.rp_request.specs.Batches.{write, write_all};

use rp_request::Op;
use rp_table::Table;

/// Makes one write, without memory.
fn write(table: &mut Table, op: Op)
    requires { 1 ≤ table.old.spare }
    ensures map { table.new.map ≡ write table.old.map op }
    ensures spare { table.old.spare ≤ table.new.spare + 1 }
{
    match op {
        Op::Set { key, value } => table.write_one(key, value),
        Op::Remove { key } => table.remove_one(key),
    }
}

/// Makes the writes in their order, without memory.
pub fn write_all(table: &mut Table, ops: &[Op])
    requires { length ops.now ≤ table.old.spare }
    ensures map { table.new.map ≡ write_all table.old.map ops.now }
    ensures spare { table.old.spare ≤ table.new.spare + length ops.now }
{
    for op in ops {
        write(table, *op);
    }
}
