//! A new table, and its passes.
ghost use Rattle.std.specs.Prelude.{◌≡◌, ◌-◌, ◌≤◌, IfOk, true};
ghost use Rattle.rp_buffer.specs.Hands.{right_at, is_carried};
ghost use Rattle.rp_buffer.specs.Slots.{first};
ghost use Rattle.rp_buffer.specs.Plays.{left, right, both};
ghost use Rattle.rp_buffer.specs.Passes.{known_by, IsPassOf, IsSame};

use crate::flush::FlushPass;
use crate::keeps::{put_together, take_least};
use crate::plays::Part;
use crate::rights::{Keep, Right};
use crate::table::{Pass, SlotTable};
use atomic_table::Table;
use rp_base::{NoMemory, NodeId};
use std::alloc::Global;

impl SlotTable {
    /// Forty open buffers whose places are free, and the first pass, which has all 1,024 parts and
    /// each node's right to collect.
    pub fn new(alloc: Global) -> Result<(SlotTable, Pass), NoMemory>
        ensures { IfOk result (λ r. IsPassOf r.0 r.1 × (known_by r.1 ≡ first 40)) }
    {
        let (table, seat) = Table::vacant(alloc, &[0; 680], 640, &40)?;
        let rights = [Right::Carries([Keep::Open; 8]); 5];
        Ok((SlotTable { table }, Pass { seat, rights }))
    }

    /// A new pass with one of the parts, the least right to collect that the old one carries, with
    /// what it keeps, and empty lists. It takes no memory.
    pub fn split(&self, pass: &mut Pass) -> Pass
        requires of { IsPassOf self.now pass.old }
        requires parts { 2 ≤ (known_by pass.old).parts }
        ensures same { IsSame pass.old pass.new }
        ensures of { IsPassOf self.now result }
        ensures old { known_by pass.new ≡ left (known_by pass.old) }
        ensures new { known_by result ≡ right (known_by pass.old) }
    {
        let seat = self.table.shared.split_seat::<Part>(&mut pass.seat);
        let rights = take_least(&mut pass.rights);
        Pass { seat, rights }
    }

    /// Adds another pass's parts, lists and rights to this one. It takes no memory.
    pub fn join(&self, pass: &mut Pass, other: Pass)
        requires of { IsPassOf self.now pass.old }
        requires other { IsPassOf self.now other }
        ensures same { IsSame pass.old pass.new }
        ensures both { known_by pass.new ≡ both (known_by pass.old) (known_by other) }
    {
        let Pass { seat, rights } = other;
        self.table.shared.join_seat::<Part>(&mut pass.seat, seat);
        put_together(&mut pass.rights, &rights);
    }

    /// A pass for a node's flushes. The pass carries that node's right to collect, which is there
    /// once, so the node has no other. It keeps its parts, lists and rights.
    pub fn flusher(&self, pass: Pass, node: NodeId) -> FlushPass
        requires of { IsPassOf self.now pass }
        requires carries { is_carried (right_at (known_by pass).rights (node - 1)) ≡ true }
        ensures pass { result.pass ≡ pass }
        ensures node { result.node ≡ node }
    {
        FlushPass { pass, node }
    }

    /// The pass of a node's flushes, as a pass like others, with all that it keeps.
    pub fn retire(&self, pass: FlushPass) -> Pass
        requires of { IsPassOf self.now pass.pass }
        ensures { result ≡ pass.pass }
    {
        let FlushPass { pass, node: _ } = pass;
        pass
    }
}
