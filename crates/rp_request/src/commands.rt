//! Commands: the writes of a request, and what goes into a range's log.
ghost use Rattle.std.specs.Prelude.{◌≡◌, ◌≤◌, ◌<◌, [], ◌∷◌, ◌++◌, length, IfOk, OnOk, OnErr};
ghost use Rattle.rp_base.specs.Limits.{batch_most};

use crate::outcomes::Reply;
use crate::requests::Request;
use rp_base::{CmdId, Key, LeaseAsk, LeaseIndex, LeaseSeq, NoMemory, Seq, Value};
use std::alloc::Global;
use std::marker::Model;

/// One write to a table.
#[derive(Clone, Copy, PartialEq, Eq)]
pub enum Op {
    /// The key gets the value.
    Set { key: Key, value: Value },
    /// The key is taken away.
    Remove { key: Key },
}

/// The writes of one request, in order, at most 16. Contracts see the list.
#[derive(Drop)]
pub struct Batch {
    ops: Vec<Op>,
}

impl Model for Batch {
    ghost use Rattle.std.specs.Prelude.{◌≤◌, List, length};
    ghost use Rattle.rp_base.specs.Limits.{batch_most};
    ghost use Rattle.rp_request.specs.declared.commands.Op.{Op};

    ghost Value = { List Op };

    ghost view = { λ b. b.ops.items };

    ghost invariant = { λ b. length b.ops.items ≤ batch_most };
}

impl Batch {
    /// No writes. It takes no memory.
    pub fn new(alloc: Global) -> Batch
        ensures { result ≡ [] }
    {
        Batch {
            ops: Vec::new(alloc),
        }
    }

    /// The writes of a vector. It takes no memory.
    pub fn from_vec(ops: Vec<Op>) -> Batch
        requires { length ops.items ≤ batch_most }
        ensures { result ≡ ops.items }
    {
        Batch { ops }
    }

    /// The writes as a vector. It takes no memory.
    pub fn into_vec(self) -> Vec<Op>
        ensures ops { result.items ≡ self }
        ensures most { length result.items ≤ batch_most }
    {
        let Batch { ops } = self;
        ops
    }

    /// Puts a write at the end.
    pub fn push(&mut self, op: Op) -> Result<(), NoMemory>
        requires { length self.old < batch_most }
        ensures ok { OnOk result (self.new ≡ self.old ++ op ∷ []) }
        ensures err { OnErr result (self.new ≡ self.old) }
    {
        self.ops.extend_from_slice(std::slice::from_ref(&op))?;
        Ok(())
    }

    /// An equal batch in memory of its own, or want of it.
    pub fn copy(&self) -> Result<Batch, NoMemory>
        ensures { IfOk result (λ b. b ≡ self.now) }
    {
        let ops = Vec::from_slice(*self.ops.allocator(), &self.ops)?;
        Ok(Batch { ops })
    }

    /// The operations, in order.
    pub fn as_slice(&self) -> &[Op]
        ensures ops { result.now ≡ self.now }
        ensures most { length result.now ≤ batch_most }
    {
        &self.ops
    }
}

/// A request that was evaluated: the writes that replicas are to make, and the reply (CockroachDB's
/// replicated commands).
#[derive(Drop)]
pub struct Command {
    pub id: CmdId,
    pub request: Request,
    pub batch: Batch,
    pub reply: Reply,
    /// The lease sequence under which it was evaluated.
    pub seq: LeaseSeq,
    /// It takes effect only where the lease applied index is below this.
    pub max: LeaseIndex,
}

/// What an entry of a range's log carries.
#[derive(Drop)]
pub enum Payload {
    Nothing,
    Write(Command),
    Lease(LeaseAsk),
}

/// A command that waits for a lease index, and the lease sequence under which it was evaluated.
#[derive(Clone, Copy, PartialEq, Eq)]
pub struct Waiting {
    pub id: CmdId,
    pub seq: LeaseSeq,
}

/// The commands that wait for a lease index, each with the lease sequence under which it was evaluated.
pub type WaitList = Seq<Waiting>;
