//! Why a node or a cell is not had.
use rp_base::NodeId;
use std::error::Error;
use std::fmt;

/// The node was taken as the call looked.
#[derive(Clone, Copy, Debug, PartialEq, Eq)]
pub struct Busy {
    pub node: NodeId,
}

/// The client's cell was not empty as the call looked.
#[derive(Clone, Copy, Debug, PartialEq, Eq)]
pub struct CellBusy;

impl fmt::Display for Busy {
    fn fmt<W: fmt::Write>(&self, f: &mut fmt::Formatter<W>) -> fmt::Result {
        write!(f, "node {} is taken", self.node.get())
    }
}

impl Error for Busy {}

impl fmt::Display for CellBusy {
    fn fmt<W: fmt::Write>(&self, f: &mut fmt::Formatter<W>) -> fmt::Result {
        f.write_str("the cell is not empty")
    }
}

impl Error for CellBusy {}
