//! What the seats of a switch know.
use std::marker::Model;

/// What a seat knows: a value of proofs alone, of which none is made.
pub struct Known {
    _none: bool,
}

impl Model for Known {
    ghost use Rattle.std.specs.Coded.{codes};
    ghost use Rattle.rp_base.specs.Tables.{table_code};
    ghost use Rattle.rp_switch.specs.Views.{Knowledge, nothing_known};

    ghost Value = { Knowledge };

    ghost coded = { Prim.hlevel (codes, table_code) };

    ghost view = { λ _. nothing_known };
}
