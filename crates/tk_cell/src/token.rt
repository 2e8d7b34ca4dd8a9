//! The right to make calls as one caller.
ghost use Rattle.std.specs.Prelude.{◌≡◌};

use crate::part::Part;
use crossbeam_utils::atomic::seq_cell::Pass;
use std::marker::Model;
use tk_core::Sequential;

/// The right to make calls on one ledger as one caller. Contracts see its ledger and its view.
#[derive(Drop)]
pub struct Token<O: Sequential> {
    pub(crate) caller: u64,
    pub(crate) pass: Pass<[u64; 16], Part<O, O::Call, O::Reply>>,
}

impl<O: Sequential> Model for Token<O> {
    ghost use Rattle.crossbeam_utils.specs.Seq.{cell_view};
    ghost use Rattle.tk_cell.specs.Views.{Known, known};
    ghost use Rattle.tk_cell.specs.Parts.{view_of, IsSettled};

    ghost Value = { Known O O.Call O.Reply };

    ghost view = { λ t. known t.pass.table_id (view_of (cell_view t.pass)) };

    ghost invariant = { λ t. IsSettled t.caller (cell_view t.pass) };
}

impl<O: Sequential> Token<O> {
    /// The number of its caller.
    pub fn caller(&self) -> u64
        ensures { result ≡ self.now.view.caller }
    {
        self.caller
    }
}

/// What a token had seen when it told of it. No call is made by it. Contracts see its ledger, and the view without numbers.
#[derive(Drop)]
pub struct Seen<O: Sequential> {
    pub(crate) pass: Pass<[u64; 16], Part<O, O::Call, O::Reply>>,
}

impl<O: Sequential> Model for Seen<O> {
    ghost use Rattle.std.specs.Prelude.{◌≡◌, []};
    ghost use Rattle.crossbeam_utils.specs.Seq.{cell_view};
    ghost use Rattle.tk_cell.specs.Views.{Known, known};
    ghost use Rattle.tk_cell.specs.Parts.{view_of, IsTold};

    ghost Value = { Known O O.Call O.Reply };

    ghost view = { λ t. known t.pass.table_id (view_of (cell_view t.pass)) };

    ghost invariant = { λ t. IsTold (cell_view t.pass) × (t.pass.me.1 ≡ []) };
}
