//! A recorder that makes no more offers.
ghost use Rattle.std.specs.Prelude.{◌≡◌, []};
ghost use Rattle.crossbeam_queue.specs.Passes.{view};
ghost use Rattle.tk_events.specs.declared.buffer.view.Role.TheVariants.{Records};
ghost use Rattle.tk_events.specs.Buffer.{returned};
ghost use Rattle.tk_events.specs.Handles.{HasOwnIds};
ghost use Rattle.tk_events.specs.Parts.{retiring, IsAdding, IsRetired};

use crate::buffer::view::View;
use crate::counts::view::View as Count;
use crate::item::Item;
use atomic_table::Seat;
use crossbeam_queue::Pass;
use std::marker::Model;

/// A recorder that makes no more offers. Contracts see its console and what it had offered.
#[derive(Drop)]
pub struct RetiredRecorder {
    pass: Pass<Item, View>,
    seat: Seat<u8, Count>,
}

impl Model for RetiredRecorder {
    ghost use Rattle.tk_events.specs.Handles.{Retiring};
    ghost use Rattle.tk_events.specs.Parts.{retiring, IsRetired};

    ghost Value = { Retiring };

    ghost view = { λ r. retiring r.pass r.seat };

    ghost invariant = { λ r. IsRetired r.pass r.seat };
}

impl RetiredRecorder {
    // What is left of a recorder, by its pass and its seat.
    pub(crate) fn of(pass: Pass<Item, View>, seat: Seat<u8, Count>) -> RetiredRecorder
        requires { IsRetired pass seat }
        ensures { result ≡ retiring pass seat }
    {
        RetiredRecorder { pass, seat }
    }

    pub(crate) fn into_parts(self) -> (Pass<Item, View>, Seat<u8, Count>)
        ensures view { retiring result.0 result.1 ≡ self }
        ensures role { (view result.0).role ≡ Records }
        ensures home { result.0.me.1 ≡ [] }
        ensures own_ids { HasOwnIds (returned (view result.0)) }
        ensures adding { IsAdding result.1.table_id result.1 (view result.0) }
    {
        let RetiredRecorder { pass, seat } = self;
        (pass, seat)
    }
}
