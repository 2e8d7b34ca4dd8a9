//! An event in the buffer, and what the buffer's rule sees of it.
ghost use Rattle.std.specs.Prelude.{◌≡◌};
ghost use Rattle.tk_events.specs.Items.{Agrees};
ghost use Rattle.tk_events.specs.Offers.{item};

use crate::event::{Event, Shown};
use std::marker::Model;

/// An event in the buffer, with its recorder and the number of its offer. Its info and its ledger agree.
#[derive(Drop)]
pub struct Item {
    recorder: u64,
    number: u64,
    event: Event,
}

impl Model for Item {
    ghost use Rattle.tk_events.specs.Items.{Agrees};
    ghost use Rattle.tk_events.specs.Offers.{Item, item};

    ghost Value = { Item };

    ghost view = { λ x. item x.recorder x.number x.event };

    ghost invariant = { λ x. Agrees x.event };
}

impl Item {
    pub fn new(recorder: u64, number: u64, event: Event) -> Item
        requires { Agrees event }
        ensures { result ≡ item recorder number event }
    {
        Item {
            recorder,
            number,
            event,
        }
    }

    pub fn recorder(&self) -> u64
        ensures { result ≡ self.now.recorder }
    {
        self.recorder
    }

    pub fn event(&self) -> &Event
        ensures { result.now ≡ self.now.event }
    {
        &self.event
    }

    pub fn into_event(self) -> Event
        ensures event { result ≡ self.event }
        ensures agrees { Agrees result }
    {
        self.event
    }
}

/// What the buffer's rule sees of an item. No value of it is made.
pub struct Offer {
    pub recorder: u64,
    pub number: u64,
    pub event: Shown,
}
