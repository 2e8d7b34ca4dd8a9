//! What a handle of a histogram has seen that makes no more calls.
ghost use Rattle.std.specs.Prelude.{◌≡◌};
ghost use Rattle.tk_ledgers.specs.Handles.{sight};

use std::marker::Model;
use tk_cell::Token;
use tk_core::TimesRow;
use tk_ids::TaskId;

/// What a caller of a histogram's ledger has seen, and the numbers that it holds. It makes no more calls.
#[derive(Drop)]
pub struct TimesReceipt {
    id: TaskId,
    token: Token<TimesRow>,
}

impl Model for TimesReceipt {
    ghost use Rattle.tk_ledgers.specs.Handles.{sight};
    ghost use Rattle.tk_ledgers.specs.Times.{TimesSight};

    ghost Value = { TimesSight };

    ghost view = { λ r. sight r.id r.token };
}

impl TimesReceipt {
    pub(crate) fn new(id: TaskId, token: Token<TimesRow>) -> TimesReceipt
        ensures { result ≡ sight id token }
    {
        TimesReceipt { id, token }
    }

    /// The task whose times they are.
    pub fn task(&self) -> TaskId
        ensures { result ≡ self.now.id }
    {
        self.id
    }

    pub(crate) fn into_token(self) -> Token<TimesRow>
        ensures { result ≡ self.token }
    {
        self.token
    }
}
