//! What a handle of an operation has seen that makes no more calls.
ghost use Rattle.std.specs.Prelude.{◌≡◌};
ghost use Rattle.tk_ledgers.specs.Handles.{sight};

use std::marker::Model;
use tk_cell::Token;
use tk_core::OpRow;
use tk_ids::AsyncOpId;

/// What a caller of an operation's ledger has seen, and the numbers that it holds. It makes no more calls.
#[derive(Drop)]
pub struct OpReceipt {
    id: AsyncOpId,
    token: Token<OpRow>,
}

impl Model for OpReceipt {
    ghost use Rattle.tk_ledgers.specs.Handles.{sight};
    ghost use Rattle.tk_ledgers.specs.Ops.{OpSight};

    ghost Value = { OpSight };

    ghost view = { λ r. sight r.id r.token };
}

impl OpReceipt {
    pub(crate) fn new(id: AsyncOpId, token: Token<OpRow>) -> OpReceipt
        ensures { result ≡ sight id token }
    {
        OpReceipt { id, token }
    }

    /// The operation.
    pub fn op(&self) -> AsyncOpId
        ensures { result ≡ self.now.id }
    {
        self.id
    }

    pub(crate) fn into_token(self) -> Token<OpRow>
        ensures { result ≡ self.token }
    {
        self.token
    }
}
