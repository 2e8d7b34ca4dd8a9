//! What a handle of a resource has seen that makes no more calls.
ghost use Rattle.std.specs.Prelude.{◌≡◌};
ghost use Rattle.tk_ledgers.specs.Handles.{sight};

use std::marker::Model;
use tk_cell::Token;
use tk_core::ResourceRow;
use tk_ids::ResourceId;

/// What a caller of a resource's ledger has seen, and the numbers that it holds. It makes no more calls.
#[derive(Drop)]
pub struct ResourceReceipt {
    id: ResourceId,
    token: Token<ResourceRow>,
}

impl Model for ResourceReceipt {
    ghost use Rattle.tk_ledgers.specs.Handles.{sight};
    ghost use Rattle.tk_ledgers.specs.Resources.{ResourceSight};

    ghost Value = { ResourceSight };

    ghost view = { λ r. sight r.id r.token };
}

impl ResourceReceipt {
    pub(crate) fn new(id: ResourceId, token: Token<ResourceRow>) -> ResourceReceipt
        ensures { result ≡ sight id token }
    {
        ResourceReceipt { id, token }
    }

    /// The resource.
    pub fn resource(&self) -> ResourceId
        ensures { result ≡ self.now.id }
    {
        self.id
    }

    pub(crate) fn into_token(self) -> Token<ResourceRow>
        ensures { result ≡ self.token }
    {
        self.token
    }
}
