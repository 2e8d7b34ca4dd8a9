//! One call on a resource's row.
ghost use Rattle.tk_core.specs.Fold.{Follows};
ghost use Rattle.tk_core.specs.Resource.{resource_kind};

use crate::attrs::AttrOp;
use crate::limits::MOST_HANDLES;
use crate::reply::{Refusal, Reply};
use crate::resource::{ResourceCall, ResourceRow};

impl ResourceRow {
    /// One call: the next row, and the reply.
    #[inline(always)]
    pub fn step(&self, call: ResourceCall) -> (ResourceRow, Reply<ResourceRow>)
        ensures { Follows resource_kind self.now call result }
    {
        match call {
            ResourceCall::Close(moment) => self.close(moment),
            ResourceCall::Attr(index, op) => self.change(index, op),
            ResourceCall::Enlist => self.enlist(),
            ResourceCall::Read => (*self, Reply::Shown(*self)),
        }
    }

    fn close(&self, moment: u64) -> (ResourceRow, Reply<ResourceRow>)
        ensures { Follows resource_kind self.now (ResourceCall.Close moment) result }
    {
        if self.dropped.is_some() {
            return (*self, Reply::Refused(Refusal::Closed));
        }
        let row = ResourceRow {
            dropped: Some(moment),
            ..*self
        };
        (row, Reply::Done)
    }

    fn change(&self, index: u64, op: AttrOp) -> (ResourceRow, Reply<ResourceRow>)
        ensures { Follows resource_kind self.now (ResourceCall.Attr index op) result }
    {
        if self.dropped.is_some() {
            return (*self, Reply::Refused(Refusal::Closed));
        }
        match self.attrs.changed(index, op) {
            Ok(attrs) => (ResourceRow { attrs, ..*self }, Reply::Done),
            Err(refusal) => (*self, Reply::Refused(refusal)),
        }
    }

    fn enlist(&self) -> (ResourceRow, Reply<ResourceRow>)
        ensures { Follows resource_kind self.now ResourceCall.Enlist result }
    {
        if self.handles == MOST_HANDLES {
            return (*self, Reply::Refused(Refusal::HandlesSpent));
        }
        let handles = self.handles.saturating_add(1);
        let row = ResourceRow { handles, ..*self };
        (row, Reply::Number(handles))
    }
}
