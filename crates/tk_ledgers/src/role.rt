//! As whom a handle makes calls. No value of these types is made.

use tk_core::{OpCall, ResourceCall, TaskCall, TimesCall};

/// A role: the owner's, or that of a caller whose number was answered to a given call.
pub trait Role<C> {
    ghost use Rattle.tk_ledgers.specs.Handles.{Caller};

    ghost role: { Caller C };
}

/// The owner's role.
pub struct Owning {}

impl<C> Role<C> for Owning {
    ghost use Rattle.tk_ledgers.specs.Handles.{owner};

    ghost role = { owner };
}

/// The role of a caller that was cloned: a waker's.
pub struct Waking {}

impl Role<TaskCall> for Waking {
    ghost use Rattle.tk_ledgers.specs.Handles.{made_by};
    ghost use Rattle.tk_core.specs.declared.task.call.TaskCall.TheVariants.{CloneWaker};

    ghost role = { made_by CloneWaker };
}

/// The role of a caller that was enlisted: an inspector's, and a user's.
pub struct Enlisted {}

impl Role<TaskCall> for Enlisted {
    ghost use Rattle.tk_ledgers.specs.Handles.{made_by};
    ghost use Rattle.tk_core.specs.declared.task.call.TaskCall.TheVariants.{Enlist};

    ghost role = { made_by Enlist };
}

impl Role<ResourceCall> for Enlisted {
    ghost use Rattle.tk_ledgers.specs.Handles.{made_by};
    ghost use Rattle.tk_core.specs.declared.resource.call.ResourceCall.TheVariants.{Enlist};

    ghost role = { made_by Enlist };
}

impl Role<OpCall> for Enlisted {
    ghost use Rattle.tk_ledgers.specs.Handles.{made_by};
    ghost use Rattle.tk_core.specs.declared.op.call.OpCall.TheVariants.{Enlist};

    ghost role = { made_by Enlist };
}

impl Role<TimesCall> for Enlisted {
    ghost use Rattle.tk_ledgers.specs.Handles.{made_by};
    ghost use Rattle.tk_core.specs.declared.times.call.TimesCall.TheVariants.{Enlist};

    ghost role = { made_by Enlist };
}
