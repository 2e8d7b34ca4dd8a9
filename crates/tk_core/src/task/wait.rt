//! What is counted of a task's waits.

use std::marker::Model;

/// What is counted of a task's waits, scheduled and not polled: up to its last start, wake or close.
#[derive(Clone, Copy, Debug, PartialEq, Eq)]
pub struct Waits {
    /// How long it waited in all, in nanoseconds: of a task that is woken again while it waits, from the wake that scheduled it.
    pub total: u64,
    /// How much of that belongs to its last wait: the one that lasts, or while it is polled the one before that poll. An end of a poll
    /// leaves nothing of it.
    pub so_far: WaitSoFar,
}

/// What was counted of one wait: at most 2^56 - 1 nanoseconds, which are 2.2 years.
#[derive(Clone, Copy, Debug, PartialEq, Eq)]
pub struct WaitSoFar {
    nanos: u64,
}

impl Model for WaitSoFar {
    ghost use Rattle.std.specs.Prelude.{ℕ, ◌^◌, ◌<◌};

    ghost Value = { ℕ };

    ghost view = { λ wait. wait.nanos };

    ghost invariant = { λ wait. wait.nanos < 2 ^ 56 };

    ghost inverse = { λ v. record { nanos = v } };
}

impl WaitSoFar {
    ghost use Rattle.std.specs.Prelude.{◌≡◌, ◌^◌, ◌<◌, nat_lt, Some, None, if◌then◌else◌};
    ghost use Rattle.tk_core.specs.Task.{capped_wait};

    /// A wait of this many nanoseconds: `None` from 2^56 on.
    pub fn new(nanos: u64) -> Option<Self>
        ensures { result ≡ if nat_lt nanos (2 ^ 56) then Some nanos else None }
    {
        if nanos < 1 << 56 {
            Some(WaitSoFar { nanos })
        } else {
            None
        }
    }

    /// A wait of this many nanoseconds, or of 2^56 - 1 where they are more.
    #[inline(always)]
    pub fn capped(nanos: u64) -> Self
        ensures { result ≡ capped_wait nanos }
    {
        WaitSoFar {
            nanos: nanos.min((1 << 56) - 1),
        }
    }

    /// Its nanoseconds.
    #[inline(always)]
    pub fn nanos(self) -> u64
        ensures value { result ≡ self }
        ensures within { result < 2 ^ 56 }
    {
        self.nanos
    }
}
