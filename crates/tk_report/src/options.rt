//! What of poll times and waits a view shows.
ghost use Rattle.std.specs.Prelude.{◌≡◌};
ghost use Rattle.tk_report.specs.Timed.{no_times};

use tk_client::TimeLimits;

/// What of poll times and waits a view shows beside the rest.
#[derive(Clone, Copy, Debug, PartialEq, Eq)]
pub struct TimesOptions {
    /// Whether a task shows below its own line how long its polls ran and how long it waited, as far as the stream says.
    pub times: bool,
    /// Which polls and waits are long ones, of which their tasks are warned.
    pub limits: TimeLimits,
}

impl TimesOptions {
    /// Nothing of poll times and waits is shown.
    pub fn none() -> TimesOptions
        ensures { result ≡ no_times }
    {
        TimesOptions {
            times: false,
            limits: TimeLimits::none(),
        }
    }
}
