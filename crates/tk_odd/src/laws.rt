//! What holds of the definitions by themselves. These functions do nothing: their contracts are the laws.
ghost use Rattle.tk_odd.specs.Charging as charging;
ghost use Rattle.std.specs.Prelude.{◌≡◌, ℕ, List, false, None, Some};
ghost use Rattle.std.specs.List.{list_any};
ghost use Rattle.tk_odd.specs.Sharing as spec;
ghost use Rattle.tk_odd.specs.Span as spans;
ghost use Rattle.tk_stream.specs.Tables.{TablesView};

use crate::moved::Moved;

/// Of no step more is shared out than was waited.
pub fn conserves(_moved: &[Moved])
    ensures { spec.Conserves _moved.now }
{}

/// What the tasks of a step are charged with, what was waited in the queue, and what is nobody's are together what was waited, to the nanosecond.
pub fn splits(_long: u64, _time: u64, _now: u64, _moved: &[Moved])
    ensures { charging.Splits _long _time _now _moved.now }
{}

/// A stream ends with each span of it. A span begins with a line at or before its moment, if lines are left out, and all that follows is later.
pub fn a_stream_ends_with_its_span()
    ensures { (since : ℕ) (shown : List TablesView) → spans.EndsWith since shown (spans.span_of (Some since) shown) }
{}

/// A span since before the first line is the whole stream. So is one since no moment.
pub fn a_span_since_before_all_is_all()
    ensures before { (since : ℕ) (shown : List TablesView) → list_any (spans.is_by since) shown ≡ false → spans.span_of (Some since) shown ≡ shown }
    ensures none { (shown : List TablesView) → spans.span_of None shown ≡ shown }
{}
