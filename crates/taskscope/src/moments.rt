//! Moments of a stream, and times, as words say them.
ghost use Rattle.std.specs.Prelude.{◌≡◌};
ghost use Rattle.taskscope.specs.Moments as spec;
ghost use Rattle.taskscope.specs.Requests as requests;

use jiff_fmt::friendly::parse_unsigned_duration;

/// A moment of a stream.
#[derive(Clone, Copy, Debug, PartialEq, Eq)]
pub(crate) enum Moment {
    /// As the stream counts, in nanoseconds.
    At(u64),
    /// So many nanoseconds before the end of the stream.
    BeforeEnd(u64),
}

/// The number that a text writes.
pub(crate) fn number_of(text: &str) -> Option<u64>
    ensures { result ≡ spec.number_of text.now }
{
    match text.parse::<u64>() {
        Ok(number) => Some(number),
        Err(_) => None,
    }
}

/// A span of time that a text says, in nanoseconds: as `100ms`, `12.5s` or `1m 30s`. `None`: it says none, or one of 2^64 or more.
pub(crate) fn time_of(text: &str) -> Option<u64>
    ensures { result ≡ spec.time_of text.now }
{
    match parse_unsigned_duration(text.as_bytes()) {
        Ok(time) => u64::try_from(time.as_nanos()).ok(),
        Err(_) => None,
    }
}

/// The moment that a text names: a number is one as the stream counts, and a span of time, as `12.5s`, is one so long before its end.
pub(crate) fn moment_of(text: &str) -> Option<Moment>
    ensures { result ≡ spec.moment_of text.now }
{
    match number_of(text) {
        Some(number) => Some(Moment::At(number)),
        None => Some(Moment::BeforeEnd(time_of(text)?)),
    }
}

/// The moment so long before the end of a stream that a text says, as `12.5s`.
pub(crate) fn moment_before_end(text: &str) -> Option<Moment>
    ensures { result ≡ requests.moment_before_end text.now }
{
    Some(Moment::BeforeEnd(time_of(text)?))
}

/// The moment so long before another one. Before the first there is none.
pub(crate) fn moment_before(end: u64, span: u64) -> u64
    ensures { result ≡ spec.moment_before end span }
{
    end.saturating_sub(span)
}
