//! The number that a token writes.
ghost use Rattle.std.specs.Prelude.{◌≡◌, ◌==◌, MatchOption, Some, option_map, slice_index, drop, if◌then◌else◌};
ghost use Rattle.fast_float.specs.Text.{minus};
ghost use Rattle.serde_json.specs.Read.{number_of, number_from, float_of};
ghost use Rattle.serde_json.specs.View.{number_view};

use fast_float::Numeral;
use serde_json::Number;

/// The number that a token writes: an integer where it fits 64 bits, and otherwise the nearest float. `None` where that is infinite.
#[tactic(auto, unfolding(serde_json::specs::Read::number_of))]
pub(crate) fn number_in(text: &str) -> Option<Number>
    ensures { option_map number_view result ≡ number_of text.now }
{
    let (is_negative, digits) = split_sign(text.as_bytes());
    let numeral = Numeral::scan(digits);
    match integer_in(is_negative, &numeral) {
        Some(number) => Some(number),
        None => Number::from_f64(numeral.to_float::<f64>(is_negative)),
    }
}

// Whether a minus comes first, and what stands after it.
fn split_sign(bytes: &[u8]) -> (bool, &[u8])
    ensures sign { result.0 ≡ (slice_index bytes.now 0 == minus) }
    ensures rest { result.1.now ≡ if result.0 then drop 1 bytes.now else bytes.now }
{
    match bytes {
        [b'-', digits @ ..] => (true, digits),
        digits => (false, digits),
    }
}

// The integer of 64 bits that a numeral is. `-0` is none.
fn integer_in(is_negative: bool, numeral: &Numeral<'_>) -> Option<Number>
    ensures { MatchOption result (number_from is_negative numeral.now ≡ float_of is_negative numeral.now)
        (λ n. number_from is_negative numeral.now ≡ Some (number_view n)) }
{
    if is_negative {
        match numeral.to_i64(true)? {
            0 => None,
            n => Number::from_i128(n as i128),
        }
    } else {
        Number::from_u128(numeral.to_u64()? as u128)
    }
}
