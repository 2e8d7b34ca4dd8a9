//! Changes of attributes.

use crate::reply::Refusal;
use tk_ids::AttrValue;

/// A change of an attribute, with a value of the attribute's kind. A `Bool` is only overridden.
#[derive(Clone, Copy, Debug, PartialEq, Eq)]
pub enum AttrOp {
    /// The value is added. Refused with `OutOfRange` where the sum leaves the kind's numbers: from 0 to 2^64 - 1, or of signed
    /// ones from -2^63 to 2^63 - 1.
    Add(AttrValue),
    /// The value is taken away. Refused with `OutOfRange` where the difference leaves the kind's numbers, as of `Add`.
    Sub(AttrValue),
    /// The value takes the place of the attribute's.
    Override(AttrValue),
}

impl AttrOp {
    ghost use Rattle.std.specs.Prelude.{◌≡◌, MatchResult};
    ghost use Rattle.tk_core.specs.Attributes.{refused_change};
    ghost use Rattle.tk_core.specs.Laws.AttributeSteps.{changed_value};

    /// The value after this change, or why the value refuses it.
    pub(crate) fn applied_to(self, value: AttrValue) -> Result<AttrValue, Refusal>
        ensures { MatchResult result (λ next. (refused_change value self ≡ None) × (next ≡ changed_value self value)) (λ refusal. refused_change value self ≡ Some refusal) }
    {
        match (value, self) {
            (AttrValue::U64(n), AttrOp::Add(AttrValue::U64(by))) => match n.checked_add(by) {
                Some(sum) => Ok(AttrValue::U64(sum)),
                None => Err(Refusal::OutOfRange),
            },
            (AttrValue::U64(n), AttrOp::Sub(AttrValue::U64(by))) => match n.checked_sub(by) {
                Some(rest) => Ok(AttrValue::U64(rest)),
                None => Err(Refusal::OutOfRange),
            },
            (AttrValue::U64(_), AttrOp::Override(AttrValue::U64(n))) => Ok(AttrValue::U64(n)),
            (AttrValue::Bool(_), AttrOp::Override(AttrValue::Bool(b))) => Ok(AttrValue::Bool(b)),
            (AttrValue::I64(n), AttrOp::Add(AttrValue::I64(by))) => match n.checked_add(by) {
                Some(sum) => Ok(AttrValue::I64(sum)),
                None => Err(Refusal::OutOfRange),
            },
            (AttrValue::I64(n), AttrOp::Sub(AttrValue::I64(by))) => match n.checked_sub(by) {
                Some(rest) => Ok(AttrValue::I64(rest)),
                None => Err(Refusal::OutOfRange),
            },
            (AttrValue::I64(_), AttrOp::Override(AttrValue::I64(n))) => Ok(AttrValue::I64(n)),
            _ => Err(Refusal::WrongKind),
        }
    }
}
