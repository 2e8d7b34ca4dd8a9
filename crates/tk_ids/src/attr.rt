//! Attributes: values with a name, which calls may change.
ghost use Rattle.std.specs.Prelude.{◌≡◌};
ghost use Rattle.tk_ids.specs.Attributes.{kind_of};

use crate::name::Name;
use std::alloc::AllocError;

/// What kind of value an attribute has.
#[derive(Clone, Copy, Debug, PartialEq, Eq)]
pub enum AttrKind {
    U64,
    Bool,
    I64,
}

/// The value of an attribute.
#[derive(Clone, Copy, Debug, PartialEq, Eq)]
pub enum AttrValue {
    U64(u64),
    Bool(bool),
    /// A number that may be below zero, as a queue's lag.
    I64(i64),
}

impl AttrValue {
    /// The value's kind, which it keeps when it is changed.
    pub fn kind(self) -> AttrKind
        ensures { result ≡ kind_of self }
    {
        match self {
            AttrValue::U64(_) => AttrKind::U64,
            AttrValue::Bool(_) => AttrKind::Bool,
            AttrValue::I64(_) => AttrKind::I64,
        }
    }
}

/// An attribute as its item declares it: with the value that it has first.
#[derive(Debug, Drop, PartialEq, Eq)]
pub struct AttrSpec {
    pub name: Name,
    /// What the value counts, as `bytes`.
    pub unit: Option<Name>,
    pub first: AttrValue,
}

/// What stays of an attribute while its value changes.
#[derive(Debug, Drop, PartialEq, Eq)]
pub struct AttrInfo {
    pub name: Name,
    /// What the value counts, as `bytes`.
    pub unit: Option<Name>,
    pub kind: AttrKind,
}

impl Clone for AttrInfo {
    ghost is_clone = { λ a b. a ≡ b };

    fn clone(&self) -> Result<AttrInfo, AllocError> {
        let name = self.name.clone()?;
        let unit = self.unit.clone()?;
        Ok(AttrInfo {
            name,
            unit,
            kind: self.kind,
        })
    }
}
