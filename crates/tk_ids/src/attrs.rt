//! Lists of attributes: at most 6, and no two of one name.
ghost use Rattle.std.specs.Prelude.{◌≡◌, ◌≢◌, ◌≤◌, ◌↔◌, ℕ, List, length, map, true, if◌then◌else◌, IsOk, AllPairs};
ghost use Rattle.std.specs.List.{list_any};
ghost use Rattle.std.specs.Str.{bytes_eq};
ghost use Rattle.tk_ids.specs.Attributes.{are_attributes, are_distinct, spec_names, info_names};

mod compared;

use crate::attr::{AttrInfo, AttrSpec};
use crate::error::IdError;
use crate::name::Name;
use std::alloc::AllocError;
use std::marker::Model;

/// How many attributes an item has at most.
pub const MOST_ATTRIBUTES: usize = 6;

/// What a list of attributes tells apart by name.
trait Named {
    ghost name_of: { Self → List ℕ };

    fn name(&self) -> &Name
        ensures { result.now ≡ name_of self.now };
}

impl Named for AttrSpec {
    ghost name_of = { λ a. a.name };

    fn name(&self) -> &Name {
        &self.name
    }
}

impl Named for AttrInfo {
    ghost name_of = { λ a. a.name };

    fn name(&self) -> &Name {
        &self.name
    }
}

fn is_used<T: Named>(name: &Name, list: &[T]) -> bool
    ensures { result ≡ list_any (λ other. bytes_eq name.now (T.name_of other)) list.now }
{
    list.iter().any(|other| name == other.name())
}

fn are_distinct<T: Named>(list: &[T]) -> bool
    ensures { result ≡ are_distinct (map T.name_of list.now) }
{
    match list {
        [] => true,
        [first, rest @ ..] => !is_used(first.name(), rest) && are_distinct(rest),
    }
}

fn are_attributes<T: Named>(list: &[T]) -> bool
    ensures { result ≡ are_attributes (map T.name_of list.now) }
{
    list.len() <= MOST_ATTRIBUTES && are_distinct(list)
}

/// The attributes that an item declares: at most 6, with distinct names.
#[derive(Debug, Drop)]
pub struct Attrs {
    list: Vec<AttrSpec>,
}

impl Model for Attrs {
    ghost use Rattle.std.specs.Prelude.{◌≡◌, List, true};
    ghost use Rattle.tk_ids.specs.declared.attr.AttrSpec.{AttrSpec};
    ghost use Rattle.tk_ids.specs.Attributes.{are_attributes, spec_names};

    ghost Value = { List AttrSpec };

    ghost view = { λ a. a.list.items };

    ghost invariant = { λ a. are_attributes (spec_names a.list.items) ≡ true };
}

impl Attrs {
    /// The attributes of this list.
    ///
    /// `BadAttributes` where they are more than 6 or two have the same name. The list then comes back.
    pub fn new(list: Vec<AttrSpec>) -> Result<Attrs, (IdError, Vec<AttrSpec>)>
        ensures attrs { result ≡ if are_attributes (spec_names list.items)
            then Ok list.items else Err (IdError.BadAttributes, list) }

        // the same in words: the list is short enough, and no name is equal to a later one
        ensures rule { IsOk result ↔
            ((length list.items ≤ 6) × AllPairs (λ a b. a ≢ b) (spec_names list.items)) }
    {
        if are_attributes(list.as_slice()) {
            Ok(Attrs { list })
        } else {
            Err((IdError::BadAttributes, list))
        }
    }

    /// The attributes, in the order in which they were declared.
    pub fn as_slice(&self) -> &[AttrSpec]
        ensures list { result.now ≡ self.now }
        ensures attrs { are_attributes (spec_names result.now) ≡ true }
    {
        self.list.as_slice()
    }

    /// The list of the attributes.
    pub fn into_vec(self) -> Vec<AttrSpec>
        ensures list { result.items ≡ self }
        ensures attrs { are_attributes (spec_names result.items) ≡ true }
    {
        self.list
    }
}

/// What stays of an item's attributes while their values change: at most 6, with distinct names.
#[derive(Debug, Drop)]
pub struct AttrInfos {
    list: Vec<AttrInfo>,
}

impl Model for AttrInfos {
    ghost use Rattle.std.specs.Prelude.{◌≡◌, List, true};
    ghost use Rattle.tk_ids.specs.declared.attr.AttrInfo.{AttrInfo};
    ghost use Rattle.tk_ids.specs.Attributes.{are_attributes, info_names};

    ghost Value = { List AttrInfo };

    ghost view = { λ a. a.list.items };

    ghost invariant = { λ a. are_attributes (info_names a.list.items) ≡ true };
}

impl AttrInfos {
    /// The attributes of this list.
    ///
    /// `BadAttributes` where they are more than 6 or two have the same name. The list then comes back.
    pub fn new(list: Vec<AttrInfo>) -> Result<AttrInfos, (IdError, Vec<AttrInfo>)>
        ensures attrs { result ≡ if are_attributes (info_names list.items)
            then Ok list.items else Err (IdError.BadAttributes, list) }

        // the same in words: the list is short enough, and no name is equal to a later one
        ensures rule { IsOk result ↔
            ((length list.items ≤ 6) × AllPairs (λ a b. a ≢ b) (info_names list.items)) }
    {
        if are_attributes(list.as_slice()) {
            Ok(AttrInfos { list })
        } else {
            Err((IdError::BadAttributes, list))
        }
    }

    /// The attributes, in the order in which they were declared.
    pub fn as_slice(&self) -> &[AttrInfo]
        ensures list { result.now ≡ self.now }
        ensures attrs { are_attributes (info_names result.now) ≡ true }
    {
        self.list.as_slice()
    }

    /// The list of the attributes.
    pub fn into_vec(self) -> Vec<AttrInfo>
        ensures list { result.items ≡ self }
        ensures attrs { are_attributes (info_names result.items) ≡ true }
    {
        self.list
    }
}

impl Clone for AttrInfos {
    ghost is_clone = { λ a b. a ≡ b };

    fn clone(&self) -> Result<AttrInfos, AllocError> {
        let list = self.list.clone()?;
        Ok(AttrInfos { list })
    }
}
