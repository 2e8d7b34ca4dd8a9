//! Ids: `recorder * 2^40 + n`, with a recorder of 1 to 64 and the number `n` of the item among those of its kind.
//!
//! Tasks, resources and async operations have ids of their own, as in tokio-console, and each kind counts its own `n`
//! from 1 to 2^40 - 1. An id is printed `recorder.n`.
ghost use Rattle.std.specs.Prelude.{◌≡◌, ⊤, nat_eq, true, Some, if◌then◌else◌};
ghost use Rattle.std.specs.Cmp.Rules.{comparing, hashing};
ghost use Rattle.std.specs.Fmt.{DisplaysOnOk};
ghost use Rattle.std.specs.Hash as fed;
ghost use Rattle.std.proofs.Common.{rules};
ghost use Rattle.tk_ids.specs.Ids.{is_id, id_of, recorder_of, number_of, id_text};

use crate::error::IdError;
use std::alloc::AllocError;
use std::fmt;
use std::hash::{Hash, Hasher};
use std::marker::{Model, PhantomData};

/// How many recorders there are at most, numbered from 1.
pub const MOST_RECORDERS: u64 = 64;

fn is_id(value: u64) -> bool
    ensures { result ≡ is_id value }
{
    let recorder = value >> 40;
    1 <= recorder && recorder <= MOST_RECORDERS && 1 <= value % (1 << 40)
}

fn parts_of(id: u64) -> (u64, u64)
    ensures { result ≡ (recorder_of id, number_of id) }
{
    (id >> 40, id % (1 << 40))
}

fn write_id<W: fmt::Write>(id: u64, f: &mut fmt::Formatter<W>) -> fmt::Result
    ensures { DisplaysOnOk W.write_str_gives f.old result (Some (id_text id)) f.new }
{
    let (recorder, number) = parts_of(id);
    write!(f, "{recorder}.{number}")
}

/// The id of an item of kind `K`, as [`TaskId`] is the id of a task.
#[derive(Debug)]
pub struct Id<K> {
    value: u64,
    kind: PhantomData<K>,
}

/// The kind of a task's id.
#[derive(Debug)]
pub struct OfTask;

/// The kind of a resource's id.
#[derive(Debug)]
pub struct OfResource;

/// The kind of an async operation's id.
#[derive(Debug)]
pub struct OfAsyncOp;

/// The id of a task.
pub type TaskId = Id<OfTask>;

/// The id of a resource.
pub type ResourceId = Id<OfResource>;

/// The id of an async operation.
pub type AsyncOpId = Id<OfAsyncOp>;

impl<K> Model for Id<K> {
    ghost use Rattle.std.specs.Prelude.{◌≡◌, ℕ, true};
    ghost use Rattle.tk_ids.specs.Ids.{is_id};

    ghost Value = { ℕ };

    ghost view = { λ id. id.value };

    ghost invariant = { λ id. is_id id.value ≡ true };

    ghost inverse = { λ v. record { value = v; kind = record {} } };
}

impl<K> Id<K> {
    /// The id with this value, or `BadId` where no id has it.
    pub fn from_value(value: u64) -> Result<Id<K>, IdError>
        ensures { result ≡ if is_id value then Ok value else Err IdError.BadId }
    {
        if is_id(value) {
            Ok(Id {
                value,
                kind: PhantomData,
            })
        } else {
            Err(IdError::BadId)
        }
    }

    /// The id as one number.
    pub fn value(self) -> u64
        ensures value { result ≡ self }
        ensures id { is_id result ≡ true }
        ensures sum { result ≡ id_of (recorder_of result) (number_of result) }
    {
        self.value
    }

    /// The recorder, and the number among its items of this kind.
    pub fn parts(self) -> (u64, u64)
        ensures { result ≡ (recorder_of self, number_of self) }
    {
        parts_of(self.value)
    }
}

// Copies and `==` are written out, since derived ones would ask all of it of the kind.
impl<K> Clone for Id<K> {
    ghost is_clone = { λ x y. y ≡ x };

    ghost is_infallible = { λ _. ⊤ };

    fn clone(&self) -> Result<Id<K>, AllocError> {
        Ok(Id {
            value: self.value,
            kind: PhantomData,
        })
    }
}

impl<K> Copy for Id<K> {}

impl<K> PartialEq for Id<K> {
    ghost eq = { nat_eq };

    ghost laws = { Prim.search (comparing, rules) };

    fn eq(&self, other: &Id<K>) -> bool {
        self.value == other.value
    }
}

impl<K> Eq for Id<K> {
    ghost laws = { Prim.search (comparing, rules) };
}

impl<K> Hash for Id<K> {
    ghost hash_input = { fed.u64 };

    ghost respects_eq = { Prim.search (hashing, rules) };

    fn hash<H: Hasher>(&self, state: &mut H) {
        self.value.hash(state)
    }
}

/// `recorder.n`, as `1.7`.
impl<K> fmt::Display for Id<K> {
    ghost output = { λ id. Some (id_text id) };

    fn fmt<W: fmt::Write>(&self, f: &mut fmt::Formatter<W>) -> fmt::Result {
        write_id(self.value, f)
    }
}
