//! Ids of one list of a line.
ghost use Rattle.std.specs.Prelude.{◌≡◌, ◌==◌, true, false, IfOk, IfSome, IfNone, position};
ghost use Rattle.std.specs.List.{list_any};
ghost use Rattle.tk_client.specs.Taking as spec;

use indexmap::IndexSet;
use std::alloc::{AllocError, Global};
use std::marker::Model;

/// Ids of which none stands twice. Each is found with its place at once.
#[derive(Drop)]
pub(crate) struct Ids {
    set: IndexSet<u64>,
}

impl Model for Ids {
    ghost use Rattle.std.specs.Prelude.{◌≡◌, ℕ, List, false};
    ghost use Rattle.tk_client.specs.Taking.{has_twice};

    ghost Value = { List ℕ };

    ghost view = { λ i. i.set.keys };

    ghost invariant = { λ i. has_twice i.set.keys ≡ false };
}

impl Ids {
    /// The ids, or `None` where one stands twice.
    pub(crate) fn new(alloc: Global, ids: &[u64]) -> Result<Option<Ids>, AllocError>
        ensures some { IfOk result (λ found. IfSome found (λ own. own ≡ ids.now)) }
        ensures none { IfOk result (λ found. IfNone found (spec.has_twice ids.now ≡ true)) }
    {
        let mut set = IndexSet::with_capacity(alloc, ids.len())?;
        for id in ids {
            if !set.insert(*id)? {
                return Ok(None);
            }
        }
        Ok(Some(Ids { set }))
    }

    /// The place of an id.
    pub(crate) fn place(&self, id: u64) -> Option<usize>
        ensures place { result ≡ position (λ n. id == n) self.now }
        ensures once { spec.has_twice self.now ≡ false }
    {
        self.set.get_index_of(&id)
    }

    /// Whether an id is there.
    pub(crate) fn has(&self, id: u64) -> bool
        ensures has { result ≡ list_any (λ n. id == n) self.now }
        ensures once { spec.has_twice self.now ≡ false }
    {
        self.set.contains(&id)
    }

    /// The ids, one after the other.
    pub(crate) fn list(&self) -> &[u64]
        ensures list { result.now ≡ self.now }
        ensures once { spec.has_twice self.now ≡ false }
    {
        self.set.as_slice()
    }

    /// The ids as a set.
    pub(crate) fn set(&self) -> &IndexSet<u64>
        ensures { result.now.keys ≡ self.now }
    {
        &self.set
    }
}
