//! What is kept of a list that is given item by item: every k-th item, and at most 64.
//!
//! `specs/Courses.antt` says which items these are.
ghost use Rattle.std.specs.Prelude.{◌≡◌, ◌≤◌, ◌<◌, ◌*◌, ◌^◌, ◌∷◌, ◌++◌, [], ℕ, List, length, get_or, OnOk, OnErr, IfOk};
ghost use Rattle.tk_paper.specs.Courses as spec;
ghost use Rattle.tk_paper.specs.Courses.{IsCourse};

use std::alloc::{AllocError, Global};
use std::marker::Model;

/// How many items a course keeps at most. It is even.
pub const SAMPLES: usize = 64;

/// Every k-th item of a list, from the first on. Where another item would be the 65th, every second one of them is let go, and
/// k is doubled.
#[derive(Drop)]
pub struct Course<T: Copy> {
    kept: Vec<T>,
    // k.
    every: u64,
    // How many more items come before the next that is kept.
    skip: u64,
}

impl<T: Copy> Model for Course<T> {
    ghost use Rattle.std.specs.Prelude.{◌≤◌};
    ghost use Rattle.tk_paper.specs.Courses.{CourseView};

    ghost Value = { CourseView T };

    ghost view = { λ c. record { kept = c.kept.items; every = c.every; skip = c.skip } };

    ghost invariant = { λ c. 1 ≤ c.every };
}

// Lets every second item go.
fn thin<T: Copy>(kept: &mut Vec<T>)
    requires { length kept.old.items ≡ 64 }
    ensures count { length kept.new.items ≡ 32 }
    ensures each { (d : T) (i : ℕ) → i < 32 → get_or kept.new.items i d ≡ get_or kept.old.items (2 * i) d }
{
    for i in 0usize..32 {
        kept[i] = kept[2 * i];
    }
    kept.truncate(32);
}

impl<T: Copy> Course<T> {
    /// The course of no items. It takes no memory.
    pub fn new(alloc: Global) -> Course<T>
        ensures course { IsCourse [] result }
        ensures none { result ≡ spec.no_items }
    {
        Course {
            kept: Vec::new(alloc),
            every: 1,
            skip: 0,
        }
    }

    /// The items that are kept, in their order.
    pub fn kept(&self) -> &[T]
        ensures { result.now ≡ self.now.kept }
    {
        self.kept.as_slice()
    }

    // Lets every second item go where there is no room for another.
    fn make_room(&mut self)
        requires { self.old.skip ≡ 0 }
        ensures skip { self.new.skip ≡ 0 }
        ensures less { length self.old.kept ≤ 64 → length self.new.kept ≤ 63 }
        ensures is { self.new ≡ spec.with_room self.old }
        ensures same { (xs : List T) → length xs ≤ 2 ^ 62 → IsCourse xs self.old → IsCourse xs self.new }
    {
        if self.kept.len() != SAMPLES {
            return;
        }
        thin(&mut self.kept);
        self.every = self.every.saturating_mul(2);
    }

    /// Takes the next item.
    ///
    /// Where there is no memory for it, this is still the course of the items before.
    pub fn push(&mut self, item: T) -> Result<(), AllocError>
        ensures ok { (xs : List T) → length xs ≤ 2 ^ 62 → IsCourse xs self.old → OnOk result (IsCourse (xs ++ item ∷ []) self.new) }
        ensures err { (xs : List T) → length xs ≤ 2 ^ 62 → IsCourse xs self.old → OnErr result (IsCourse xs self.new) }
        ensures item { OnOk result (self.new ≡ spec.with_item self.old item) }
    {
        if self.skip > 0 {
            self.skip -= 1;
            return Ok(());
        }
        self.make_room();
        self.kept.push(item)?;
        self.skip = self.every - 1;
        Ok(())
    }

    /// Passes over as many of the next items as are not kept, at most so many, and answers how many. What they are doesn't matter, and it costs the
    /// same however many there are.
    pub fn pass(&mut self, most: usize) -> usize
        ensures few { result ≤ most }
        ensures items { (xs : List T) → length xs ≡ result → self.new ≡ spec.with_items self.old xs }
    {
        let passed = self.skip.min(most as u64);
        self.skip -= passed;
        passed as usize
    }

    /// The same course once more.
    pub fn copied(&self, alloc: Global) -> Result<Course<T>, AllocError>
        ensures { IfOk result (λ course. course ≡ self.now) }
    {
        Ok(Course {
            kept: Vec::from_slice(alloc, self.kept.as_slice())?,
            every: self.every,
            skip: self.skip,
        })
    }
}
