//! The last items of a course.
ghost use Rattle.std.specs.Prelude.{◌≡◌, ◌++◌, ◌∷◌, [], List, OnOk};
ghost use Rattle.tk_watch.specs.Lasts.{last_of};

use std::alloc::AllocError;

/// Takes an item more, where so many of the last ones are kept.
pub(crate) fn push_last<T: Drop>(kept: &mut Vec<T>, room: usize, item: T) -> Result<(), AllocError>
    ensures { (items : List T) → kept.old.items ≡ last_of room items → OnOk result (kept.new.items ≡ last_of room (items ++ item ∷ [])) }
{
    kept.push(item)?;
    if kept.len() <= room {
        return Ok(());
    }
    kept.remove(0);
    Ok(())
}
