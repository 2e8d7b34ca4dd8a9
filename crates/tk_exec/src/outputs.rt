//! What the tasks of a driver gave.
ghost use Rattle.std.specs.Prelude.{◌≡◌};

use std::marker::Model;

/// One output for each task, in order of spawn.
#[derive(Drop)]
pub struct Outputs<T: Drop> {
    list: Vec<T>,
}

impl<T: Drop> Model for Outputs<T> {
    ghost use Rattle.std.specs.Prelude.{List};

    ghost Value = { List T };

    ghost view = { λ o. o.list.items };
}

impl<T: Drop> Outputs<T> {
    /// The outputs of this list. Takes no memory.
    pub fn new(list: Vec<T>) -> Outputs<T>
        ensures { result ≡ list.items }
    {
        Outputs { list }
    }

    /// The outputs, that of the task that was spawned first before the others.
    pub fn as_slice(&self) -> &[T]
        ensures { result.now ≡ self.now }
    {
        self.list.as_slice()
    }

    /// Gives the list back, and takes no memory.
    pub fn into_vec(self) -> Vec<T>
        ensures { result.items ≡ self }
    {
        self.list
    }
}
