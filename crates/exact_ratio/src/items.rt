//! Lists: vectors that contracts see as plain lists.
ghost use Rattle.std.specs.Prelude.{◌≡◌, length, option_copied, slice_get};

use std::marker::Model;

/// Several values in order. Contracts see them as a list.
#[derive(Drop)]
pub struct Items<T> {
    all: Vec<T>,
}

impl<T> Model for Items<T> {
    ghost use Rattle.std.specs.Prelude.{List};

    ghost Value = { List T };

    ghost view = { λ s. s.all.items };
}

impl<T> Items<T> {
    /// The values of a vector, which is taken over and not copied.
    pub fn of(all: Vec<T>) -> Items<T>
        ensures { result ≡ all.items }
    {
        Items { all }
    }

    /// The values as a vector again, with no memory taken.
    pub fn into_vec(self) -> Vec<T>
        ensures { result.items ≡ self }
    {
        self.all
    }

    /// The values as a slice.
    pub fn as_slice(&self) -> &[T]
        ensures { result.now ≡ self.now }
    {
        self.all.as_slice()
    }

    /// The value at a place, counted from 0; `None` exactly where the list ends before it.
    pub fn get(&self, index: usize) -> Option<&T>
        ensures { option_copied result ≡ slice_get self.now index }
    {
        self.all.as_slice().get(index)
    }

    /// How many values there are.
    pub fn len(&self) -> usize
        ensures { result ≡ length self.now }
    {
        self.all.len()
    }

    /// Whether there is none.
    pub fn is_empty(&self) -> bool
        ensures { result ≡ Rattle.std.specs.Prelude.nat_eq (length self.now) 0 }
    {
        self.all.is_empty()
    }
}
