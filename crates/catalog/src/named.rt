//! Whatever has a name in a list, and the search for a name: one search for layers, grids, styles and plain names.
ghost use Rattle.std.specs.Prelude.{◌≡◌, ◌≤◌, ◌^◌, ℕ, List, length};
ghost use Rattle.catalog.specs.Names.{is_taken, place_named};

use exact_ratio::Words;

/// What has a name among its like, as a grid, a layer or a style.
pub trait Named: Sized {
    ghost name: { Self → List ℕ };

    /// The bytes of the name.
    fn name(&self) -> &[u8]
        ensures { result.now ≡ name self.now };
}

impl Named for Words {
    ghost name = { λ w. w };

    fn name(&self) -> &[u8] {
        self.bytes()
    }
}

/// Whether one of the entries has this name.
pub fn is_taken<T: Named>(entries: &[T], name: &[u8]) -> bool
    ensures { result ≡ is_taken T.name entries.now name.now }
{
    for entry in entries {
        if entry.name() == name {
            return true;
        }
    }
    false
}

/// The first place whose entry has this name; `None` exactly where none has it.
pub fn place_named<T: Named>(entries: &[T], name: &[u8]) -> Option<u32>
    requires { length entries.now ≤ 2 ^ 32 }
    ensures { result ≡ place_named T.name entries.now name.now }
{
    for (i, entry) in entries.iter().enumerate() {
        if entry.name() == name {
            return Some(i as u32);
        }
    }
    None
}
