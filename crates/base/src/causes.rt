//! Counts of faults of what stands outside the program: a disk, a source of pictures, a stream of bytes.
//!
//! Each such object counts its faults, and a call answers a fault only where that count rose. `specs/Causes.antt`
//! has the words in which the clauses of all other crates say so.
//! Promises: `one_more` is the count after one more fault, and a count stays at its last value.
ghost use Rattle.std.specs.Prelude.{◌≡◌};
ghost use Rattle.base.specs.Causes.{risen};

/// The count after one more fault. It stays at its last value, 2^64 - 1.
pub fn one_more(count: u64) -> u64
    ensures { result ≡ risen count 1 }
{
    count.saturating_add(1)
}
