//! Texts, breaks and matrices that are compared.
ghost use Rattle.std.specs.Prelude.{◌≡◌, ◌↔◌, true, slice_get};

use catalog::Break;
use exact_ratio::Words;
use matrix_geometry::Matrix;

/// Whether two texts are one.
pub fn is_same_text(old: &Words, new: &Words) -> bool
    ensures { (result ≡ true) ↔ (new.now ≡ old.now) }
{
    new.bytes() == old.bytes()
}

/// Whether the value of this number is the same text in both lists, or neither has one.
pub fn is_same_value(old: &[Words], new: &[Words], number: u32) -> bool
    ensures { (result ≡ true) ↔ (slice_get new.now number ≡ slice_get old.now number) }
{
    match old.get(number as usize) {
        None => (number as usize) >= new.len(),
        Some(text) => match new.get(number as usize) {
            None => false,
            Some(other) => is_same_text(text, other),
        },
    }
}

fn is_same_break(old: &Break, new: &Break) -> bool
    ensures { (result ≡ true) ↔ (new.now ≡ old.now) }
{
    *new == *old
}

/// Whether two lists of breaks are one.
pub fn are_same_breaks(old: &[Break], new: &[Break]) -> bool
    ensures { (result ≡ true) ↔ (new.now ≡ old.now) }
{
    if old.len() != new.len() {
        return false;
    }
    'comparing: for at in 0..old.len() {
        if !is_same_break(&old[at], &new[at]) {
            return false;
        }
    }
    true
}

/// Whether two matrices are one.
pub fn is_same_matrix(old: &Matrix, new: &Matrix) -> bool
    ensures { (result ≡ true) ↔ (new.now ≡ old.now) }
{
    *new == *old
}
