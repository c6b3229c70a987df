//! What the sum of a text notices.
ghost use Rattle.std.specs.Prelude.{◌≡◌, ◌≢◌, ◌<◌, ◌/◌, ℕ, List, length, slice_index};
ghost use Rattle.summed_disk.specs.Sum.{part_sum};

/// Of two texts of one length that differ within one word of eight bytes, and not at all but there, each has a sum of its own.
pub fn laws_of_sums()
    ensures noticed { (number from k : ℕ) (xs ys : List ℕ) → length xs ≡ length ys → ((i : ℕ) → slice_index xs i < 256) → ((i : ℕ) → slice_index ys i < 256)
        → ((i : ℕ) → i / 8 ≢ k → slice_index xs i ≡ slice_index ys i) → part_sum number from xs ≡ part_sum number from ys → xs ≡ ys }
{}
