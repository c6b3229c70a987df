//! What callers know of a journal beside its disk.
ghost use Rattle.std.specs.Prelude.{◌≡◌, ◌⊎◌, ◌≤◌, ℕ, IsTrue};
ghost use Rattle.disk_model.specs.Content.{Content, Same, TornWrite, bytes_at};
ghost use Rattle.disk_model.specs.Images.{ChangesBy, Every, Leaves};
ghost use Rattle.gate_journal.specs.Layout.{journal_length};
ghost use Rattle.gate_journal.specs.Opened.{opened, records};
ghost use Rattle.gate_journal.specs.Sound.{IsSettled, IsSound, SameFrom, digest_of, kept, other, slots_of, version_of};
ghost use Rattle.gate_journal.specs.declared.journal.Journal.{Journal};

use disk_model::Disk;

/// Each image of the disk of a settled journal opens to its records, under its version, and each one of any sound journal to them or to what the
/// undecided gate gives. Calls that write behind a settled journal alone leave it as it is, and at each moment an image opens
/// to its records; and calls that change nothing past a journal leave the bytes there. Calls that only read leave each
/// journal as it is, whatever its standing.
pub fn laws_of_journals<D: Disk>()
    ensures settled { (j : Journal) (disk : D) → IsSettled j → IsSound j (D.state disk)
        → Every (D.state disk).may_leave (λ c. opened (digest_of j) (slots_of j) c ≡ records (version_of j) (kept j (D.state disk).seen)) }
    ensures sound { (j : Journal) (disk : D) → IsSound j (D.state disk) → Every (D.state disk).may_leave (λ c.
        (opened (digest_of j) (slots_of j) c ≡ records (version_of j) (kept j (D.state disk).seen))
        ⊎ (opened (digest_of j) (slots_of j) c ≡ other j (D.state disk).seen)) }
    ensures behind { (j : Journal) (at n : ℕ) (old new : D) → IsSettled j → IsTrue (D.told old) → IsSound j (D.state old)
        → journal_length (slots_of j) ≤ at → ChangesBy (TornWrite at n) (D.state old) (D.state new)
        → IsSound j (D.state new) × (kept j (D.state new).seen ≡ kept j (D.state old).seen)
        × Leaves (D.state old) (D.state new) (λ c. opened (digest_of j) (slots_of j) c ≡ records (version_of j) (kept j (D.state old).seen)) }
    ensures past { (slots at n : ℕ) (old new : Content) → journal_length slots ≤ at → SameFrom (journal_length slots) old new
        → bytes_at new at n ≡ bytes_at old at n }
    ensures reads { (j : Journal) (old new : D) → IsSound j (D.state old) → ChangesBy Same (D.state old) (D.state new)
        → IsSound j (D.state new) × (kept j (D.state new).seen ≡ kept j (D.state old).seen)
        × (other j (D.state new).seen ≡ other j (D.state old).seen) }
{}
