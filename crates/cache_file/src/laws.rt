//! What callers know of the file of a cache between two calls.
ghost use Rattle.std.specs.Prelude.{◌≡◌, ◌⊎◌, ◌≤◌, length};
ghost use Rattle.cache_file.specs.File.{held, opens_to, unsure};
ghost use Rattle.cache_file.specs.declared.file.CacheFile.{CacheFile};
ghost use Rattle.disk_model.specs.Images.{Every};
ghost use Rattle.gate_journal.specs.Sound.{IsSettled, IsSound};

use disk_model::Disk;

/// Each image of the disk of a settled file opens to its records, and each one of any file to them or to what is unsure. Each
/// has the journal whole, so that a file that is opened from it agrees with it.
pub fn laws_of_files<D: Disk>()
    ensures settled { (f : CacheFile D) → IsSettled f.journal → IsSound f.journal (D.state f.disk)
        → Every (D.state f.disk).may_leave (λ c. opens_to f.journal c ≡ held f.journal (D.state f.disk)) }
    ensures sound { (f : CacheFile D) → IsSound f.journal (D.state f.disk) → Every (D.state f.disk).may_leave
        (λ c. (opens_to f.journal c ≡ held f.journal (D.state f.disk)) ⊎ (opens_to f.journal c ≡ unsure f.journal (D.state f.disk))) }
    ensures whole { (f : CacheFile D) → IsSound f.journal (D.state f.disk) → Every (D.state f.disk).may_leave (λ c. f.start ≤ length c) }
{}
