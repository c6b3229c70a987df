//! The entries of a map of what is kept, a metatile each. A metatile is found by its hash, and taken out by putting the last
//! entry in its place.
ghost use Rattle.std.specs.Option.{option_map};
ghost use Rattle.std.specs.Prelude.{None, Some, if◌then◌else◌, is_some, length, option_copied, slice_get, ◌+◌, ◌<◌, ◌≡◌, ◌≤◌};
ghost use Rattle.cabinet.specs.Fresh.{ApartBy};
ghost use Rattle.cabinet.specs.Ordered.{as_kept, held_at, held_of, recounted};
ghost use Rattle.cabinet.specs.declared.kept.KeptBlob.{KeptBlob};
ghost use Rattle.indexmap.specs.IndexMap.{spare};
ghost use Rattle.metatile_plan.specs.Keys.{same_meta};
ghost use Rattle.metatile_plan.specs.declared.metatile.MetaKey.{MetaKey};

use crate::kept::{Blob, Kept};
use crate::text::Text;
use indexmap::IndexMap;
use metatile_plan::MetaKey;

/// What is held of each metatile that is kept.
pub type Held = IndexMap<MetaKey, Blob>;

/// The metatile that an entry keeps.
pub fn kept_in(meta: &MetaKey, blob: &Blob) -> Kept
    ensures { result ≡ (as_kept (meta.now, blob.now)).kept }
{
    Kept {
        number: blob.number,
        meta: *meta,
        place: blob.place,
        length: blob.length,
        moment: blob.moment,
        uses: blob.uses,
    }
}

/// What is held of a metatile.
pub fn blob_of<'a>(held: &'a Held, meta: &MetaKey) -> Option<&'a Blob>
    ensures { option_map (λ b. as_kept (meta.now, b)) (option_copied result) ≡ held_at (held_of held.now.entries) meta.now }
{
    held.get(meta)
}

/// The metatile at an index.
pub fn kept_at(held: &Held, at: usize) -> Kept
    requires { at < length held.now.entries }
    ensures { (b : KeptBlob) × (result ≡ b.kept) × (slice_get (held_of held.now.entries) at ≡ Some b) × (held_at (held_of held.now.entries) b.kept.meta ≡ Some b) }
{
    let (meta, blob) = held.get_index(at).unwrap();
    kept_in(meta, blob)
}

/// Holds a render in the place of its metatile's older one, and tells whether there was one. It takes no memory.
pub fn put(held: &mut Held, kept: Kept, text: Text) -> bool
    requires { 0 < spare held.old }
    ensures older { result ≡ is_some (held_at (held_of held.old.entries) kept.meta) }
    ensures once { ApartBy (λ b. b.kept.meta) (held_of held.new.entries) }
    ensures held { (m : MetaKey) → held_at (held_of held.new.entries) m ≡ (if same_meta m kept.meta then Some (record { kept = kept; text = text }) else held_at (held_of held.old.entries) m) }
    ensures spare { spare held.old ≤ spare held.new + 1 }
{
    let blob = Blob {
        number: kept.number,
        place: kept.place,
        length: kept.length,
        moment: kept.moment,
        uses: kept.uses,
        text,
    };
    let older = held.insert(kept.meta, blob).unwrap();
    older.is_some()
}

/// Takes what is held of a metatile out.
pub fn drop_of(held: &mut Held, meta: &MetaKey)
    ensures once { ApartBy (λ b. b.kept.meta) (held_of held.new.entries) }
    ensures held { (m : MetaKey) → held_at (held_of held.new.entries) m ≡ (if same_meta m meta.now then None else held_at (held_of held.old.entries) m) }
    ensures spare { spare held.old ≤ spare held.new }
{
    let _dropped = held.swap_remove(meta);
}

/// Sets the uses of a metatile, where it is held. It takes no memory.
pub fn recount(held: &mut Held, meta: &MetaKey, uses: u64)
    ensures once { ApartBy (λ b. b.kept.meta) (held_of held.new.entries) }
    ensures held { (m : MetaKey) → held_at (held_of held.new.entries) m ≡ option_map (recounted meta.now uses) (held_at (held_of held.old.entries) m) }
    ensures spare { spare held.old ≤ spare held.new }
{
    let _count = held.len();
    match held.get_full(meta) {
        None => {}
        Some((at, _, _)) => held[at].uses = uses,
    }
}
