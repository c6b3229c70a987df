//! The entries of a map of metatiles, and which of two goes first.
ghost use Rattle.std.specs.Prelude.{IfSome, None, Some, if◌then◌else◌, is_some, length, ℕ, ◌+◌, ◌<◌, ◌≡◌, ◌≢◌, ◌≤◌};
ghost use Rattle.expiry_policy.specs.Entries.{goes, use_at, uses_of};
ghost use Rattle.expiry_policy.specs.Layers.{use_in};
ghost use Rattle.indexmap.specs.IndexMap.{spare};
ghost use Rattle.metatile_plan.specs.Keys.{same_meta};
ghost use Rattle.metatile_plan.specs.declared.metatile.MetaKey.{MetaKey};

use crate::order::{Order, precedes};
use crate::uses::Use;
use indexmap::IndexMap;
use metatile_plan::MetaKey;

/// What is counted of a metatile.
#[derive(Clone, Copy, PartialEq, Eq)]
pub struct UseTally {
    /// How often it was used, since it was entered last.
    pub uses: u64,
    /// How many of the uses are saved.
    pub saved: u64,
    /// The count of all entries and uses when it was last entered or used.
    pub last: u64,
}

/// The metatiles of one layer, with what is counted of each.
pub type Held = IndexMap<MetaKey, UseTally>;

/// The use that an entry stands for.
pub fn use_of(meta: &MetaKey, tally: &UseTally) -> Use
    ensures { result ≡ record { meta = meta.now; uses = tally.now.uses; saved = tally.now.saved; last = tally.now.last } }
{
    Use {
        meta: *meta,
        uses: tally.uses,
        saved: tally.saved,
        last: tally.last,
    }
}

/// The use of the entry at an index.
pub fn use_at(held: &Held, at: usize) -> Use
    requires { at < length held.now.entries }
    ensures value { result ≡ use_at held.now.entries at }
    ensures found { use_in (uses_of held.now.entries) result.meta ≡ Some result }
{
    let (meta, tally) = held.get_index(at).unwrap();
    use_of(meta, tally)
}

/// Whether the entry at the first index goes before the one at the second.
pub fn goes_before(order: Order, held: &Held, first: usize, second: usize) -> bool
    requires first { first < length held.now.entries }
    requires second { second < length held.now.entries }
    ensures { result ≡ goes order held.now.entries first second }
{
    precedes(order, &use_at(held, first), &use_at(held, second))
}

/// The index of a metatile, `None` exactly where it is not held.
pub fn index_of(held: &Held, meta: &MetaKey) -> Option<usize>
    ensures variant { is_some result ≡ is_some (use_in (uses_of held.now.entries) meta.now) }
    ensures within { IfSome result (λ at. at < length held.now.entries) }
    ensures meta { IfSome result (λ at. (use_at held.now.entries at).meta ≡ meta.now) }
{
    held.get_index_of(meta)
}

/// Counts the metatile at an index anew.
pub fn change(held: &mut Held, at: usize, entry: &Use)
    requires within { at < length held.old.entries }
    requires meta { (use_at held.old.entries at).meta ≡ entry.now.meta }
    ensures size { length held.new.entries ≡ length held.old.entries }
    ensures others { (i : ℕ) → i ≢ at → use_at held.new.entries i ≡ use_at held.old.entries i }
    ensures uses { (m : MetaKey) → use_in (uses_of held.new.entries) m ≡ (if same_meta m entry.now.meta then Some entry.now else use_in (uses_of held.old.entries) m) }
    ensures spare { spare held.new ≡ spare held.old }
{
    let _count = held.len();
    held[at] = UseTally {
        uses: entry.uses,
        saved: entry.saved,
        last: entry.last,
    };
}

/// Adds a metatile that is not held, as the last entry. It takes no memory.
pub fn add(held: &mut Held, entry: &Use)
    requires room { 0 < spare held.old }
    requires absent { use_in (uses_of held.old.entries) entry.now.meta ≡ None }
    ensures size { length held.new.entries ≡ length held.old.entries + 1 }
    ensures others { (i : ℕ) → i < length held.old.entries → use_at held.new.entries i ≡ use_at held.old.entries i }
    ensures uses { (m : MetaKey) → use_in (uses_of held.new.entries) m ≡ (if same_meta m entry.now.meta then Some entry.now else use_in (uses_of held.old.entries) m) }
    ensures spare { spare held.old ≤ spare held.new + 1 }
{
    let tally = UseTally {
        uses: entry.uses,
        saved: entry.saved,
        last: entry.last,
    };
    held.insert(entry.meta, tally).unwrap();
}

/// Takes the metatile at an index out, and puts the last entry in its place.
pub fn take_out(held: &mut Held, at: usize)
    requires { at < length held.old.entries }
    ensures size { length held.new.entries + 1 ≡ length held.old.entries }
    ensures others { (i : ℕ) → i < length held.new.entries → i ≢ at → use_at held.new.entries i ≡ use_at held.old.entries i }
    ensures uses { (m : MetaKey) → use_in (uses_of held.new.entries) m ≡ (if same_meta m (use_at held.old.entries at).meta then None else use_in (uses_of held.old.entries) m) }
    ensures spare { spare held.old ≤ spare held.new }
{
    let _count = held.len();
    let _taken = held.swap_remove_index(at).unwrap();
}
