//! The numbers of what is kept, each with the place of the record that keeps it among all records. A number is found by its hash.
ghost use Rattle.std.specs.Prelude.{None, Some, if◌then◌else◌, ℕ, ◌+◌, ◌<◌, ◌==◌, ◌≡◌, ◌≤◌};
ghost use Rattle.cabinet_records.specs.Placed.{place_in};
ghost use Rattle.cabinet_records.specs.Played.{places_but};
ghost use Rattle.indexmap.specs.IndexMap.{spare};

use cabinet::Kept;
use indexmap::IndexMap;

/// The place of each number that has one.
pub type Places = IndexMap<u64, u64>;

/// The place of a number, `None` where it has none.
pub fn place_of(places: &Places, number: u64) -> Option<u64>
    ensures { result ≡ place_in places.now.entries number }
{
    match places.get(&number) {
        None => None,
        Some(place) => Some(*place),
    }
}

/// Gives a number a place. It takes no memory.
pub fn put_place(places: &mut Places, number: u64, place: u64)
    requires { 0 < spare places.old }
    ensures places { (n : ℕ) → place_in places.new.entries n ≡ (if number == n then Some place else place_in places.old.entries n) }
    ensures spare { spare places.old ≤ spare places.new + 1 }
{
    let _older = places.insert(number, place).unwrap();
}

/// Takes the place of a number from it.
pub fn drop_place(places: &mut Places, number: u64)
    ensures places { (n : ℕ) → place_in places.new.entries n ≡ (if number == n then None else place_in places.old.entries n) }
    ensures spare { spare places.old ≤ spare places.new }
{
    let _dropped = places.swap_remove(&number);
}
