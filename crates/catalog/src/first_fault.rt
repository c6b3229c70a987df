//! What the tests of several members share: those of names and quotas, and lists that are tested entry by entry.
ghost use Rattle.std.specs.Prelude.{◌≡◌, ◌<◌, ◌≤◌, ◌^◌, ℕ, List, [], Result, length, ⊤};
ghost use Rattle.catalog.specs.FirstFault.{unless, each, name_test, names_test, quota_test};
ghost use Rattle.catalog.specs.declared.fault.CatalogueFault.{CatalogueFault};

use crate::fault::{CatalogueFault, Field};
use crate::named::{Named, is_taken};
use crate::names::{are_names, are_short, is_name, is_short, within};
use exact_ratio::Words;

/// Refuses with the fault where the test isn't met.
pub fn unless(met: bool, fault: CatalogueFault) -> Result<(), CatalogueFault>
    ensures { result ≡ unless met fault }
{
    if met {
        return Ok(());
    }
    Err(fault)
}

/// Tests an identifier beside those of the entries before.
#[tactic(auto, unfolding(crate::specs::FirstFault::name_test))]
pub fn name_test<T: Named>(
    before: &[T],
    field: Field,
    at: u32,
    name: &[u8],
) -> Result<(), CatalogueFault>
    ensures { result ≡ name_test T.name before.now field at name.now }
{
    unless(is_name(name), CatalogueFault::Bad(field, at))?;
    unless(is_short(name), CatalogueFault::Limit(field, at))?;
    unless(
        !is_taken(before, name),
        CatalogueFault::Duplicate(field, at),
    )
}

/// Tests a list of `low` to `high` names.
#[tactic(auto, unfolding(crate::specs::FirstFault::names_test))]
pub fn names_test(
    low: u64,
    high: u64,
    field: Field,
    at: u32,
    names: &[Words],
) -> Result<(), CatalogueFault>
    ensures { result ≡ names_test low high field at names.now }
{
    unless(are_names(names), CatalogueFault::Bad(field, at))?;
    unless(
        within(low, high, names.len() as u64) && are_short(names),
        CatalogueFault::Limit(field, at),
    )
}

/// Tests a quota, where there is one.
pub(crate) fn quota_test(field: Field, at: u32, quota: Option<u64>) -> Result<(), CatalogueFault>
    ensures { result ≡ quota_test field at quota }
{
    match quota {
        None => Ok(()),
        Some(bytes) => unless(bytes <= 1 << 50, CatalogueFault::Limit(field, at)),
    }
}

/// What stands in a list of the catalogue and is tested after what stands before it.
pub(crate) trait Entry: Sized {
    ghost test: { List Self → Self → Result ⊤ CatalogueFault };

    /// The first fault of the entry.
    fn test(&self, before: &[Self]) -> Result<(), CatalogueFault>
        requires { length before.now < 2 ^ 32 }
        ensures { result ≡ test before.now self.now };
}

/// The first fault of the entries of a list, one after the other.
pub(crate) fn each<E: Entry>(entries: &[E]) -> Result<(), CatalogueFault>
    requires { length entries.now ≤ 2 ^ 32 }
    ensures { result ≡ each E.test [] entries.now }
{
    for (i, entry) in entries.iter().enumerate() {
        entry.test(&entries[..i])?;
    }
    Ok(())
}
