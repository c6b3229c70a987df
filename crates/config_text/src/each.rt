//! How the entries of a list are read: one after the other, each beside those before it.
ghost use Rattle.std.specs.Prelude.{◌≡◌, ℕ, ◌+◌, ◌<◌, ◌≤◌, ◌^◌, List, [], Ok, length, map, Result, IfOk, ⊤};
ghost use Rattle.catalog.specs.FirstFault.{each};
ghost use Rattle.catalog.specs.declared.fault.CatalogueFault.{CatalogueFault};
ghost use Rattle.config_text.specs.Reading.{Gives, entries};
ghost use Rattle.serde_json.specs.Data.{Data};
ghost use Rattle.serde_json.specs.View.{view};

use catalog::CatalogueFault;
use serde_json::Value;
use std::alloc::Global;

/// What stands in a list, and is read after what stands before it.
pub(crate) trait Entry: Drop + Sized {
    /// What the list stands in.
    type Owner;

    ghost entry: { Self.Owner → List Self → Data → Result Self CatalogueFault };

    /// What an entry that was read meets.
    ghost met: { List Self → Self → Result ⊤ CatalogueFault };

    fn read(
        alloc: Global,
        owner: &Self::Owner,
        before: &[Self],
        value: &Value,
    ) -> Result<Self, CatalogueFault>
        requires { length before.now < 2 ^ 32 }
        ensures gives { Gives (λ x. x) result (entry owner.now before.now (view value.now)) }
        ensures met { IfOk result (λ x. met before.now x ≡ Ok tt) };
}

/// Reads the values of a list, one after the other.
pub(crate) fn each<E: Entry>(
    alloc: Global,
    owner: &E::Owner,
    values: &[Value],
) -> Result<Vec<E>, CatalogueFault>
    requires { length values.now ≤ 2 ^ 32 }
    ensures gives { Gives (λ v. v.items) result (entries (E.entry owner.now) [] (map view values.now)) }
    ensures met { IfOk result (λ v. each E.met [] v.items ≡ Ok tt) }
    ensures count { IfOk result (λ v. length v.items ≡ length values.now) }
{
    let mut entries = Vec::new(alloc);
    for value in values {
        let entry = E::read(alloc, owner, entries.as_slice(), value)?;
        entries.push(entry)?;
    }
    Ok(entries)
}
