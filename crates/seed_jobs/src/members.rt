//! Members without a job, from what each of them needs.
ghost use Rattle.std.specs.Prelude.{All, Bool, IfOk, Some, length, true, ◌+◌, ◌≡◌};
ghost use Rattle.atomic_table.specs.Seated.{TableId};
ghost use Rattle.cache_hall.specs.Turned.{HallPass, IsPassOf};
ghost use Rattle.catalog.specs.declared.catalogue.Catalogue.{Catalogue};
ghost use Rattle.seed_jobs.specs.Idles.{MayJoin, all_idle};

use crate::gates::JobGate;
use crate::runner::IdleMember;
use cabinet::Keeper;
use cabinet_chest::CabinetChest;
use source_render::Source;
use std::alloc::{AllocError, Global};
use turnstile::Pass;

/// A member of each pass, with a source and a gate. Where all passes are alike, each member has such a one; and where the passes are of one hall, and the sources render its catalogue's pictures if
/// the passes are told to be sound, they may join a crew. `AllocError` where memory runs out.
pub fn idle_members<K: Keeper, S: Source, G: JobGate>(
    alloc: Global,
    passes: Vec<Pass<CabinetChest<K>>>,
    sources: Vec<S>,
    gates: Vec<G>,
) -> Result<Vec<IdleMember<K, S, G>>, AllocError>
    requires sources { length sources.items ≡ length passes.items }
    requires gates { length gates.items ≡ length passes.items }
    ensures each { IfOk result (λ ms. length ms.items ≡ length passes.items) }
    ensures first { (p : HallPass) → All (λ q. q ≡ p) passes.items → IfOk result (λ ms. All (λ i. i.pass ≡ p) (all_idle S.told S.faults S.gave ms.items)) }
    ensures join { (table : TableId) (c : Catalogue) (told : Bool) → All (IsPassOf table c) passes.items → All (λ p. p.told ≡ told) passes.items
        → All (λ s. told ≡ true → S.told s ≡ Some c.source) sources.items → IfOk result (λ ms. All (MayJoin table c) (all_idle S.told S.faults S.gave ms.items)) }
{
    let mut passes = passes;
    let mut sources = sources;
    let mut gates = gates;
    let mut members = Vec::new(alloc);
    'pairing: while let Some(pass) = passes.pop() {
        let Some(source) = sources.pop() else {
            unreachable!()
        };
        let Some(gate) = gates.pop() else {
            unreachable!()
        };
        members.push(IdleMember { pass, source, gate })?;
    }
    Ok(members)
}
