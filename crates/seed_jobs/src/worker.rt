//! One worker of a job.
ghost use Rattle.std.specs.Prelude.{length, true, ◌+◌, ◌≡◌};
ghost use Rattle.catalog.specs.Valid.{IsValid};
ghost use Rattle.job_forms.specs.Job.{Fits};
ghost use Rattle.job_forms.specs.Places.{places};
ghost use Rattle.seed_jobs.specs.Workers.{MayWork};
ghost use Rattle.seed_jobs.specs.Works.{Works};
ghost use Rattle.source_render.specs.Renders.{renders};

use crate::gate::Gate;
use crate::reporting::report;
use crate::visiting::visit;
use cabinet::Keeper;
use cabinet_chest::CabinetChest;
use cache_hall::Hall;
use job_board::{Hand, JobSheet};
use job_forms::Job;
use job_places::Tally;
use source_render::Source;
use std::alloc::Global;
use std::sync::Wait;
use turnstile::Pass;

/// Works at a job: claims a place, stops at the gate, refreshes the place's metatile, with force for a reseed, or makes the one cut,
/// and reports the place done where that call answered no fault, as not kept where it said so, and failed where it answered one, until the sheet has no more places or the job
/// is cancelled.
pub fn work<R: Wait, K: Keeper, S: Source, G: Gate>(
    rt: &R,
    alloc: Global,
    hall: &Hall<K>,
    job: &Job,
    sheet: &JobSheet,
    hand: &mut Hand,
    pass: &mut Pass<CabinetChest<K>>,
    source: &mut S,
    gate: &mut G,
) -> Tally
    requires valid { IsValid hall.now.catalogue }
    requires fits { Fits hall.now.catalogue job.now }
    requires sheet { sheet.now.places ≡ length (places hall.now.catalogue job.now) }
    requires worker { MayWork hall.now.turnstile.table hall.now.catalogue sheet.now
        (record { hand = hand.old; pass = pass.old; source = S.told source.old; renders = renders (S.faults source.old) (S.gave source.old) }) }
    ensures works { Works hall.now.catalogue job.now
        (record { hand = hand.old; pass = pass.old; source = S.told source.old; renders = renders (S.faults source.old) (S.gave source.old) })
        (record { hand = hand.new; pass = pass.new; source = S.told source.new; renders = renders (S.faults source.new) (S.gave source.new) }) result }
{
    let mut tally = Tally::new();
    'working: while let Some(place) = sheet.claim(hand) {
        hand.laws();
        gate.at(place);
        let end = visit(rt, alloc, hall, job, place, pass, source);
        report(sheet, hand, place, &end);
        tally = tally.and(&end);
    }
    tally
}
