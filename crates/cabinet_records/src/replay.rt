//! The records of a journal replayed, one body after the other, as an opening is shown them.
ghost use Rattle.std.specs.Prelude.{[], ◌∷◌, ◌++◌, ◌≡◌, IfErr, IfOk, List, Option};
ghost use Rattle.cabinet_records.specs.Replay.{AreRecordsOf, IsRefusedAt, IsRestored};
ghost use Rattle.catalog.specs.Valid.{IsValid};
ghost use Rattle.record_text.specs.declared.entries.Record.{Record as Entry};

mod aimed;
mod aiming;
mod allowed;
mod beginning;
mod cuts;
mod cutting;
mod entering;
mod finishing;
mod judging;
mod keeping;
mod listing;
mod newer;
mod places;
mod progress;
mod sparing;

use crate::replay::beginning::begin;
use crate::replay::finishing::finish;
use crate::replay::judging::{cut_after, first_bad, judge, late_after};
use crate::replay::progress::ReplayProgress;
use crate::restored::Restored;
use base::Trace;
use catalog::Catalogue;
use gate_journal::Visit;
use record_text::{Record, decode};
use std::alloc::{AllocError, Global};
use std::marker::Model;

/// Replays records. Contracts see the catalogue, and the bodies that it was shown.
#[derive(Drop)]
pub struct Replay<'a> {
    catalogue: &'a Catalogue,
    progress: ReplayProgress,
    /// How many bodies it was shown.
    count: u64,
    /// The slot of the first record that no cache has. Once there is one, what is held means nothing any more.
    bad: Option<u64>,
    /// The slot of the first record that version 1 doesn't have.
    later: Option<u64>,
    last_cut: Option<u64>,
    bodies: Trace<[u8; 63]>,
    records: Trace<Option<Record>>,
}

impl<'a> Model for Replay<'a> {
    ghost use Rattle.cabinet_records.specs.Replay.{ShownReplay};
    ghost use Rattle.cabinet_records.specs.Shows.{IsShown};

    ghost Value = { ShownReplay };

    ghost view = { λ r. record { catalogue = r.catalogue.now; bodies = r.bodies.entries } };

    ghost invariant = { λ r. IsShown r.catalogue.now r.bodies.entries r.records.entries r.progress r.count r.bad r.later r.last_cut };
}

impl<'a> Replay<'a> {
    /// No body was shown yet. `AllocError` where memory runs out.
    pub fn new(alloc: Global, catalogue: &'a Catalogue) -> Result<Replay<'a>, AllocError>
        requires { IsValid catalogue.now }
        ensures { IfOk result (λ r. r ≡ record { catalogue = catalogue.now; bodies = [] }) }
    {
        match begin(alloc, catalogue) {
            Err(fault) => Err(fault),
            Ok(progress) => Ok(Replay {
                catalogue,
                progress,
                count: 0,
                bad: None,
                later: None,
                last_cut: None,
                bodies: Trace::new(),
                records: Trace::new(),
            }),
        }
    }

    /// What the bodies are restored to, in a journal of version 1 or 2; or the slot, counted from 0, of the first one that no cache
    /// has, or of the last cut where more are left than may be.
    pub fn restore(self, version: u8) -> Result<Restored, u64>
        ensures ok { IfOk result (λ r. (records : List (Option Entry)) × AreRecordsOf version self.entry.bodies records × IsRestored self.entry.catalogue records r.opening r.kept.items r.cuts.book) }
        ensures err { IfErr result (λ slot. (records : List (Option Entry)) × AreRecordsOf version self.entry.bodies records × IsRefusedAt self.entry.catalogue records slot) }
    {
        match first_bad(version, self.bad, self.later) {
            Some(slot) => Err(slot),
            None => finish(self.progress, self.catalogue.cut_limit, self.last_cut),
        }
    }
}

impl<'a> Visit for Replay<'a> {
    ghost visits = { λ slot body old new. new ≡ record { catalogue = old.catalogue; bodies = old.bodies ++ body ∷ [] } };

    ghost leaves = { λ old new. new ≡ old };

    fn body(&mut self, alloc: Global, _: u64, body: &[u8; 63]) -> Result<(), AllocError> {
        if self.count == u64::MAX {
            return Err(AllocError);
        }
        let entry = decode(body);
        let bad = match judge(
            &mut self.progress,
            alloc,
            self.catalogue,
            &entry,
            self.bad,
            self.count,
        ) {
            Err(fault) => return Err(fault),
            Ok(bad) => bad,
        };
        self.bad = bad;
        self.later = late_after(self.later, &entry, self.count);
        self.last_cut = cut_after(self.last_cut, &entry, self.count);
        self.count += 1;
        self.bodies = self.bodies.and(body);
        self.records = self.records.and(&entry);
        Ok(())
    }
}
