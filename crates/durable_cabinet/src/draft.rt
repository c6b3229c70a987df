//! The records of a compaction, written into room that was made before.
ghost use Rattle.std.specs.List.{AllByRecursion};
ghost use Rattle.std.specs.Prelude.{◌≡◌, ◌≤◌, ◌+◌, ◌++◌, ◌∷◌, IfOk, OnOk, [], length, map, vec_capacity};
ghost use Rattle.cabinet_records.specs.Recorded.{stored_record};
ghost use Rattle.catalog.specs.Valid.{IsValid};
ghost use Rattle.durable_cabinet.specs.Drafts.{HasRoom, IsCompactionOf, cut_record};
ghost use Rattle.raster_field.specs.Blocks.{IsMeta};
ghost use Rattle.record_text.specs.Fits.{Fits};
ghost use Rattle.record_text.specs.Spelling.{spelling};
ghost use Rattle.record_text.specs.declared.entries.Record.TheVariants as record_of;
ghost use Rattle.served_covers.specs.OfCatalogue.{IsCoverOf};

use crate::entries::{record_of_cut, record_of_keep};
use cabinet::{Core, KeptRanking};
use catalog::Catalogue;
use record_text::{Record, encode};
use std::alloc::{AllocError, Global};
use std::marker::Model;
use truncation_list::{Cover, CutList};

/// The bodies of a compaction. Contracts see those that were written last, and for how many there is room.
#[derive(Drop)]
pub struct CompactionDraft {
    ranking: KeptRanking,
    bodies: Vec<[u8; 63]>,
}

impl Model for CompactionDraft {
    ghost use Rattle.std.specs.Prelude.{min, vec_capacity};
    ghost use Rattle.durable_cabinet.specs.Drafts.{Drafted};

    ghost Value = { Drafted };

    ghost view = { λ d. record { bodies = d.bodies.items; room = min d.ranking.room (vec_capacity d.bodies) } };
}

/// The body of an opening.
pub(crate) fn opened_body(opening: u32, floor: u64) -> [u8; 63]
    ensures fits { Fits (record_of.Opened opening floor) }
    ensures body { result ≡ spelling (record_of.Opened opening floor) }
{
    encode(&Record::Opened(opening, floor))
}

/// Puts the bodies of cuts behind others, in the order of their numbers. It takes no memory.
fn put_cuts(bodies: &mut Vec<[u8; 63]>, catalogue: &Catalogue, cuts: &CutList)
    requires valid { IsValid catalogue.now }
    requires covers { AllByRecursion (λ k. IsCoverOf catalogue.now k.cover) cuts.now.book.cuts }
    requires room { length bodies.old.items + length cuts.now.book.cuts ≤ vec_capacity bodies.old }
    ensures bodies { bodies.new.items ≡ bodies.old.items ++ map spelling (map cut_record cuts.now.book.cuts) }
    ensures fits { AllByRecursion Fits (map cut_record cuts.now.book.cuts) }
    ensures room { vec_capacity bodies.new ≡ vec_capacity bodies.old }
{
    'putting: for at in 0..cuts.count() {
        let (number, cover) = cuts.cut_at(at);
        let entry = record_of_cut(catalogue, number, cover);
        bodies.push_reserved(encode(&entry));
    }
}

/// Puts the bodies of what is kept behind others, in its order. It takes no memory.
fn put_kept(bodies: &mut Vec<[u8; 63]>, catalogue: &Catalogue, ranking: &KeptRanking)
    requires valid { IsValid catalogue.now }
    requires metas { AllByRecursion (λ t. IsMeta catalogue.now t.meta) ranking.now.kept }
    requires room { length bodies.old.items + length ranking.now.kept ≤ vec_capacity bodies.old }
    ensures bodies { bodies.new.items ≡ bodies.old.items ++ map spelling (map stored_record ranking.now.kept) }
    ensures fits { AllByRecursion Fits (map stored_record ranking.now.kept) }
    ensures room { vec_capacity bodies.new ≡ vec_capacity bodies.old }
{
    'putting: for at in 0..ranking.len() {
        let kept = ranking.get(at);
        let entry = record_of_keep(catalogue, kept);
        bodies.push_reserved(encode(&entry));
    }
}

impl CompactionDraft {
    /// A draft without a body. `AllocError` where memory runs out.
    pub fn new(alloc: Global) -> Result<CompactionDraft, AllocError>
        ensures { IfOk result (λ d. d.bodies ≡ []) }
    {
        Ok(CompactionDraft {
            ranking: KeptRanking::new(alloc),
            bodies: Vec::new(alloc),
        })
    }

    /// Makes room for so many bodies. `AllocError` where memory runs out; no room is lost.
    pub fn reserve(&mut self, alloc: Global, count: usize) -> Result<(), AllocError>
        ensures no_less { self.old.room ≤ self.new.room }
        ensures room { OnOk result (count ≤ self.new.room) }
    {
        self.ranking.reserve(alloc, count)?;
        let held = self.bodies.len();
        if count <= held {
            return Ok(());
        }
        self.bodies.reserve(count - held)
    }

    /// Writes the bodies of a compaction of a cabinet: its opening with its floor, the cuts in force by number, and what is kept by last
    /// use and key. It takes no memory.
    pub fn fill(&mut self, core: &Core)
        requires { HasRoom core.now.state self.old }
        ensures bodies { IsCompactionOf core.now.state self.new.bodies }
        ensures room { self.new.room ≡ self.old.room }
    {
        core.known();
        core.list_kept(&mut self.ranking);
        self.bodies.truncate(0);
        self.bodies
            .push_reserved(opened_body(core.opening(), core.cuts().floor()));
        put_cuts(&mut self.bodies, core.catalogue(), core.cuts());
        put_kept(&mut self.bodies, core.catalogue(), &self.ranking);
    }

    /// The bodies that were written last.
    pub fn bodies(&self) -> &[[u8; 63]]
        ensures { result.now ≡ self.now.bodies }
    {
        self.bodies.as_slice()
    }
}
