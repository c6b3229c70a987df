//! The table of the renders that run: how they begin, are overtaken and end.
ghost use Rattle.std.specs.Prelude.{[], ◌≡◌, ◌<◌, ◌≤◌, IfOk, OnErr, OnOk, length};
ghost use Rattle.catalog.specs.Valid.{IsGrid};
ghost use Rattle.truncation_list.specs.Covers.{IsWithinReach};

use crate::render::Render;
use crate::replies::{Begin, End};
use crate::table::{least, overtake, render_of, running_for, take_off};
use crate::ticket::Ticket;
use catalog::Grid;
use metatile_plan::{Factors, MetaKey};
use std::alloc::{AllocError, Global};
use std::marker::Model;
use truncation_list::Cover;

/// The renders that run, the oldest first. Contracts see them, and how many more there is room for.
#[derive(Drop)]
pub struct Locks {
    renders: Vec<Render>,
}

impl Model for Locks {
    ghost use Rattle.std.specs.Prelude.{vec_capacity, vec_len, ◌-◌};
    ghost use Rattle.metatile_locks.specs.Running.{Locked, NumbersRise, OneRuns};

    ghost Value = { Locked };

    ghost view = { λ l. record { renders = l.renders.items; spare = vec_capacity l.renders - vec_len l.renders } };

    ghost invariant = { λ l. NumbersRise l.renders.items × OneRuns l.renders.items };
}

impl Locks {
    ghost use Rattle.metatile_locks.specs.Calls.{Begins, Ends, TakesRoom};
    ghost use Rattle.metatile_locks.specs.Running.{IsAboveAll, IsLeast, IsPlanOn, NumbersRise, OneRuns, hits_in, overtaken, render_of, running_for};

    /// A table in which no render runs. `AllocError` where memory runs out.
    pub fn new(alloc: Global) -> Result<Locks, AllocError>
        ensures { IfOk result (λ locks. locks.renders ≡ []) }
    {
        Ok(Locks {
            renders: Vec::new(alloc),
        })
    }

    /// Makes room for one more render. `AllocError` where memory runs out; all is then as before.
    pub fn reserve(&mut self, _alloc: Global) -> Result<(), AllocError>
        ensures renders { self.new.renders ≡ self.old.renders }
        ensures room { OnOk result (0 < self.new.spare) }
        ensures err { OnErr result (self.new ≡ self.old) }
    {
        self.renders.reserve(1)
    }

    /// Begins a render of a metatile under a number, at a moment in seconds; `Busy` exactly where one runs that is not
    /// overtaken.
    pub fn begin(&mut self, meta: &MetaKey, number: u64, moment: u64) -> Begin
        requires room { 0 < self.old.spare }
        requires above { IsAboveAll number self.old.renders }
        ensures begins { Begins self.old.renders meta.now number moment result self.new.renders }
        ensures room { TakesRoom result self.old.spare self.new.spare }
        ensures one_runs { OneRuns self.new.renders }
    {
        match running_for(self.renders.as_slice(), meta) {
            Some(busy) => return Begin::Busy(busy),
            None => {}
        }
        self.renders.push_reserved(Render {
            number,
            meta: *meta,
            moment,
            mark: None,
        });
        Begin::Ticket(Ticket::new(number, meta))
    }

    /// Marks with a truncation's number each render of which the cover is for a tile, and no other. The factors and the grid
    /// are those of the cover's layer and grid.
    pub fn overtake(&mut self, f: &Factors, grid: &Grid, cover: &Cover, number: u64)
        requires grid { IsGrid grid.now }
        requires plan { IsPlanOn f.now grid.now }
        requires reach { IsWithinReach cover.now }
        ensures renders { self.new.renders ≡ overtaken (hits_in f.now grid.now cover.now) number self.old.renders }
        ensures room { self.new.spare ≡ self.old.spare }
        ensures one_runs { OneRuns self.new.renders }
    {
        overtake(&mut self.renders, f, grid, cover, number);
    }

    /// Ends the render of a ticket, and tells whether a truncation overtook it; a stranger's ticket changes nothing.
    pub fn end(&mut self, ticket: Ticket) -> End
        ensures ends { Ends self.old.renders ticket result self.new.renders }
        ensures room { self.old.spare ≤ self.new.spare }
        ensures one_runs { OneRuns self.new.renders }
    {
        let (number, meta) = ticket.spend();
        let ended = match render_of(self.renders.as_slice(), number, &meta) {
            None => return End::Stranger,
            Some(render) => *render,
        };
        let mark = ended.mark;
        take_off(&mut self.renders, number);
        match mark {
            Some(cut) => End::Overtaken(cut),
            None => End::Whole(ended.moment),
        }
    }

    /// The render of a ticket, as it runs; `None` exactly where the ticket is a stranger's.
    pub fn render(&self, ticket: &Ticket) -> Option<Render>
        ensures { result ≡ render_of ticket.now self.now.renders }
    {
        match render_of(self.renders.as_slice(), ticket.number(), &ticket.meta()) {
            None => None,
            Some(render) => Some(*render),
        }
    }

    /// The number of the render that runs for a metatile and is not overtaken, `None` exactly where there is none.
    pub fn running_for(&self, meta: &MetaKey) -> Option<u64>
        ensures { result ≡ running_for meta.now self.now.renders }
    {
        running_for(self.renders.as_slice(), meta)
    }

    /// The least number of a running render, `None` exactly where none runs.
    pub fn least(&self) -> Option<u64>
        ensures { IsLeast result self.now.renders }
    {
        least(self.renders.as_slice())
    }

    /// How many renders run, overtaken ones included. Their numbers rise, and of those of one metatile at most one is not
    /// overtaken.
    pub fn count(&self) -> usize
        ensures count { result ≡ length self.now.renders }
        ensures rise { NumbersRise self.now.renders }
        ensures one_runs { OneRuns self.now.renders }
    {
        self.renders.len()
    }
}
