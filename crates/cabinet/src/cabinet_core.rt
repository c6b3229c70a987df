//! The core of a cabinet: what is kept, what runs, which cuts are in force, and the history, without the place where blobs lie. Each
//! command is in two steps: what is to come of it is told first, and then it is done, in steps that can't fail. So a cabinet on a
//! disk writes it down in between.
ghost use Rattle.std.specs.List.Sorted.{IsPermutation};
ghost use Rattle.std.specs.Prelude.{IfOk, IsSome, None, OnErr, Some, find, length, ℕ, ◌<◌, ◌^◌, ◌≡◌, ◌≤◌};
ghost use Rattle.cabinet.specs.History.{bare_opening, last_number};
ghost use Rattle.catalog.specs.LookUp.{IsTile};
ghost use Rattle.catalog.specs.Valid.{IsValid};
ghost use Rattle.raster_field.specs.Blocks.{IsMeta, block_of};

use crate::ages::{is_within, limit_for};
use crate::entry::HistoryEntry;
use crate::hitting::overtake;
use crate::judged::{Admitted, Judged, Unsaved};
use crate::kept::Kept;
use crate::ranking::KeptRanking;
use crate::replies::Forced;
use crate::shelf::KeptShelf;
use crate::shelving::FoundTile;
use crate::start::TracedOpening;
use crate::text::Text;
use crate::turns::{take_turn, turn_for, turn_where};
use base::{Clock, Trace};
use catalog::Catalogue;
use matrix_geometry::Address;
use metatile_locks::{End, Locks, Ticket};
use metatile_plan::MetaKey;
use raster_field::block_of;
use std::alloc::{AllocError, Global};
use std::marker::Model;
use truncation_list::{Cover, CutList};

/// The numbers of the opening e are e * 2^40 + c, with c from 1 to this.
const LAST: u64 = (1 << 40) - 1;

/// The last number of an opening.
fn last_number(opening: u32) -> u64
    requires { opening < 2 ^ 24 }
    ensures { result ≡ last_number (bare_opening opening) }
{
    u64::from(opening) * (LAST + 1) + LAST
}

/// The core of a cabinet. Contracts see its catalogue, its opening, its history and the blobs that it keeps, where one that
/// lies elsewhere is seen as zeros of its length, and the room of its list of cuts.
#[derive(Drop)]
pub struct Core {
    pub(crate) shelf: KeptShelf,
    pub(crate) start: TracedOpening,
    pub(crate) last: u64,
    /// The moment of the last ask or force, in seconds.
    pub(crate) moment: u64,
    pub(crate) clock: Clock,
    pub(crate) locks: Locks,
    pub(crate) cuts: CutList,
    pub(crate) past: Trace<HistoryEntry>,
}

impl Model for Core {
    ghost use Rattle.std.specs.Prelude.{Some};
    ghost use Rattle.cabinet.specs.Consistent.{IsConsistent};
    ghost use Rattle.cabinet.specs.History.{whole};
    ghost use Rattle.cabinet.specs.Started.{opening_of};
    ghost use Rattle.cabinet.specs.Steps.{Cored};

    ghost Value = { Cored };

    ghost view = { λ a. record { state = record { catalogue = a.shelf.catalogue; opening = opening_of a.start; history = whole (opening_of a.start) a.past.entries; since = a.past.entries; blobs = Some a.shelf.blobs; clock = a.clock }; room = a.cuts.room } };

    ghost invariant = { λ a. IsConsistent (record { opening = opening_of a.start; shelf = a.shelf; last = a.last; moment = a.moment; clock = a.clock; renders = a.locks.renders; book = a.cuts.book }) a.past.entries };
}

impl Core {
    ghost use Rattle.cabinet.specs.Commands.{Abandons, Forces, place_for};
    ghost use Rattle.cabinet.specs.Counted.{uses};
    ghost use Rattle.cabinet.specs.Fresh.{MayBeginWith};
    ghost use Rattle.cabinet.specs.History.{CabinetOpening, kept_of, next};
    ghost use Rattle.cabinet.specs.Started.{opened_state};
    ghost use Rattle.cabinet.specs.State.{IsKnown, fresh_state, now, with_blob, with_counted, with_cut, with_dropped, with_entry};
    ghost use Rattle.cabinet.specs.Steps.{Admits, AsksKept, GoesFirst, IsReadyFor, IsSame, IsUnsavedFirst, Judges};
    ghost use Rattle.cabinet.specs.Turns.{FindsIn};
    ghost use Rattle.served_covers.specs.OfCatalogue.{IsCoverOf};

    /// The core of a cabinet in which nothing has happened. `AllocError` where memory runs out.
    pub fn new(alloc: Global, catalogue: Catalogue, clock: Clock) -> Result<Core, AllocError>
        requires { IsValid catalogue }
        ensures { IfOk result (λ c. c.state ≡ fresh_state catalogue clock) }
    {
        let locks = Locks::new(alloc)?;
        let cuts = CutList::new(alloc)?;
        let shelf = KeptShelf::new(alloc, catalogue)?;
        Ok(Core {
            shelf,
            start: TracedOpening::bare(),
            last: 0,
            moment: 0,
            clock,
            locks,
            cuts,
            past: Trace::new(),
        })
    }

    /// The core of a cabinet that is opened under a number, with what is kept and the cuts in force. Its blobs lie elsewhere.
    /// `AllocError` where memory runs out.
    pub fn from_opening(
        alloc: Global,
        catalogue: Catalogue,
        clock: Clock,
        number: u32,
        kept: Vec<Kept>,
        cuts: CutList,
    ) -> Result<Core, AllocError>
        requires valid { IsValid catalogue }
        requires number { number < 2 ^ 24 }
        requires opens { MayBeginWith catalogue (record { number = number; kept = kept.items; book = cuts.book }) }
        ensures { IfOk result (λ c. c.state ≡ opened_state catalogue (record { number = number; kept = kept.items; book = cuts.book }) clock) }
    {
        let start = TracedOpening::of(number, kept.as_slice(), &cuts);
        let locks = Locks::new(alloc)?;
        let shelf = KeptShelf::of_kept(alloc, catalogue, kept.as_slice())?;
        Ok(Core {
            shelf,
            start,
            last: u64::from(number) * (LAST + 1),
            moment: 0,
            clock,
            locks,
            cuts,
            past: Trace::new(),
        })
    }

    /// The catalogue that it was made with.
    pub fn catalogue(&self) -> &Catalogue
        ensures { result.now ≡ self.now.state.catalogue }
    {
        self.shelf.catalogue()
    }

    /// What holds of every core: its history is one that commands can make, so that the laws of histories hold of it.
    pub fn known(&self)
        ensures { IsKnown self.now.state }
    {
        // The body reads a field, so that the proof has the invariant.
        let _ = &self.past;
    }

    /// The number of its opening.
    pub fn opening(&self) -> u32
        ensures { result ≡ self.now.state.opening.number }
    {
        self.start.number
    }

    /// Takes the core apart, and gives its clock back.
    pub fn into_clock(self) -> Clock
        ensures { result ≡ self.state.clock }
    {
        self.clock
    }

    /// The next number, while one of the opening is left.
    fn next(&self) -> Option<u64>
        ensures { result ≡ next self.now.state.opening (now self.now.state) }
    {
        if self.last >= last_number(self.start.number) {
            return None;
        }
        Some(self.last + 1)
    }

    /// Which render of a metatile is kept, and where.
    pub fn kept_of(&self, meta: &MetaKey) -> Option<Kept>
        ensures { result ≡ kept_of meta.now (now self.now.state) }
    {
        self.shelf.kept_of(meta)
    }

    /// Reads a tile out of what is kept of its metatile; `None` exactly where nothing is. `AllocError` where memory runs out.
    pub fn read(&self, alloc: Global, address: &Address) -> Result<Option<FoundTile>, AllocError>
        requires { IsTile self.now.state.catalogue address.now }
        ensures { IfOk result (FindsIn self.now.state address.now) }
    {
        self.shelf.read(alloc, address)
    }

    /// Asks for a tile whose metatile is kept, at a moment of the clock. `None` where what is kept is within its age limit: it is then
    /// used. Else a render is asked for. `AllocError` where memory runs out; all is then as before, and the clock was not read.
    pub fn ask_kept(
        &mut self,
        alloc: Global,
        address: &Address,
    ) -> Result<Option<Forced>, AllocError>
        requires tile { IsTile self.old.state.catalogue address.now }
        requires kept { IsSome (kept_of (block_of self.old.state.catalogue address.now) (now self.old.state)) }
        ensures asks { IfOk result (λ forced. AsksKept self.old.state address.now forced self.new.state) }
        ensures err { OnErr result (IsSame self.old self.new) }
    {
        let meta = block_of(self.shelf.catalogue(), address);
        let limit = limit_for(self.shelf.catalogue(), address);
        let Some(kept) = self.shelf.kept_of(&meta) else {
            unreachable!()
        };
        let next = self.next();
        let turn = turn_where(limit, alloc, &mut self.shelf, &mut self.locks, &meta, next)?;
        self.moment = self.clock.now();
        self.past = self.past.and(&HistoryEntry::At(self.moment));
        if is_within(limit, kept.moment, self.moment) {
            self.shelf.touch(&meta);
            self.past = self.past.and(&HistoryEntry::Used(meta));
            return Ok(None);
        }
        let Some(turn) = turn else { unreachable!() };
        let forced = take_turn(
            &meta,
            self.moment,
            turn,
            &mut self.locks,
            &mut self.last,
            &mut self.past,
        );
        Ok(Some(forced))
    }

    /// Asks for a render of a metatile, whether it is kept or not, at a moment of the clock. What is kept stays. `AllocError` where
    /// memory runs out; all is then as before, and the clock was not read.
    pub fn force(&mut self, alloc: Global, meta: &MetaKey) -> Result<Forced, AllocError>
        requires { IsMeta self.old.state.catalogue meta.now }
        ensures forced { IfOk result (λ forced. Forces self.old.state meta.now forced self.new.state) }
        ensures err { OnErr result (IsSame self.old self.new) }
    {
        let next = self.next();
        let turn = turn_for(alloc, &mut self.shelf, &mut self.locks, meta, next)?;
        self.moment = self.clock.now();
        self.past = self.past.and(&HistoryEntry::At(self.moment));
        Ok(take_turn(
            meta,
            self.moment,
            turn,
            &mut self.locks,
            &mut self.last,
            &mut self.past,
        ))
    }

    /// What is to come of the end of a ticket's render.
    pub fn judge(&self, ticket: &Ticket) -> Judged
        requires { IsMeta self.now.state.catalogue ticket.now.meta }
        ensures { Judges self.now.state ticket.now result }
    {
        let Some(render) = self.locks.render(ticket) else {
            return Judged::Stranger;
        };
        match render.mark {
            Some(cut) => Judged::Overtaken(cut),
            None => self
                .shelf
                .judge(ticket.number(), &ticket.meta(), render.moment),
        }
    }

    /// Ends a render, and keeps its blob where it fits. It takes no memory.
    pub fn keep(&mut self, ticket: Ticket, kept: Kept, text: Text)
        requires meta { IsMeta self.old.state.catalogue ticket.meta }
        requires fits { Judges self.old.state ticket (Judged.Fits kept) }
        requires length { length text ≡ kept.length }
        ensures { self.new.state ≡ with_blob self.old.state kept text }
    {
        let _ended = self.locks.end(ticket);
        self.shelf.keep(kept, text);
        self.past = self.past.and(&HistoryEntry::Stored(
            kept.number,
            kept.meta,
            kept.place,
            kept.length,
            kept.moment,
            kept.uses,
        ));
    }

    /// Ends a render, and keeps nothing of it; a stranger's ticket changes nothing. It takes no memory.
    pub fn abandon(&mut self, ticket: Ticket)
        ensures abandons { Abandons self.old.state ticket self.new.state }
    {
        let number = ticket.number();
        match self.locks.end(ticket) {
            End::Stranger => return,
            End::Overtaken(_) => {}
            End::Whole(_) => {}
        }
        self.past = self.past.and(&HistoryEntry::Ended(number));
    }

    /// What is to come of a truncation, with room made where it may be done. That no number is left is told before any memory is
    /// taken. `AllocError` where memory runs out; all is then as before.
    pub fn admit(&mut self, alloc: Global, cover: &Cover) -> Result<Admitted, AllocError>
        requires { IsCoverOf self.old.state.catalogue cover.now }
        ensures same { IsSame self.old self.new }
        ensures admits { IfOk result (Admits self.old.state cover.now) }
        ensures ready { IfOk result (λ r. (t : ℕ) → r ≡ Admitted.Number t → IsReadyFor self.new cover.now) }
    {
        let number = match self.next() {
            None => return Ok(Admitted::Spent),
            Some(number) => number,
        };
        match self.cuts.reserve(alloc, cover) {
            Err(fault) => return Err(fault),
            Ok(()) => {}
        }
        let lowest = self.shelf.least_with(self.locks.least());
        if self
            .cuts
            .full(cover, lowest, self.shelf.catalogue().cut_limit)
        {
            return Ok(Admitted::Full);
        }
        Ok(Admitted::Number(number))
    }

    /// Truncates under a number: drops each kept metatile, and overtakes each running render, of which the cover is for a tile. It
    /// takes no memory.
    pub fn cut(&mut self, number: u64, cover: &Cover)
        requires cover { IsCoverOf self.old.state.catalogue cover.now }
        requires admitted { Admits self.old.state cover.now (Admitted.Number number) }
        requires ready { IsReadyFor self.old cover.now }
        ensures { self.new.state ≡ with_cut self.old.state number cover.now }
    {
        let least = self.shelf.least_with(self.locks.least());
        self.shelf.drop_hit(cover);
        overtake(&mut self.locks, self.shelf.catalogue(), cover, number);
        self.cuts.add(number, cover, least);
        self.last = number;
        self.past = self.past.and(&HistoryEntry::Cut(number, *cover));
    }

    /// Spends the next number for a truncation that was not written down.
    pub fn miss(&mut self, number: u64)
        requires { next self.old.state.opening (now self.old.state) ≡ Some number }
        ensures { self.new.state ≡ with_entry self.old.state (HistoryEntry.Missed number) }
    {
        self.last = number;
        self.past = self.past.and(&HistoryEntry::Missed(number));
    }

    /// The first metatile to go of the scope whose quota is exceeded; `None` exactly where no quota is.
    pub fn first_to_go(&self) -> Option<Kept>
        ensures { GoesFirst self.now.state result }
    {
        self.shelf.first_to_go()
    }

    /// Drops a kept metatile. It takes no memory.
    pub fn drop_kept(&mut self, meta: &MetaKey)
        requires { IsSome (kept_of meta.now (now self.old.state)) }
        ensures { self.new.state ≡ with_dropped self.old.state meta.now }
    {
        self.shelf.drop_kept(meta);
        self.past = self.past.and(&HistoryEntry::Dropped(*meta));
    }

    /// The kept metatile of the least key, field by field, of those with uses that aren't all saved; `None` exactly where all are.
    pub fn first_unsaved(&self) -> Option<Unsaved>
        ensures { IsUnsavedFirst self.now.state result }
    {
        self.shelf.first_unsaved()
    }

    /// Marks all uses of a kept metatile as saved. It takes no memory.
    pub fn save(&mut self, meta: &MetaKey)
        requires { IsSome (kept_of meta.now (now self.old.state)) }
        ensures { self.new.state ≡ with_counted self.old.state meta.now (uses self.old.state.history meta.now) }
    {
        let uses = self.shelf.save(meta);
        self.past = self.past.and(&HistoryEntry::Counted(*meta, uses));
    }
}

impl Core {
    ghost use Rattle.cabinet.specs.Counted.{kept_in, used, used_all};
    ghost use Rattle.cabinet.specs.State.{now};
    ghost use Rattle.cabinet.specs.Writing.{IsInWritingOrder};

    /// The bytes that the kept metatiles of a layer take.
    pub fn used(&self, layer: u32) -> u64
        requires { layer < length self.now.state.catalogue.layers }
        ensures { result ≡ used self.now.state layer }
    {
        self.shelf.used(layer)
    }

    /// The bytes that all kept metatiles take.
    pub fn used_all(&self) -> u64
        ensures { result ≡ used_all self.now.state }
    {
        self.shelf.used_all()
    }

    /// How many metatiles of a layer are kept.
    pub fn kept_in(&self, layer: u32) -> u32
        ensures { result ≡ kept_in self.now.state layer }
    {
        self.shelf.kept_in(layer)
    }

    /// How many metatiles are kept.
    pub fn kept(&self) -> u32
        ensures { result ≡ length (now self.now.state).kept }
    {
        self.shelf.count()
    }

    /// How many renders run.
    pub fn running(&self) -> usize
        ensures { result ≡ length (now self.now.state).out }
    {
        self.locks.count()
    }

    /// The cuts in force, with the floor.
    pub fn cuts(&self) -> &CutList
        ensures { result.now.book ≡ (now self.now.state).book }
    {
        &self.cuts
    }

    /// Lists what is kept, in the order of its last use and then of its key, field by field, in the place of what the list has. The
    /// list has room for it, so that no memory is taken.
    pub fn list_kept(&self, list: &mut KeptRanking)
        requires { length (now self.now.state).kept ≤ list.old.room }
        ensures all { IsPermutation list.new.kept (now self.now.state).kept }
        ensures order { IsInWritingOrder self.now.state list.new.kept }
        ensures room { list.new.room ≡ list.old.room }
    {
        self.shelf.list_kept(list)
    }
}
