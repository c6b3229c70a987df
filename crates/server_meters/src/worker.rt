//! The counts of one worker.
use crate::counter::Counter;
use crate::durations::Durations;
use crate::kinds::{MeteredFault, Outcome};
use crate::requests::Outcomes;
use crossbeam_utils::CachePadded;
use std::alloc::{AllocError, Global};

/// What one worker counts. Any thread may count here, but only one should.
#[derive(Drop)]
pub struct WorkerMeters {
    layers: Vec<CachePadded<Outcomes>>,
    pub(crate) others: Outcomes,
    pub(crate) begun: Counter,
    pub(crate) renders: Durations,
    pub(crate) waits: Counter,
    pub(crate) turned_away: Counter,
    pub(crate) turns: Counter,
    pub(crate) syncs: Durations,
    pub(crate) opened: Counter,
    pub(crate) closed: Counter,
    pub(crate) disk: Counter,
    pub(crate) source: Counter,
    pub(crate) memory: Counter,
    pub(crate) crowded: Counter,
    pub(crate) unkept: Counter,
}

/// So many counts of requests.
fn outcomes(alloc: Global, layers: usize) -> Result<Vec<CachePadded<Outcomes>>, AllocError> {
    let mut made = Vec::new(alloc);
    for _ in 0..layers {
        made.push(CachePadded::new(Outcomes::new()))?;
    }
    Ok(made)
}

impl WorkerMeters {
    /// Nothing is counted yet. Requests are counted for so many layers apart. `AllocError` where memory runs out.
    pub(crate) fn new(alloc: Global, layers: usize) -> Result<WorkerMeters, AllocError> {
        Ok(WorkerMeters {
            layers: outcomes(alloc, layers)?,
            others: Outcomes::new(),
            begun: Counter::new(),
            renders: Durations::new(),
            waits: Counter::new(),
            turned_away: Counter::new(),
            turns: Counter::new(),
            syncs: Durations::new(),
            opened: Counter::new(),
            closed: Counter::new(),
            disk: Counter::new(),
            source: Counter::new(),
            memory: Counter::new(),
            crowded: Counter::new(),
            unkept: Counter::new(),
        })
    }

    /// The requests of the layer at a place, where that layer is counted apart.
    pub(crate) fn of_layer(&self, place: usize) -> Option<&Outcomes> {
        match self.layers.get(place) {
            Some(padded) => Some(padded),
            None => None,
        }
    }

    /// A request of the layer of this number came to this. `None` where it names no layer; it is counted with those of layers that
    /// aren't counted apart.
    pub fn count_request(&self, layer: Option<u32>, outcome: Outcome) {
        let found = match layer {
            Some(number) => self.of_layer(number as usize),
            None => None,
        };
        match found {
            Some(outcomes) => outcomes.add(outcome),
            None => self.others.add(outcome),
        }
    }

    /// A render has begun.
    pub fn begin_render(&self) {
        self.begun.add(1);
    }

    /// A render that had begun took so many microseconds, however it ended.
    pub fn end_render(&self, micros: u64) {
        self.renders.add(micros);
    }

    /// A request waits, or goes on waiting, for what another one does.
    pub fn count_wait(&self) {
        self.waits.add(1);
    }

    /// A request was turned away, since too many wait.
    pub fn count_turned_away(&self) {
        self.turned_away.add(1);
    }

    /// A turn at the cache was made.
    pub fn count_turn(&self) {
        self.turns.add(1);
    }

    /// The disk was told to keep what was written, and this took so many microseconds.
    pub fn count_sync(&self, micros: u64) {
        self.syncs.add(micros);
    }

    /// A connection was accepted.
    pub fn open_connection(&self) {
        self.opened.add(1);
    }

    /// A connection that was accepted has ended.
    pub fn close_connection(&self) {
        self.closed.add(1);
    }

    /// Something failed.
    pub fn count_fault(&self, fault: MeteredFault) {
        match fault {
            MeteredFault::Disk => self.disk.add(1),
            MeteredFault::Source => self.source.add(1),
            MeteredFault::Memory => self.memory.add(1),
            MeteredFault::Crowded => self.crowded.add(1),
        }
    }

    /// A metatile was rendered and served, and could not be kept.
    pub fn count_unkept(&self) {
        self.unkept.add(1);
    }
}
