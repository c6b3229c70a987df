//! The counts of all workers, added up.
use crate::durations::DurationTally;
use crate::worker::WorkerMeters;

/// What workers counted together, but for their requests. A count stays at 2^64 - 1.
#[derive(Clone, Copy, PartialEq, Eq)]
pub struct Tally {
    /// Renders that ended.
    pub renders: DurationTally,
    /// Renders that begun.
    pub begun: u64,
    pub waits: u64,
    pub turned_away: u64,
    pub turns: u64,
    pub syncs: DurationTally,
    /// Connections that were accepted.
    pub opened: u64,
    /// Connections that ended.
    pub closed: u64,
    /// Faults of the disk.
    pub disk: u64,
    /// Faults of sources.
    pub source: u64,
    /// How often memory ran out.
    pub memory: u64,
    /// How often a limit was reached.
    pub crowded: u64,
    pub unkept: u64,
}

impl Tally {
    /// Nothing was counted.
    pub fn new() -> Tally {
        Tally {
            renders: DurationTally::new(),
            begun: 0,
            waits: 0,
            turned_away: 0,
            turns: 0,
            syncs: DurationTally::new(),
            opened: 0,
            closed: 0,
            disk: 0,
            source: 0,
            memory: 0,
            crowded: 0,
            unkept: 0,
        }
    }

    /// Adds what a worker counted. What has ended is read before what has begun, so that no more is ended than begun where each worker ends
    /// what it began.
    pub fn add(&mut self, worker: &WorkerMeters) {
        self.renders.add(&worker.renders.tally());
        self.begun = self.begun.saturating_add(worker.begun.count());
        self.closed = self.closed.saturating_add(worker.closed.count());
        self.opened = self.opened.saturating_add(worker.opened.count());
        self.waits = self.waits.saturating_add(worker.waits.count());
        self.turned_away = self.turned_away.saturating_add(worker.turned_away.count());
        self.turns = self.turns.saturating_add(worker.turns.count());
        self.syncs.add(&worker.syncs.tally());
        self.add_faults(worker);
    }

    fn add_faults(&mut self, worker: &WorkerMeters) {
        self.disk = self.disk.saturating_add(worker.disk.count());
        self.source = self.source.saturating_add(worker.source.count());
        self.memory = self.memory.saturating_add(worker.memory.count());
        self.crowded = self.crowded.saturating_add(worker.crowded.count());
        self.unkept = self.unkept.saturating_add(worker.unkept.count());
    }

    /// Renders that have begun and not ended.
    pub fn renders_under_way(&self) -> u64 {
        let ended = self.renders.count();
        self.begun.saturating_sub(ended)
    }

    /// Connections that were accepted and have not ended, which another worker than the one that accepted them may tell.
    pub fn open_connections(&self) -> u64 {
        self.opened.saturating_sub(self.closed)
    }
}
