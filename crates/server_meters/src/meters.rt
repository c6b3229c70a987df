//! The counts of all workers of a server.
use crate::requests::OutcomeTally;
use crate::tally::Tally;
use crate::worker::WorkerMeters;
use crossbeam_utils::CachePadded;
use exact_ratio::Words;
use std::alloc::{AllocError, Global};

/// How many layers have counts of their own. The requests of further ones are counted together, so that the text stays short.
const MOST_LAYERS: usize = 64;

/// What the workers of a server count, each for itself, and the names of its layers.
#[derive(Drop)]
pub struct Meters {
    workers: Vec<CachePadded<WorkerMeters>>,
    pub(crate) layers: Vec<Words>,
}

/// The first names, as many as have counts of their own.
fn counted_apart(alloc: Global, layers: &[Words]) -> Result<Vec<Words>, AllocError> {
    let mut names = Vec::new(alloc);
    for name in layers {
        if names.len() < MOST_LAYERS {
            names.push(Words::new(alloc, name.bytes())?)?;
        }
    }
    Ok(names)
}

impl Meters {
    /// Nothing is counted yet, by so many workers of a server of these layers, in the order of their numbers. `AllocError` where memory
    /// runs out.
    pub fn new(alloc: Global, workers: u32, layers: &[Words]) -> Result<Meters, AllocError> {
        let layers = counted_apart(alloc, layers)?;
        let mut made = Vec::new(alloc);
        for _ in 0..workers {
            made.push(CachePadded::new(WorkerMeters::new(alloc, layers.len())?))?;
        }
        Ok(Meters {
            workers: made,
            layers,
        })
    }

    /// The counts of a worker, from 0 on. `None` where there is no such worker.
    pub fn worker(&self, number: u32) -> Option<&WorkerMeters> {
        match self.workers.get(number as usize) {
            Some(padded) => Some(padded),
            None => None,
        }
    }

    /// What all workers counted together, but for their requests.
    pub fn tally(&self) -> Tally {
        let mut all = Tally::new();
        for worker in &self.workers {
            all.add(worker);
        }
        all
    }

    /// The requests of the layer of this number, of all workers together. None came where the layer isn't counted apart.
    pub fn requests_of(&self, layer: u32) -> OutcomeTally {
        let mut all = OutcomeTally::new();
        for worker in &self.workers {
            if let Some(outcomes) = worker.of_layer(layer as usize) {
                all.add(&outcomes.tally());
            }
        }
        all
    }

    /// The requests that name no layer, and those of layers that aren't counted apart, of all workers together.
    pub fn other_requests(&self) -> OutcomeTally {
        let mut all = OutcomeTally::new();
        for worker in &self.workers {
            all.add(&worker.others.tally());
        }
        all
    }
}
