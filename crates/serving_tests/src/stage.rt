//! A server of the tests: its files, its disk and its sources.
ghost use Rattle.std.specs.Prelude.{IfOk, length, ◌≡◌, ◌≤◌};

use crate::held::{HeldSource, Hold};
use base::Clock;
use exact_ratio::Words;
use fixtures::SilentDisk;
use http_wire::{Listener, MemorySink, MemorySource};
use server_command::{ServerEnd, run_server};
use server_workers::SOURCES;
use source_render::{Numbered, Source};
use std::alloc::Global;
use std::snapshot::Snapshot;
use std::sync::Wait;
use std::test::Fail;
use std::thread::Threads;
use tile_command::run_command;

/// A source of these bytes.
pub fn supply(alloc: Global, bytes: &[u8]) -> Result<MemorySource, Fail> {
    Ok(MemorySource::new(Vec::from_slice(alloc, bytes)?, 4096, Vec::new(alloc)))
}

/// A disk with an empty cache of the built-in catalogue.
fn made(alloc: Global) -> Result<SilentDisk, Fail> {
    let words = vec![in alloc; Words::new(alloc, b"make")?]?;
    let mut disk = SilentDisk::new(alloc, Vec::new(alloc), Vec::new(alloc));
    let _ = run_command(
        alloc,
        words.as_slice(),
        &mut supply(alloc, b"")?,
        &mut supply(alloc, b"")?,
        &mut supply(alloc, b"")?,
        &mut MemorySink::new(alloc, Vec::new(alloc)),
        &mut Numbered::new(0),
        &mut disk,
        Clock::listed(Vec::new(alloc)),
    );
    Ok(disk)
}

/// The sources that a server takes.
pub fn sources(alloc: Global) -> Result<Vec<Numbered>, Fail>
    ensures { IfOk result (λ sources. length sources.items ≡ SOURCES) }
{
    let mut sources = Vec::new(alloc);
    for _ in 0..SOURCES {
        sources.push(Numbered::new(0))?;
    }
    Ok(sources)
}

/// The sources that a server takes, all of which hold the render that is to be held.
pub fn held_sources(alloc: Global, hold: &Hold) -> Result<Vec<HeldSource>, Fail>
    ensures { IfOk result (λ sources. length sources.items ≡ SOURCES) }
{
    let mut sources = Vec::new(alloc);
    for _ in 0..SOURCES {
        sources.push(HeldSource::new(hold.share()?))?;
    }
    Ok(sources)
}

/// What a server of the tests works with: the built-in catalogue, no capabilities document, recipes, and an empty cache.
#[derive(Drop)]
pub struct Stage {
    catalogue: MemorySource,
    capabilities: MemorySource,
    recipes: MemorySource,
    disk: SilentDisk,
}

impl Stage {
    /// A stage without recipes.
    pub fn new(alloc: Global) -> Result<Stage, Fail> {
        Stage::with_recipes(alloc, b"")
    }

    /// A stage whose recipes have this text.
    pub fn with_recipes(alloc: Global, recipes: &[u8]) -> Result<Stage, Fail> {
        Ok(Stage {
            catalogue: supply(alloc, b"")?,
            capabilities: supply(alloc, b"")?,
            recipes: supply(alloc, recipes)?,
            disk: made(alloc)?,
        })
    }
}

/// Serves so many connections on a stage.
pub fn served<R: Threads + Wait + std::time::Clock + Sync, S: Source + Send, N: Listener>(
    rt: &R,
    alloc: Global,
    connections: u32,
    stage: Stage,
    listener: &mut N,
    sources: Vec<S>,
) -> ServerEnd
where
    N::L: Send,
    requires sources { length sources.items ≡ SOURCES }
    requires connections { (1 ≤ connections) × (connections ≤ 1000000) }
{
    let Stage {
        mut catalogue,
        mut capabilities,
        mut recipes,
        disk,
    } = stage;
    run_server(
        rt,
        alloc,
        connections,
        &mut catalogue,
        &mut capabilities,
        &mut recipes,
        listener,
        sources,
        disk,
        Clock::listed(Vec::new(alloc)),
        Snapshot::of(&false),
    )
}
