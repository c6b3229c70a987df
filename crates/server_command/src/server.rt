//! A server, from its files to its last link.
ghost use Rattle.std.specs.Prelude.{IsTrue, length, true, ◌≡◌, ◌≤◌};
ghost use Rattle.command_setup.specs.Held.{HoldsFile};
ghost use Rattle.server_command.specs.Opened.{HoldsPictures, TellAll};
ghost use Rattle.server_command.specs.Served.{HasEnded};
ghost use Rattle.sessions.specs.Outside.{counts};

use crate::ends::{ServerEnd, status_of_service};
use crate::setup::made_ready;
use base::Clock;
use disk_model::Disk;
use http_wire::{ByteSource, Listener};
use server_workers::{SOURCES, serve_hall};
use source_render::Source;
use std::alloc::Global;
use std::snapshot::Snapshot;
use std::sync::Wait;
use std::thread::Threads;

/// Serves so many links of a listener, over the cache of a disk: it reads the catalogue, the capabilities document and the recipes of
/// composites, opens the cache, and then workers serve each link to its end, while quotas are kept, uses are saved, and the jobs that messages submit are run, one
/// after the other; where requests come, a job's crew rests meanwhile. When the last link has been served all jobs that run or wait are
/// cancelled, and it ends once each member of a crew is done with the place that it is at. Everything that it needs besides the sessions
/// and the work at jobs is taken before the first link. Each end comes as `HasEnded` says.
///
/// The recipes are those of `read_recipes`; an input without bytes has none, and then no composite is served. Where they are refused it ends
/// with `Recipes` before the cache is opened and the first link is asked for.
///
/// A modelled disk has to hold a file of this program, by the catalogue that is read. Where its caller sets the mark `told`, the disk is
/// modelled and keeps blobs of the catalogue's pictures alone, and the sources make these pictures; each tile that is served is then the
/// encoded tile of its number. The mark has no bytes. Where not all threads can be made before the first link it ends with `ThreadFault`; one
/// that can't be made after that may leave it waiting for ever.
pub fn run_server<
    R: Threads + Wait + std::time::Clock + Sync,
    S: Source + Send,
    N: Listener,
    D: Disk + Send,
    I: ByteSource,
>(
    rt: &R,
    alloc: Global,
    connections: u32,
    catalogue: &mut I,
    capabilities: &mut I,
    recipes: &mut I,
    listener: &mut N,
    sources: Vec<S>,
    disk: D,
    clock: Clock,
    told: Snapshot<bool>,
) -> ServerEnd
where
    N::L: Send,
    requires sources { length sources.items ≡ SOURCES }
    requires connections { (1 ≤ connections) × (connections ≤ 1000000) }
    requires told { told.value ≡ true → IsTrue (D.told disk) × HoldsPictures (I.left catalogue.old) (D.state disk).seen × TellAll (I.left catalogue.old) S.told sources.items }
    requires holds { HoldsFile (I.left catalogue.old) (D.told disk) (D.state disk).seen }
    ensures { HasEnded
        (record {
          catalogue = record { reads = counts (I.faults catalogue.old) (I.faults catalogue.new); from = I.left catalogue.old; to = I.left catalogue.new };
          capabilities = record { reads = counts (I.faults capabilities.old) (I.faults capabilities.new); from = I.left capabilities.old; to = I.left capabilities.new };
          recipes = record { reads = counts (I.faults recipes.old) (I.faults recipes.new); from = I.left recipes.old; to = I.left recipes.new };
          clock = clock;
          connections = connections;
          reading = record { left = N.L.left; taken = N.L.taken; reads = N.L.ByteSource.faults; writes = N.L.ByteSink.faults };
          sources = record { faults = S.faults; gave = S.gave };
          given_before = N.given listener.old;
          given_after = N.given listener.new;
          accepts = counts (N.faults listener.old) (N.faults listener.new);
          told = told.value;
        })
        (record { disk = disk; told = D.told disk; seen = (D.state disk).seen; faults = D.faults })
        (capabilities.new ≡ capabilities.old) (recipes.new ≡ recipes.old) (listener.new ≡ listener.old) result }
{
    let stage = match made_ready(alloc, catalogue, capabilities, recipes, clock, disk, &told) {
        Ok(stage) => stage,
        Err(end) => return end,
    };
    ServerEnd::Ended(status_of_service(serve_hall(
        rt,
        alloc,
        connections,
        stage,
        sources,
        listener,
    )))
}
