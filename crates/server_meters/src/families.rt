//! The families of a server's counts.
ghost use Rattle.metrics_text.specs.Names.{is_metric_name};
ghost use Rattle.std.specs.Prelude.{◌≡◌, true};

use crate::kinds::Levels;
use crate::meters::Meters;
use crate::requests::OutcomeTally;
use crate::samples::{add_sample, family, histogram, label, single};
use crate::tally::Tally;
use metrics_text::{Family, Label, MetricKind};
use std::alloc::{AllocError, Global};

/// The labels of a layer and an outcome.
fn request_labels(alloc: Global, layer: &[u8], outcome: &[u8]) -> Result<Vec<Label>, AllocError> {
    let mut labels = Vec::new(alloc);
    labels.push(label(alloc, b"layer", layer)?)?;
    labels.push(label(alloc, b"outcome", outcome)?)?;
    Ok(labels)
}

/// Adds the requests of a layer.
fn add_layer(
    alloc: Global,
    family: &mut Family,
    layer: &[u8],
    tally: &OutcomeTally,
) -> Result<(), AllocError> {
    add_sample(family, request_labels(alloc, layer, b"hit")?, tally.hits)?;
    add_sample(family, request_labels(alloc, layer, b"miss")?, tally.misses)?;
    add_sample(
        family,
        request_labels(alloc, layer, b"refusal")?,
        tally.refusals,
    )?;
    add_sample(
        family,
        request_labels(alloc, layer, b"fault")?,
        tally.faults,
    )
}

/// The requests of each layer. Those that are counted with no layer have an empty label, which no layer has as its name.
fn requests(alloc: Global, meters: &Meters) -> Result<Family, AllocError> {
    let mut made = family(
        alloc,
        b"tile_server_requests_total",
        b"Requests for tiles, by layer and by what they came to. An empty layer: none was named, or the layer isn't counted apart.",
        MetricKind::Counter,
    )?;
    let mut number = 0u32;
    for layer in &meters.layers {
        add_layer(alloc, &mut made, layer.bytes(), &meters.requests_of(number))?;
        number = number.saturating_add(1);
    }
    add_layer(alloc, &mut made, b"", &meters.other_requests())?;
    Ok(made)
}

/// A sample of a fault.
fn add_fault(
    alloc: Global,
    family: &mut Family,
    object: &[u8],
    count: u64,
) -> Result<(), AllocError> {
    let mut labels = Vec::new(alloc);
    labels.push(label(alloc, b"object", object)?)?;
    add_sample(family, labels, count)
}

/// The faults by what failed.
fn faults(alloc: Global, tally: &Tally) -> Result<Family, AllocError> {
    let mut made = family(
        alloc,
        b"tile_server_faults_total",
        b"What failed: the disk, a source, memory that ran out, or a limit that was reached (crowded).",
        MetricKind::Counter,
    )?;
    add_fault(alloc, &mut made, b"disk", tally.disk)?;
    add_fault(alloc, &mut made, b"source", tally.source)?;
    add_fault(alloc, &mut made, b"memory", tally.memory)?;
    add_fault(alloc, &mut made, b"crowded", tally.crowded)?;
    Ok(made)
}

/// Adds the families of renders and of those that wait for them.
fn add_renders(alloc: Global, into: &mut Vec<Family>, tally: &Tally) -> Result<(), AllocError> {
    into.push(single(
        alloc,
        b"tile_server_renders_under_way",
        b"Renders that have begun and not ended.",
        MetricKind::Gauge,
        tally.renders_under_way(),
    )?)?;
    into.push(histogram(
        alloc,
        b"tile_server_render_seconds",
        b"How long renders took.",
        &tally.renders,
    )?)?;
    into.push(single(
        alloc,
        b"tile_server_waits_total",
        b"Pauses of requests that wait for a render of another one.",
        MetricKind::Counter,
        tally.waits,
    )?)?;
    into.push(single(
        alloc,
        b"tile_server_turned_away_total",
        b"Requests that were turned away since too many wait.",
        MetricKind::Counter,
        tally.turned_away,
    )?)?;
    Ok(())
}

/// Adds the families of the cache's work.
fn add_work(alloc: Global, into: &mut Vec<Family>, tally: &Tally) -> Result<(), AllocError> {
    into.push(single(
        alloc,
        b"tile_server_turns_total",
        b"Turns at the cache.",
        MetricKind::Counter,
        tally.turns,
    )?)?;
    into.push(histogram(
        alloc,
        b"tile_server_sync_seconds",
        b"How long the disk took to keep what was written.",
        &tally.syncs,
    )?)?;
    into.push(faults(alloc, tally)?)?;
    into.push(single(
        alloc,
        b"tile_server_unkept_total",
        b"Metatiles that were rendered and served, and could not be kept.",
        MetricKind::Counter,
        tally.unkept,
    )?)?;
    Ok(())
}

/// Adds a family of a number that rises and falls.
fn add_level(
    alloc: Global,
    into: &mut Vec<Family>,
    name: &[u8],
    help: &[u8],
    level: u64,
) -> Result<(), AllocError>
    requires name { is_metric_name name.now ≡ true }
{
    into.push(single(alloc, name, help, MetricKind::Gauge, level)?)?;
    Ok(())
}

/// Adds the families of what is kept, and of what is going on.
fn add_levels(
    alloc: Global,
    into: &mut Vec<Family>,
    tally: &Tally,
    levels: &Levels,
) -> Result<(), AllocError> {
    add_level(
        alloc,
        into,
        b"tile_server_hot_metatiles",
        b"Metatiles in the hot tier.",
        levels.hot_metatiles,
    )?;
    add_level(
        alloc,
        into,
        b"tile_server_kept_metatiles",
        b"Metatiles that are kept.",
        levels.kept_metatiles,
    )?;
    add_level(
        alloc,
        into,
        b"tile_server_kept_bytes",
        b"Bytes of the metatiles that are kept.",
        levels.kept_bytes,
    )?;
    add_level(
        alloc,
        into,
        b"tile_server_truncations",
        b"Truncations in force.",
        levels.truncations,
    )?;
    add_level(
        alloc,
        into,
        b"tile_server_open_connections",
        b"Connections that are open.",
        tally.open_connections(),
    )?;
    add_level(
        alloc,
        into,
        b"tile_server_jobs",
        b"Jobs that wait or run.",
        levels.jobs,
    )
}

impl Meters {
    /// The families for `write_metrics`: what all workers counted, and the numbers given. Each is read for itself, so counts that are raised
    /// meanwhile may be told by one family and not by another one. `AllocError` where memory runs out.
    pub fn families(&self, alloc: Global, levels: &Levels) -> Result<Vec<Family>, AllocError> {
        let tally = self.tally();
        let mut made = Vec::new(alloc);
        made.push(requests(alloc, self)?)?;
        add_renders(alloc, &mut made, &tally)?;
        add_work(alloc, &mut made, &tally)?;
        add_levels(alloc, &mut made, &tally, levels)?;
        Ok(made)
    }
}
