//! What a server works with, made ready before the first link.
ghost use Rattle.std.specs.Prelude.{Bool, IfErr, IfOk, IsTrue, length, true, ◌≡◌};
ghost use Rattle.catalog.specs.Valid.{IsValid};
ghost use Rattle.command_setup.specs.Held.{HoldsFile};
ghost use Rattle.durable_cabinet.specs.Images.{IsOurs, IsSoundImage};
ghost use Rattle.layer_recipes.specs.Books.{IsBookOf};
ghost use Rattle.server_command.specs.Opened.{HoldsPictures, IsOpenedFromDisk};
ghost use Rattle.server_command.specs.Recipes.{Recites};
ghost use Rattle.server_command.specs.Setup.{AreFirst, IsStaged, IsUnready, Refuses, RefusesRest};
ghost use Rattle.server_workers.specs.First.{AreFirstAtBoard};
ghost use Rattle.sessions.specs.Outside.{InputChange, counts};

use crate::ends::{ServerEnd, end_of_recipes};
use crate::recipes::read_recipes;
use base::Clock;
use catalog::Catalogue;
use command_setup::{both_read, status_of_refusal};
use command_status::{Status, status_of_opening};
use disk_model::Disk;
use durable_cabinet::Cabinet;
use exact_ratio::Words;
use http_wire::ByteSource;
use layer_recipes::RecipeBook;
use server_workers::{BOARD_PASSES, PASSES, ReadyServer, stage_of};
use std::alloc::Global;
use std::snapshot::Snapshot;
use tile_requests::Tables;

/// Opens the cabinet of a disk.
fn cabinet_of<D: Disk>(
    alloc: Global,
    catalogue: Catalogue,
    clock: Clock,
    disk: D,
) -> Result<Cabinet<D>, Status>
    requires valid { IsValid catalogue }
    requires ours { IsTrue (D.told disk) → IsOurs catalogue (D.state disk).seen }
    ensures opened { IfOk result (λ k. IsOpenedFromDisk (record { disk = disk; told = D.told disk; seen = (D.state disk).seen; faults = D.faults }) catalogue clock k.state) }
    ensures refused { IfErr result (λ end. Refuses (record { disk = disk; told = D.told disk; seen = (D.state disk).seen; faults = D.faults }) catalogue end) }
{
    match Cabinet::open(alloc, catalogue, clock, disk) {
        Ok(cabinet) => Ok(cabinet),
        Err(refusal) => {
            let (fault, left) = refusal;
            drop(left);
            Err(status_of_opening(fault))
        }
    }
}

/// Opens the cabinet of a disk and makes a world over it.
fn world_on<D: Disk>(
    alloc: Global,
    catalogue: Catalogue,
    capabilities: Words,
    recipes: RecipeBook,
    clock: Clock,
    disk: D,
) -> Result<ReadyServer<Cabinet<D>>, Status>
    ghost told: { Bool }
    requires valid { IsValid catalogue }
    requires ours { IsTrue (D.told disk) → IsOurs catalogue (D.state disk).seen }
    requires sound { told ≡ true → IsTrue (D.told disk) × IsSoundImage catalogue (D.state disk).seen }
    ensures catalogue { IfOk result (λ o. o.world.hall.catalogue ≡ catalogue) }
    ensures document { IfOk result (λ o. o.world.capabilities ≡ capabilities) }
    ensures recipes { IfOk result (λ o. o.world.recipes ≡ recipes) }
    ensures count { IfOk result (λ o. (length o.passes.items ≡ PASSES) × (o.world.hall.turnstile.passes ≡ PASSES)) }
    ensures boards { IfOk result (λ o. AreFirstAtBoard o.world.board.turnstile.table BOARD_PASSES o.boards.items) }
    ensures first { IfOk result (λ o. AreFirst (record { disk = disk; told = D.told disk; seen = (D.state disk).seen; faults = D.faults }) catalogue clock told o.world.hall.turnstile.table o.passes.items) }
    ensures refused { IfErr result (λ end. Refuses (record { disk = disk; told = D.told disk; seen = (D.state disk).seen; faults = D.faults }) catalogue end) }
{
    let Ok(tables) = Tables::new(alloc) else {
        drop(catalogue);
        drop(recipes);
        return Err(Status::OutOfMemory);
    };
    let cabinet = match cabinet_of(alloc, catalogue, clock, disk) {
        Ok(cabinet) => cabinet,
        Err(end) => {
            drop(tables);
            drop(recipes);
            return Err(end);
        }
    };
    match stage_of(alloc, tables, capabilities, recipes, cabinet) {
        Ok(stage) => Ok(stage),
        Err(_) => Err(Status::OutOfMemory),
    }
}

/// Reads the recipes, opens the cabinet of the disk and makes a world over it.
fn world_with<D: Disk, I: ByteSource>(
    alloc: Global,
    catalogue: Catalogue,
    capabilities: Words,
    recipes: &mut I,
    clock: Clock,
    disk: D,
) -> Result<ReadyServer<Cabinet<D>>, ServerEnd>
    ghost told: { Bool }
    requires valid { IsValid catalogue }
    requires ours { IsTrue (D.told disk) → IsOurs catalogue (D.state disk).seen }
    requires sound { told ≡ true → IsTrue (D.told disk) × IsSoundImage catalogue (D.state disk).seen }
    ensures catalogue { IfOk result (λ o. o.world.hall.catalogue ≡ catalogue) }
    ensures document { IfOk result (λ o. o.world.capabilities ≡ capabilities) }
    ensures recites { IfOk result (λ o. Recites (record { reads = counts (I.faults recipes.old) (I.faults recipes.new); from = I.left recipes.old; to = I.left recipes.new }) catalogue o.world.recipes) }
    ensures book { IfOk result (λ o. IsBookOf catalogue o.world.recipes) }
    ensures count { IfOk result (λ o. (length o.passes.items ≡ PASSES) × (o.world.hall.turnstile.passes ≡ PASSES)) }
    ensures boards { IfOk result (λ o. AreFirstAtBoard o.world.board.turnstile.table BOARD_PASSES o.boards.items) }
    ensures first { IfOk result (λ o. AreFirst (record { disk = disk; told = D.told disk; seen = (D.state disk).seen; faults = D.faults }) catalogue clock told o.world.hall.turnstile.table o.passes.items) }
    ensures refused { IfErr result (λ end. RefusesRest (record { reads = counts (I.faults recipes.old) (I.faults recipes.new); from = I.left recipes.old; to = I.left recipes.new }) (record { disk = disk; told = D.told disk; seen = (D.state disk).seen; faults = D.faults }) catalogue end) }
{
    let book = match read_recipes(alloc, &catalogue, recipes) {
        Ok(book) => book,
        Err(refusal) => {
            drop(catalogue);
            return Err(end_of_recipes(refusal));
        }
    };
    match world_on(alloc, catalogue, capabilities, book, clock, disk) {
        Ok(stage) => Ok(stage),
        Err(status) => Err(ServerEnd::Ended(status)),
    }
}

/// Reads the catalogue, the capabilities document and the recipes, opens the cabinet of the disk, and makes a world over it. The mark of being
/// told is handed in as a value too, since a proof names the mark of a call by what is handed in.
pub(crate) fn made_ready<D: Disk, I: ByteSource>(
    alloc: Global,
    catalogue: &mut I,
    capabilities: &mut I,
    recipes: &mut I,
    clock: Clock,
    disk: D,
    _mark: &Snapshot<bool>,
) -> Result<ReadyServer<Cabinet<D>>, ServerEnd>
    ghost told: { Bool }
    requires holds { HoldsFile (I.left catalogue.old) (D.told disk) (D.state disk).seen }
    requires sound { told ≡ true → IsTrue (D.told disk) × HoldsPictures (I.left catalogue.old) (D.state disk).seen }
    ensures valid { IfOk result (λ o. IsValid o.world.hall.catalogue) }
    ensures book { IfOk result (λ o. IsBookOf o.world.hall.catalogue o.world.recipes) }
    ensures count { IfOk result (λ o. (length o.passes.items ≡ PASSES) × (o.world.hall.turnstile.passes ≡ PASSES)) }
    ensures boards { IfOk result (λ o. AreFirstAtBoard o.world.board.turnstile.table BOARD_PASSES o.boards.items) }
    ensures staged { IfOk result (λ o. IsStaged
        (record { reads = counts (I.faults catalogue.old) (I.faults catalogue.new); from = I.left catalogue.old; to = I.left catalogue.new })
        (record { reads = counts (I.faults capabilities.old) (I.faults capabilities.new); from = I.left capabilities.old; to = I.left capabilities.new })
        (record { reads = counts (I.faults recipes.old) (I.faults recipes.new); from = I.left recipes.old; to = I.left recipes.new })
        (record { disk = disk; told = D.told disk; seen = (D.state disk).seen; faults = D.faults })
        clock told o.world.hall.catalogue o.world.capabilities o.world.recipes o.world.hall.turnstile.table o.passes.items) }
    ensures refused { IfErr result (λ end. IsUnready
        (record { reads = counts (I.faults catalogue.old) (I.faults catalogue.new); from = I.left catalogue.old; to = I.left catalogue.new })
        (record { reads = counts (I.faults capabilities.old) (I.faults capabilities.new); from = I.left capabilities.old; to = I.left capabilities.new })
        (record { reads = counts (I.faults recipes.old) (I.faults recipes.new); from = I.left recipes.old; to = I.left recipes.new })
        (record { disk = disk; told = D.told disk; seen = (D.state disk).seen; faults = D.faults })
        (capabilities.new ≡ capabilities.old) (recipes.new ≡ recipes.old) end) }
{
    match both_read(alloc, catalogue, capabilities) {
        Ok((read, document)) => world_with(alloc, read, document, recipes, clock, disk),
        Err(refusal) => Err(ServerEnd::Ended(status_of_refusal(refusal))),
    }
}
