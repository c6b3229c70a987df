//! One line behind a recipe: its order is answered.
ghost use Rattle.std.specs.Prelude.{◌≡◌, ◌≤◌, length, IfErr, IfOk, List, Option, ℕ};
ghost use Rattle.base.specs.Causes.{Rose};
ghost use Rattle.cabinet.specs.Commands.{Cuts, IsCountedCut};
ghost use Rattle.catalog.specs.Valid.{IsValid};
ghost use Rattle.compose_words.specs.OneLine.{IsToldAs, MomentGoesOn, RunsLine, RunsOrder};
ghost use Rattle.compose_words.specs.Orders.{IsOrderOf};
ghost use Rattle.compose_words.specs.Run.{Answers};
ghost use Rattle.compose_words.specs.Texts.{HasFewParts};
ghost use Rattle.compose_words.specs.Written.{OutputChange};
ghost use Rattle.composite_layers.specs.Composes.{Composes};
ghost use Rattle.composite_layers.specs.Parts.{CompositionMoment, moment};
ghost use Rattle.layer_recipes.specs.OfCatalogue.{IsPlaceIn, IsRecipeOf};
ghost use Rattle.layer_recipes.specs.declared.recipe.Part.{Part};
ghost use Rattle.served_covers.specs.OfCatalogue.{IsCoverOf};
ghost use Rattle.sessions.specs.Outside.{counts};
ghost use Rattle.tile_service.specs.Session.{IsAtRest};

use crate::orders::{CompositionOrder, UnreadOrder, read_order};
use crate::reply::CompositionReply;
use crate::text::send_answer;
use cabinet::{Cabinet, CutReply};
use composite_layers::compose_plain;
use http_wire::ByteSink;
use layer_recipes::{ComposeFault, Composed, Recipe, TilePlace};
use source_render::Source;
use std::alloc::{AllocError, Global};
use truncation_list::Cover;

/// How a line ended.
#[derive(Clone, Copy, PartialEq, Eq)]
pub enum CompositionLineEnd {
    /// Its order was answered, and the answer went out.
    Told,
    /// It gives no order, and nothing happened.
    Refused,
    /// Its order was answered, and a write of the answer failed.
    WriteFault,
    /// Memory ran out, and nothing was answered.
    OutOfMemory,
}

/// Makes the composite at a place.
fn compose_at<S: Source>(
    alloc: Global,
    cabinet: &mut Cabinet,
    source: &mut S,
    recipe: &Recipe,
    place: &TilePlace,
) -> Result<Composed, ComposeFault>
    requires valid { IsValid cabinet.old.catalogue }
    requires recipe { IsRecipeOf cabinet.old.catalogue recipe.now }
    requires grid { place.now.grid ≡ recipe.now.grid }
    requires place { IsPlaceIn cabinet.old.catalogue place.now }
    requires rest { IsAtRest cabinet.old }
    ensures composes { Composes (S.told source.old) place.now (moment cabinet.old (S.faults source.old) 0) recipe.now.parts.items result (moment cabinet.new (S.faults source.new) 0) }
    ensures few { IfOk result (λ composed. length composed.numbers.items ≤ 8) }
    ensures cause { IfErr result (λ e. e ≡ ComposeFault.SourceFault → Rose (S.faults source.old) (S.faults source.new)) }
    ensures goes { MomentGoesOn (S.told source.old) (moment cabinet.old (S.faults source.old) 0) (moment cabinet.new (S.faults source.new) 0) }
    ensures told { S.told source.new ≡ S.told source.old }
{
    compose_plain(
        alloc, cabinet, source, recipe, place.z, place.row, place.col,
    )
}

/// Answers the order of a composite.
fn get<S: Source>(
    alloc: Global,
    cabinet: &mut Cabinet,
    source: &mut S,
    recipe: &Recipe,
    place: &TilePlace,
) -> Result<CompositionReply, AllocError>
    requires valid { IsValid cabinet.old.catalogue }
    requires recipe { IsRecipeOf cabinet.old.catalogue recipe.now }
    requires grid { place.now.grid ≡ recipe.now.grid }
    requires place { IsPlaceIn cabinet.old.catalogue place.now }
    requires rest { IsAtRest cabinet.old }
    ensures answers { IfOk result (λ reply. Answers (S.told source.old) recipe.now.parts.items (moment cabinet.old (S.faults source.old) 0) (CompositionOrder.Get place.now) reply (moment cabinet.new (S.faults source.new) 0)) }
    ensures few { IfOk result HasFewParts }
    ensures goes { MomentGoesOn (S.told source.old) (moment cabinet.old (S.faults source.old) 0) (moment cabinet.new (S.faults source.new) 0) }
    ensures told { S.told source.new ≡ S.told source.old }
{
    match compose_at(alloc, cabinet, source, recipe, place) {
        Ok(composed) => Ok(CompositionReply::Tile(composed)),
        Err(ComposeFault::SourceFault) => Ok(CompositionReply::Fault),
        Err(ComposeFault::Spent) => Ok(CompositionReply::Spent),
        Err(ComposeFault::OutOfMemory) => Err(AllocError),
    }
}

/// Makes the truncation of what a cover is for.
fn cut(alloc: Global, cabinet: &mut Cabinet, cover: &Cover) -> Result<CutReply, AllocError>
    requires cover { IsCoverOf cabinet.old.catalogue cover.now }
    requires rest { IsAtRest cabinet.old }
    ensures cuts { IfOk result (λ reply. Cuts cabinet.old cover.now reply cabinet.new) }
    ensures counted { IfOk result (IsCountedCut 0 0) }
    ensures goes { (told : Option ℕ) (renders : ℕ) → MomentGoesOn told (moment cabinet.old renders 0) (moment cabinet.new renders 0) }
{
    cabinet.cut(alloc, cover)
}

/// Answers the order of a truncation. A cabinet in memory has no disk that could fail.
fn truncate(
    alloc: Global,
    cabinet: &mut Cabinet,
    cover: &Cover,
) -> Result<CompositionReply, AllocError>
    requires cover { IsCoverOf cabinet.old.catalogue cover.now }
    requires rest { IsAtRest cabinet.old }
    ensures answers { (told : Option ℕ) (parts : List Part) (renders : ℕ) → IfOk result (λ reply. Answers told parts (moment cabinet.old renders 0) (CompositionOrder.Truncate cover.now) reply (moment cabinet.new renders 0)) }
    ensures few { IfOk result HasFewParts }
    ensures goes { (told : Option ℕ) (renders : ℕ) → MomentGoesOn told (moment cabinet.old renders 0) (moment cabinet.new renders 0) }
{
    match cut(alloc, cabinet, cover) {
        Ok(CutReply::Done(number)) => Ok(CompositionReply::Cut(number)),
        Ok(CutReply::Full) => Ok(CompositionReply::Full),
        Ok(CutReply::Spent) => Ok(CompositionReply::Spent),
        Ok(CutReply::DiskFault(_, _)) => unreachable!(),
        Err(fault) => Err(fault),
    }
}

/// Answers an order. `AllocError` where memory runs out.
fn answer<S: Source>(
    alloc: Global,
    cabinet: &mut Cabinet,
    source: &mut S,
    recipe: &Recipe,
    order: CompositionOrder,
) -> Result<CompositionReply, AllocError>
    requires valid { IsValid cabinet.old.catalogue }
    requires recipe { IsRecipeOf cabinet.old.catalogue recipe.now }
    requires order { IsOrderOf cabinet.old.catalogue recipe.now.grid order }
    requires rest { IsAtRest cabinet.old }
    ensures answers { IfOk result (λ reply. Answers (S.told source.old) recipe.now.parts.items (moment cabinet.old (S.faults source.old) 0) order reply (moment cabinet.new (S.faults source.new) 0)) }
    ensures few { IfOk result HasFewParts }
    ensures goes { MomentGoesOn (S.told source.old) (moment cabinet.old (S.faults source.old) 0) (moment cabinet.new (S.faults source.new) 0) }
    ensures told { S.told source.new ≡ S.told source.old }
{
    match order {
        CompositionOrder::Get(place) => get(alloc, cabinet, source, recipe, &place),
        CompositionOrder::Truncate(cover) => truncate(alloc, cabinet, &cover),
    }
}

/// Tells what an order of the line of a number was answered.
fn tell<O: ByteSink>(output: &mut O, number: u64, reply: &CompositionReply) -> CompositionLineEnd
    requires { HasFewParts reply.now }
    ensures tells { IsToldAs (record { writes = counts (O.faults output.old) (O.faults output.new); from = O.taken output.old; to = O.taken output.new }) number reply.now result }
    ensures later { O.faults output.old ≤ O.faults output.new }
{
    if send_answer(output, number, reply) {
        CompositionLineEnd::Told
    } else {
        CompositionLineEnd::WriteFault
    }
}

/// Answers an order of the line of a number, and tells the answer.
fn run_order<S: Source, O: ByteSink>(
    alloc: Global,
    cabinet: &mut Cabinet,
    output: &mut O,
    source: &mut S,
    recipe: &Recipe,
    number: u64,
    order: CompositionOrder,
) -> CompositionLineEnd
    requires valid { IsValid cabinet.old.catalogue }
    requires recipe { IsRecipeOf cabinet.old.catalogue recipe.now }
    requires order { IsOrderOf cabinet.old.catalogue recipe.now.grid order }
    requires rest { IsAtRest cabinet.old }
    ensures runs { RunsOrder (S.told source.old) recipe.now.parts.items
        (record { writes = counts (O.faults output.old) (O.faults output.new); from = O.taken output.old; to = O.taken output.new })
        (output.new ≡ output.old) number (moment cabinet.old (S.faults source.old) 0) order (moment cabinet.new (S.faults source.new) 0) result }
    ensures goes { MomentGoesOn (S.told source.old) (moment cabinet.old (S.faults source.old) 0) (moment cabinet.new (S.faults source.new) 0) }
    ensures told { S.told source.new ≡ S.told source.old }
    ensures later { O.faults output.old ≤ O.faults output.new }
{
    match answer(alloc, cabinet, source, recipe, order) {
        Ok(reply) => tell(output, number, &reply),
        Err(_) => CompositionLineEnd::OutOfMemory,
    }
}

/// Answers the order that the line of a number gives, and tells the answer.
pub(crate) fn run_line<S: Source, O: ByteSink>(
    alloc: Global,
    cabinet: &mut Cabinet,
    output: &mut O,
    source: &mut S,
    recipe: &Recipe,
    number: u64,
    line: &[u8],
) -> CompositionLineEnd
    requires valid { IsValid cabinet.old.catalogue }
    requires recipe { IsRecipeOf cabinet.old.catalogue recipe.now }
    requires rest { IsAtRest cabinet.old }
    ensures runs { RunsLine (S.told source.old) recipe.now.grid recipe.now.parts.items
        (record { writes = counts (O.faults output.old) (O.faults output.new); from = O.taken output.old; to = O.taken output.new })
        (output.new ≡ output.old) number line.now (moment cabinet.old (S.faults source.old) 0) (moment cabinet.new (S.faults source.new) 0) result }
    ensures goes { MomentGoesOn (S.told source.old) (moment cabinet.old (S.faults source.old) 0) (moment cabinet.new (S.faults source.new) 0) }
    ensures told { S.told source.new ≡ S.told source.old }
    ensures later { O.faults output.old ≤ O.faults output.new }
{
    match read_order(alloc, cabinet.catalogue(), recipe.grid, line) {
        Ok(order) => run_order(alloc, cabinet, output, source, recipe, number, order),
        Err(UnreadOrder::Refused) => CompositionLineEnd::Refused,
        Err(UnreadOrder::OutOfMemory) => CompositionLineEnd::OutOfMemory,
    }
}
