//! The input of a composition: its recipe, and the lines behind it, answered on a cabinet in memory.
ghost use Rattle.std.specs.Prelude.{◌≡◌, ◌<◌, ◌≤◌, ◌^◌, length, IfOk, MatchResult};
ghost use Rattle.cabinet.specs.State.{fresh_state};
ghost use Rattle.catalog.specs.Valid.{IsValid};
ghost use Rattle.compose_words.specs.Composing.{IsRecipe, IsUnread, LinesTell};
ghost use Rattle.compose_words.specs.Ends.{InputEnds, Outer, TextEnds, first_of, rest_of};
ghost use Rattle.layer_recipes.specs.OfCatalogue.{IsRecipeOf};
ghost use Rattle.sessions.specs.Outside.{InputChange, counts};
ghost use Rattle.tile_service.specs.Lines.{lines_of};

use crate::end::{ComposeEnd, end_of_lines};
use crate::lines::run_lines;
use base::Clock;
use cabinet::Cabinet;
use catalog::Catalogue;
use http_wire::{ByteSink, ByteSource, InputEnd, read_all};
use layer_recipes::{Recipe, RecipeFault};
use schedule_text::LINE_LIMIT;
use source_render::Source;
use std::alloc::Global;
use tile_service::split_line;

/// The most bytes of an input.
const INPUT_LIMIT: usize = 16_777_216;

/// The first line of a text, and what stands behind it; nothing where the text has no line.
fn first_line(text: &[u8]) -> (&[u8], &[u8])
    ensures first { result.0.now ≡ first_of (lines_of text.now) }
    ensures rest { lines_of result.1.now ≡ rest_of (lines_of text.now) }
    ensures shorter { length result.1.now ≤ length text.now }
{
    if text.is_empty() {
        (text, text)
    } else {
        split_line(text)
    }
}

/// The recipe that a line is, or how a composition ends without one.
fn read_recipe(alloc: Global, catalogue: &Catalogue, line: &[u8]) -> Result<Recipe, ComposeEnd>
    requires { IsValid catalogue.now }
    ensures reads { MatchResult result (λ recipe. IsRecipe catalogue.now line.now recipe.grid recipe.parts.items) (IsUnread catalogue.now line.now) }
    ensures of { IfOk result (IsRecipeOf catalogue.now) }
{
    if line.len() > LINE_LIMIT {
        return Err(ComposeEnd::Line(1));
    }
    match Recipe::read(alloc, catalogue, line) {
        Ok(recipe) => Ok(recipe),
        Err(RecipeFault::OutOfMemory) => Err(ComposeEnd::OutOfMemory),
        Err(fault) => Err(ComposeEnd::Recipe(fault)),
    }
}

/// Answers the lines of a text on a cabinet in memory in which nothing has happened.
fn compose_lines<S: Source, O: ByteSink>(
    alloc: Global,
    catalogue: Catalogue,
    recipe: &Recipe,
    output: &mut O,
    source: &mut S,
    clock: Clock,
    text: &[u8],
) -> ComposeEnd
    requires valid { IsValid catalogue }
    requires recipe { IsRecipeOf catalogue recipe.now }
    requires short { length text.now < 2 ^ 32 }
    ensures tells { LinesTell
        (record { told = S.told source.old; renders = counts (S.faults source.old) (S.faults source.new); output = record { writes = counts (O.faults output.old) (O.faults output.new); from = O.taken output.old; to = O.taken output.new } })
        ((output.new ≡ output.old) × (source.new ≡ source.old)) (fresh_state catalogue clock) recipe.now.grid recipe.now.parts.items (lines_of text.now) result }
{
    match Cabinet::memory(alloc, catalogue, clock) {
        Ok(mut cabinet) => {
            let end = run_lines(alloc, &mut cabinet, output, source, recipe, text);
            drop(cabinet);
            end_of_lines(end)
        }
        Err(_) => ComposeEnd::OutOfMemory,
    }
}

/// Reads the recipe of a text, and answers the lines behind it.
fn compose_text<S: Source, O: ByteSink>(
    alloc: Global,
    catalogue: Catalogue,
    output: &mut O,
    source: &mut S,
    clock: Clock,
    text: &[u8],
) -> ComposeEnd
    requires valid { IsValid catalogue }
    requires short { length text.now < 2 ^ 32 }
    ensures ends { TextEnds
        (record { told = S.told source.old; renders = counts (S.faults source.old) (S.faults source.new); output = record { writes = counts (O.faults output.old) (O.faults output.new); from = O.taken output.old; to = O.taken output.new } })
        ((output.new ≡ output.old) × (source.new ≡ source.old)) catalogue clock text.now result }
{
    let (first, behind) = first_line(text);
    match read_recipe(alloc, &catalogue, first) {
        Ok(recipe) => compose_lines(alloc, catalogue, &recipe, output, source, clock, behind),
        Err(end) => end,
    }
}

/// Reads the input whole, and answers its lines by the recipe that is the first of them. Each end comes as `InputEnds` says.
pub(crate) fn compose_input<S: Source, I: ByteSource, O: ByteSink>(
    alloc: Global,
    catalogue: Catalogue,
    input: &mut I,
    output: &mut O,
    source: &mut S,
    clock: Clock,
) -> ComposeEnd
    requires { IsValid catalogue }
    ensures ends { InputEnds
        (record { reads = counts (I.faults input.old) (I.faults input.new); from = I.left input.old; to = I.left input.new })
        (record { told = S.told source.old; renders = counts (S.faults source.old) (S.faults source.new); output = record { writes = counts (O.faults output.old) (O.faults output.new); from = O.taken output.old; to = O.taken output.new } })
        ((output.new ≡ output.old) × (source.new ≡ source.old)) catalogue clock result }
{
    match read_all(alloc, input, INPUT_LIMIT) {
        Ok(text) => compose_text(alloc, catalogue, output, source, clock, text.as_slice()),
        Err(InputEnd::ReadFault) => ComposeEnd::ReadFault,
        Err(InputEnd::TooLong) => ComposeEnd::TooLong,
        Err(InputEnd::OutOfMemory) => ComposeEnd::OutOfMemory,
    }
}
