//! The lines behind a recipe, one after the other.
ghost use Rattle.std.specs.Prelude.{◌≡◌, ◌<◌, ◌^◌, length};
ghost use Rattle.cabinet.specs.State.{IsSound};
ghost use Rattle.catalog.specs.Valid.{IsValid};
ghost use Rattle.compose_words.specs.Ends.{HasRunLines, Outer};
ghost use Rattle.layer_recipes.specs.OfCatalogue.{IsRecipeOf};
ghost use Rattle.sessions.specs.Outside.{counts};
ghost use Rattle.tile_service.specs.Lines.{lines_of};
ghost use Rattle.tile_service.specs.Session.{IsAtRest};

use crate::line::{CompositionLineEnd, run_line};
use cabinet::Cabinet;
use http_wire::ByteSink;
use layer_recipes::Recipe;
use source_render::Source;
use std::alloc::Global;
use tile_service::split_line;

/// How the lines behind a recipe ended.
#[derive(Clone, Copy, PartialEq, Eq)]
pub enum CompositionLinesEnd {
    /// Each line was answered.
    Done,
    /// This line gives no order, counted from 1 with the recipe's line; the lines before it were answered.
    Line(u64),
    /// A write of an answer failed; no later line was looked at.
    WriteFault,
    /// Memory ran out; no later line was looked at.
    OutOfMemory,
}

/// Answers the orders of the lines of a text, one after the other, of which the first is the second of the input, and tells each answer.
pub(crate) fn run_lines<S: Source, O: ByteSink>(
    alloc: Global,
    cabinet: &mut Cabinet,
    output: &mut O,
    source: &mut S,
    recipe: &Recipe,
    text: &[u8],
) -> CompositionLinesEnd
    requires valid { IsValid cabinet.old.catalogue }
    requires recipe { IsRecipeOf cabinet.old.catalogue recipe.now }
    requires rest { IsAtRest cabinet.old }
    requires sound { IsSound cabinet.old }
    requires short { length text.now < 2 ^ 32 }
    ensures runs { HasRunLines
        (record { told = S.told source.old; renders = counts (S.faults source.old) (S.faults source.new); output = record { writes = counts (O.faults output.old) (O.faults output.new); from = O.taken output.old; to = O.taken output.new } })
        cabinet.old recipe.now.grid recipe.now.parts.items (lines_of text.now) result }
{
    let mut rest = text;
    let mut number = 1;
    while !rest.is_empty() {
        let (line, next) = split_line(rest);
        number += 1;
        match run_line(alloc, cabinet, output, source, recipe, number, line) {
            CompositionLineEnd::Told => {}
            CompositionLineEnd::Refused => return CompositionLinesEnd::Line(number),
            CompositionLineEnd::WriteFault => return CompositionLinesEnd::WriteFault,
            CompositionLineEnd::OutOfMemory => return CompositionLinesEnd::OutOfMemory,
        }
        rest = next;
    }
    CompositionLinesEnd::Done
}
