//! The recipes of a server, read from their file.
ghost use Rattle.std.specs.Prelude.{◌≡◌, IfOk};
ghost use Rattle.catalog.specs.Valid.{IsValid};
ghost use Rattle.layer_recipes.specs.Books.{IsBookOf, book_of};
ghost use Rattle.server_command.specs.Recipes.{Says, ReadsRecipes};
ghost use Rattle.sessions.specs.Outside.{InputChange, counts};

use catalog::Catalogue;
use http_wire::{ByteSource, InputEnd, read_all};
use layer_recipes::{BookFault, RecipeBook};
use std::alloc::Global;

/// The most bytes of the recipes: as many as a catalogue may have.
pub const RECIPES_LIMIT: usize = 1_048_576;

/// Why there are no recipes.
#[derive(Clone, Copy, PartialEq, Eq)]
pub enum UnreadRecipes {
    /// A read of them failed.
    ReadFault,
    /// They have more bytes than recipes may have.
    TooLong,
    /// The first fault of their text, which isn't want of memory.
    Fault(BookFault),
    /// Memory ran out.
    OutOfMemory,
}

/// The recipes of a text, or its first fault.
#[tactic(auto, using(crate::proofs::Reciting::told))]
fn recipes_in(
    alloc: Global,
    catalogue: &Catalogue,
    text: &[u8],
) -> Result<RecipeBook, UnreadRecipes>
    requires { IsValid catalogue.now }
    ensures says { Says result (book_of catalogue.now text.now) }
    ensures of { IfOk result (IsBookOf catalogue.now) }
{
    match RecipeBook::read(alloc, catalogue, text) {
        Ok(book) => Ok(book),
        Err(BookFault::OutOfMemory) => Err(UnreadRecipes::OutOfMemory),
        Err(fault) => Err(UnreadRecipes::Fault(fault)),
    }
}

/// Reads the recipes of a server, on its catalogue, to the end of their input: one JSON object of at most 64 members, a recipe under each
/// name (`RecipeBook::read`). An input without bytes has no recipes. Each refusal has its cause, and a text that is in order is refused only
/// where memory runs out.
pub fn read_recipes<I: ByteSource>(
    alloc: Global,
    catalogue: &Catalogue,
    input: &mut I,
) -> Result<RecipeBook, UnreadRecipes>
    requires { IsValid catalogue.now }
    ensures reads { ReadsRecipes (record { reads = counts (I.faults input.old) (I.faults input.new); from = I.left input.old; to = I.left input.new }) catalogue.now result }
    ensures of { IfOk result (IsBookOf catalogue.now) }
{
    match read_all(alloc, input, RECIPES_LIMIT) {
        Ok(text) => recipes_in(alloc, catalogue, text.as_slice()),
        Err(InputEnd::ReadFault) => Err(UnreadRecipes::ReadFault),
        Err(InputEnd::TooLong) => Err(UnreadRecipes::TooLong),
        Err(InputEnd::OutOfMemory) => Err(UnreadRecipes::OutOfMemory),
    }
}
