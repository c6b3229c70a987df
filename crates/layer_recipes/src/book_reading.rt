//! The reading of recipes under names.
ghost use Rattle.std.specs.List.{AllByRecursion};
ghost use Rattle.std.specs.Prelude.{◌≡◌, ◌<◌, ◌≤◌, [], IfOk, length, map, option_and_then};
ghost use Rattle.catalog.specs.Valid.{IsValid};
ghost use Rattle.layer_recipes.specs.Books.{GivesBook, IsNamedOf, IsBookOf, book_of, entries_in, entries_of, entry_in, entry_of, of_place, placed, recipe_named};
ghost use Rattle.layer_recipes.specs.OfCatalogue.{IsRecipeOf};
ghost use Rattle.layer_recipes.specs.Recipes.{recipe_in};
ghost use Rattle.json_forms.specs.Forms.{object_of};
ghost use Rattle.serde_json.specs.Find.{as_object};
ghost use Rattle.serde_json.specs.View.{members_view, view};

use crate::book::{NamedRecipe, RecipeBook};
use crate::book_fault::BookFault;
use crate::fault::RecipeFault;
use crate::reading::recipe_in;
use crate::recipe::Recipe;
use catalog::{Catalogue, is_name, is_short, place_named};
use exact_ratio::Words;
use json_forms::object_in;
use serde_json::{Map, Value};
use std::alloc::Global;

/// The fault of a text whose recipe at this place has this one.
fn of_place(at: u32, fault: RecipeFault) -> BookFault
    ensures { result ≡ of_place at fault }
{
    match fault {
        RecipeFault::NotJson => BookFault::Recipe(at, RecipeFault::NotJson),
        RecipeFault::Missing(field, part) => BookFault::Recipe(
            at,
            RecipeFault::Missing(field, part),
        ),
        RecipeFault::Bad(field, part) => BookFault::Recipe(at, RecipeFault::Bad(field, part)),
        RecipeFault::Limit(field, part) => BookFault::Recipe(at, RecipeFault::Limit(field, part)),
        RecipeFault::OutOfMemory => BookFault::OutOfMemory,
    }
}

/// The recipe of a member at this place.
fn recipe_at(
    alloc: Global,
    catalogue: &Catalogue,
    at: u32,
    value: &Value,
) -> Result<Recipe, BookFault>
    requires { IsValid catalogue.now }
    ensures gives { GivesBook (λ recipe. (recipe.grid, recipe.parts.items)) result (placed at (recipe_in catalogue.now (view value.now))) }
    ensures of { IfOk result (IsRecipeOf catalogue.now) }
{
    match recipe_in(alloc, catalogue, value) {
        Ok(recipe) => Ok(recipe),
        Err(fault) => Err(of_place(at, fault)),
    }
}

/// The recipe that a member at this place gives under its name.
#[tactic(auto, unfolding(crate::specs::Books::entry_in))]
fn entry_in(
    alloc: Global,
    catalogue: &Catalogue,
    at: u32,
    name: &[u8],
    value: &Value,
) -> Result<NamedRecipe, BookFault>
    requires { IsValid catalogue.now }
    ensures gives { GivesBook entry_of result (entry_in catalogue.now at name.now (view value.now)) }
    ensures of { IfOk result (IsNamedOf catalogue.now) }
    ensures few { IfOk result (λ _. at < 64) }
{
    if at >= 64 {
        return Err(BookFault::Limit);
    }
    if !is_name(name) {
        return Err(BookFault::Name(at));
    }
    if !is_short(name) {
        return Err(BookFault::Name(at));
    }
    let recipe = match recipe_at(alloc, catalogue, at, value) {
        Ok(recipe) => recipe,
        Err(fault) => return Err(fault),
    };
    match Words::new(alloc, name) {
        Ok(name) => Ok(NamedRecipe { name, recipe }),
        Err(_) => Err(BookFault::OutOfMemory),
    }
}

/// The recipe after those before it.
fn entry_after(
    alloc: Global,
    catalogue: &Catalogue,
    before: &[NamedRecipe],
    name: &[u8],
    value: &Value,
) -> Result<NamedRecipe, BookFault>
    requires valid { IsValid catalogue.now }
    requires few { length before.now ≤ 64 }
    ensures gives { GivesBook entry_of result (entry_in catalogue.now (length before.now) name.now (view value.now)) }
    ensures of { IfOk result (IsNamedOf catalogue.now) }
    ensures few { IfOk result (λ _. length before.now < 64) }
{
    entry_in(alloc, catalogue, before.len() as u32, name, value)
}

/// The recipes of the members of an object, in their order.
fn entries_in(
    alloc: Global,
    catalogue: &Catalogue,
    members: &Map<String, Value>,
) -> Result<Vec<NamedRecipe>, BookFault>
    requires { IsValid catalogue.now }
    ensures gives { GivesBook (λ recipes. map entry_of recipes.items) result (entries_in catalogue.now [] (members_view members.now.entries)) }
    ensures of { IfOk result (λ recipes. AllByRecursion (IsNamedOf catalogue.now) recipes.items) }
    ensures few { IfOk result (λ recipes. length recipes.items ≤ 64) }
{
    let mut recipes = Vec::new(alloc);
    for (name, value) in members {
        let recipe = match entry_after(
            alloc,
            catalogue,
            recipes.as_slice(),
            name.as_bytes(),
            value,
        ) {
            Ok(recipe) => recipe,
            Err(fault) => return Err(fault),
        };
        recipes.push(recipe)?;
    }
    Ok(recipes)
}

/// The recipes of an object.
fn entries_of(
    alloc: Global,
    catalogue: &Catalogue,
    object: &Value,
) -> Result<Vec<NamedRecipe>, BookFault>
    requires { IsValid catalogue.now }
    ensures gives { GivesBook (λ recipes. map entry_of recipes.items) result (entries_of catalogue.now (as_object (view object.now))) }
    ensures of { IfOk result (λ recipes. AllByRecursion (IsNamedOf catalogue.now) recipes.items) }
    ensures few { IfOk result (λ recipes. length recipes.items ≤ 64) }
{
    match object.as_object() {
        Some(members) => entries_in(alloc, catalogue, members),
        None => Err(BookFault::NotJson),
    }
}

/// The recipes of a text that is one object.
fn recipes_of(
    alloc: Global,
    catalogue: &Catalogue,
    text: &[u8],
) -> Result<Vec<NamedRecipe>, BookFault>
    requires { IsValid catalogue.now }
    ensures gives { GivesBook (λ recipes. map entry_of recipes.items) result (entries_of catalogue.now (option_and_then as_object (object_of text.now))) }
    ensures of { IfOk result (λ recipes. AllByRecursion (IsNamedOf catalogue.now) recipes.items) }
    ensures few { IfOk result (λ recipes. length recipes.items ≤ 64) }
{
    match object_in(alloc, text) {
        Ok(Some(object)) => entries_of(alloc, catalogue, &object),
        Ok(None) => Err(BookFault::NotJson),
        Err(_) => Err(BookFault::OutOfMemory),
    }
}

impl RecipeBook {
    /// The recipes of a text, which is one JSON object (RFC 8259) of at most 64 members, a recipe under each name, or its first fault in
    /// the order of the members: what a name is and then what `Recipe::read` says of the recipe. No text gives no recipes.
    ///
    /// `NotJson` if the text isn't one object; `Limit` at the 65th member; `Name` if a name hasn't 1 to 64 letters, digits, `_`, `-`, `.`
    /// and `:`; `Recipe` with the fault of a recipe; each with the place of its member. `OutOfMemory` if memory runs out.
    pub fn read(alloc: Global, catalogue: &Catalogue, text: &[u8]) -> Result<RecipeBook, BookFault>
        requires { IsValid catalogue.now }
        ensures gives { GivesBook (λ book. map entry_of book.recipes.items) result (book_of catalogue.now text.now) }
        ensures of { IfOk result (IsBookOf catalogue.now) }
    {
        if text.is_empty() {
            let recipes = Vec::new(alloc);
            return Ok(RecipeBook { recipes });
        }
        match recipes_of(alloc, catalogue, text) {
            Ok(recipes) => Ok(RecipeBook { recipes }),
            Err(fault) => Err(fault),
        }
    }

    /// The place of the recipe of this name; `None` exactly if no recipe has it.
    pub fn recipe_named(&self, name: &[u8]) -> Option<u32>
        requires { length self.now.recipes.items ≤ 64 }
        ensures { result ≡ recipe_named self.now name.now }
    {
        place_named(self.recipes.as_slice(), name)
    }
}
