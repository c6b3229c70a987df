//! The file of recipes: how a server ends that is refused for it, and what a start would say of it.
use crate::endings::{WorkedFile, end_with};
use crate::{CATALOGUE, RECIPES};
use command_setup::CATALOGUE_LIMIT;
use config_text::read_catalogue;
use http_wire::{FileSource, read_all};
use json_forms::object_in;
use layer_recipes::{BookFault, RecipeFault, RecipeField};
use server_command::{RECIPES_LIMIT, ServerEnd, end_of_recipes, read_recipes};
use std::fs::File;
use std::io::Eprint;
use std::process::ExitCode;
use std::rt::Files;

/// The name of a member in the text of a recipe.
fn name_of(field: RecipeField) -> &'static str {
    match field {
        RecipeField::Grid => "grid",
        RecipeField::Parts => "parts",
        RecipeField::Layer => "layer",
        RecipeField::Style => "style",
        RecipeField::Dimensions => "dimensions",
        RecipeField::Key => "key",
    }
}

/// The member at fault, and the place of its part.
fn member_of(fault: RecipeFault) -> Option<(RecipeField, u32)> {
    match fault {
        RecipeFault::Missing(field, part) => Some((field, part)),
        RecipeFault::Bad(field, part) => Some((field, part)),
        RecipeFault::Limit(field, part) => Some((field, part)),
        RecipeFault::NotJson | RecipeFault::OutOfMemory => None,
    }
}

/// Tells the path of what is at fault in the recipe of this name.
fn tell_path(rt: &impl Eprint, name: &str, fault: Option<RecipeFault>) {
    let _ = match fault.and_then(member_of) {
        None => eprintln!(rt; "{RECIPES}: $.{name}"),
        Some((RecipeField::Grid, _)) => eprintln!(rt; "{RECIPES}: $.{name}.grid"),
        Some((RecipeField::Parts, _)) => eprintln!(rt; "{RECIPES}: $.{name}.parts"),
        Some((field, part)) => {
            let member = name_of(field);
            eprintln!(rt; "{RECIPES}: $.{name}.parts[{part}].{member}")
        }
    };
}

/// Tells the path of what is at fault in the recipe at a place of the file, as that is now.
fn tell_place(
    rt: &(impl Files<File = File> + Eprint + AllocGlobal),
    at: u32,
    fault: Option<RecipeFault>,
) {
    let alloc = rt.alloc();
    let Ok(text) = read_all(alloc, &mut FileSource::open(rt, RECIPES), RECIPES_LIMIT) else {
        return;
    };
    let Ok(Some(object)) = object_in(alloc, text.as_slice()) else {
        return;
    };
    let Some(members) = object.as_object() else {
        return;
    };
    let mut before = 0;
    for (name, _) in members {
        if before == at {
            tell_path(rt, name.as_str(), fault);
            return;
        }
        before = before.saturating_add(1);
    }
}

/// Tells why recipes are refused, and gives the code.
fn refused(rt: &(impl Files<File = File> + Eprint + AllocGlobal), fault: BookFault) -> ExitCode {
    let end = ServerEnd::Recipes(fault);
    let _ = eprintln!(rt; "{end}");
    match fault {
        BookFault::Name(at) => tell_place(rt, at, None),
        BookFault::Recipe(at, fault) => tell_place(rt, at, Some(fault)),
        BookFault::NotJson | BookFault::Limit | BookFault::OutOfMemory => {}
    }
    ExitCode::from(end.code())
}

/// Tells the end of a server on standard error, `Done` apart, and behind it why, where a file is the cause; and gives its code.
pub fn server_ended(
    rt: &(impl Files<File = File> + Eprint + AllocGlobal),
    end: ServerEnd,
    files: &[WorkedFile],
) -> ExitCode {
    match end {
        ServerEnd::Ended(status) => end_with(rt, status, files),
        ServerEnd::Recipes(fault) => refused(rt, fault),
    }
}

/// How many recipes a start would read, or how it would end by them. None where the catalogue gives none to read them on: a start ends by that.
pub fn recipes_of(rt: &(impl Files<File = File> + AllocGlobal)) -> Result<usize, ServerEnd> {
    let alloc = rt.alloc();
    let Ok(text) = read_all(alloc, &mut FileSource::open(rt, CATALOGUE), CATALOGUE_LIMIT) else {
        return Ok(0);
    };
    let Ok(catalogue) = read_catalogue(alloc, text.as_slice()) else {
        return Ok(0);
    };
    match read_recipes(alloc, &catalogue, &mut FileSource::open(rt, RECIPES)) {
        Ok(book) => Ok(book.recipes.len()),
        Err(refusal) => Err(end_of_recipes(refusal)),
    }
}
