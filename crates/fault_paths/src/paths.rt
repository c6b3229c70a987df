//! The paths that a fault can mean.
ghost use Rattle.std.specs.Prelude.{◌≡◌, ◌++◌, IfOk, OnOk};
ghost use Rattle.fault_paths.specs.Paths.{lines_of, nested_lines, paths_in, paths_of};
ghost use Rattle.serde_json.specs.View.{view};

use crate::fields::{Owner, owner_of};
use crate::lines::{add_each, add_found, add_member, entry_of};
use crate::sought::{Sought, sought_of};
use catalog::CatalogueFault;
use json_forms::{object_in, values_of};
use serde_json::Value;
use std::alloc::{AllocError, Global};

/// Adds those of the objects of a list.
fn add_nested(
    text: &mut Vec<u8>,
    sought: Sought,
    list: &str,
    name: &str,
    whole: &Value,
) -> Result<(), AllocError>
    ensures { OnOk result (text.new.items ≡ text.old.items ++ nested_lines sought list.now name.now (view whole.now)) }
{
    let Some(value) = whole.get(list) else {
        return Ok(());
    };
    match values_of(value) {
        Some(objects) => add_each(text, sought, name, objects),
        None => Ok(()),
    }
}

/// Adds those of the objects that have the member.
fn add_lines(
    text: &mut Vec<u8>,
    owner: Owner,
    sought: Sought,
    whole: &Value,
) -> Result<(), AllocError>
    ensures { OnOk result (text.new.items ≡ text.old.items ++ lines_of owner sought (view whole.now)) }
{
    match owner {
        Owner::Outermost => add_member(text, sought, 0, whole),
        Owner::Grid => add_found(text, sought, 0, entry_of(whole, "grids", sought.at)),
        Owner::Layer => add_found(text, sought, 0, entry_of(whole, "layers", sought.at)),
        Owner::Matrix => add_nested(text, sought, "grids", "matrices", whole),
        Owner::Style => add_nested(text, sought, "layers", "styles", whole),
        Owner::Dimension => add_nested(text, sought, "layers", "dimensions", whole),
    }
}

/// Those of a catalogue's value.
fn paths_of(alloc: Global, whole: &Value, fault: CatalogueFault) -> Result<Vec<u8>, AllocError>
    ensures { IfOk result (λ lines. lines.items ≡ paths_of fault (view whole.now)) }
{
    let mut text = Vec::new(alloc);
    match sought_of(fault) {
        Some(sought) => {
            add_lines(&mut text, owner_of(sought.field), sought, whole)?;
            Ok(text)
        }
        None => Ok(text),
    }
}

/// Each path of a catalogue's text that a fault of it can mean, as `$.layers[1].styles[0].breaks`, each with a line feed behind it; none where
/// the fault names no member, or the text isn't one JSON object. `AllocError` where memory runs out.
pub fn fault_paths(alloc: Global, text: &[u8], fault: CatalogueFault) -> Result<Vec<u8>, AllocError>
    ensures { IfOk result (λ lines. lines.items ≡ paths_in fault text.now) }
{
    match object_in(alloc, text) {
        Ok(Some(whole)) => paths_of(alloc, &whole, fault),
        Ok(None) => Ok(Vec::new(alloc)),
        Err(_) => Err(AllocError),
    }
}
