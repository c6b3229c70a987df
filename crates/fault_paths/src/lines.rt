//! The lines of paths.
ghost use Rattle.std.specs.Prelude.{◌≡◌, ◌++◌, OnOk, map, option_map};
ghost use Rattle.fault_paths.specs.Paths.{each_line, entry_of, entry_path, found_line, member_line, path_of};
ghost use Rattle.serde_json.specs.View.{view};

use crate::fields::{Owner, name_of, owner_of};
use crate::fitting::can_be;
use crate::sought::Sought;
use itoa::Buffer;
use serde_json::Value;
use std::alloc::AllocError;

/// Adds a place of a list.
fn add_entry(text: &mut Vec<u8>, list: &[u8], place: u64) -> Result<(), AllocError>
    ensures { OnOk result (text.new.items ≡ text.old.items ++ entry_path list.now place) }
{
    let mut buffer = Buffer::new();
    text.extend_from_slice(list)?;
    text.extend_from_slice(buffer.format(place).as_bytes())?;
    text.extend_from_slice(b"]")
}

/// Adds two places, one behind the other.
fn add_entries(
    text: &mut Vec<u8>,
    list: &[u8],
    outer: u64,
    inner: &[u8],
    place: u64,
) -> Result<(), AllocError>
    ensures { OnOk result (text.new.items ≡ text.old.items ++ (entry_path list.now outer ++ entry_path inner.now place)) }
{
    add_entry(text, list, outer)?;
    add_entry(text, inner, place)
}

/// Adds the path of an object.
pub(crate) fn add_path(
    text: &mut Vec<u8>,
    owner: Owner,
    outer: u64,
    place: u64,
) -> Result<(), AllocError>
    ensures { OnOk result (text.new.items ≡ text.old.items ++ path_of owner outer place) }
{
    match owner {
        Owner::Outermost => text.extend_from_slice(b"$"),
        Owner::Grid => add_entry(text, b"$.grids[", place),
        Owner::Matrix => add_entries(text, b"$.grids[", outer, b".matrices[", place),
        Owner::Layer => add_entry(text, b"$.layers[", place),
        Owner::Style => add_entries(text, b"$.layers[", outer, b".styles[", place),
        Owner::Dimension => add_entries(text, b"$.layers[", outer, b".dimensions[", place),
    }
}

/// Adds the line of the member of an object, where the mistake can be there.
#[tactic(auto, unfolding(crate::specs::Paths::member_line))]
pub(crate) fn add_member(
    text: &mut Vec<u8>,
    sought: Sought,
    outer: u64,
    object: &Value,
) -> Result<(), AllocError>
    ensures { OnOk result (text.new.items ≡ text.old.items ++ member_line sought outer (view object.now)) }
{
    if !can_be(sought.mistake, sought.field, object) {
        return Ok(());
    }
    add_path(text, owner_of(sought.field), outer, u64::from(sought.at))?;
    text.extend_from_slice(b".")?;
    text.extend_from_slice(name_of(sought.field).as_bytes())?;
    text.extend_from_slice(b"\n")
}

/// The same of an object that may be absent.
pub(crate) fn add_found(
    text: &mut Vec<u8>,
    sought: Sought,
    outer: u64,
    object: Option<&Value>,
) -> Result<(), AllocError>
    ensures { OnOk result (text.new.items ≡ text.old.items ++ found_line sought outer (option_map (λ v. view v.now) object.entry)) }
{
    match object {
        Some(object) => add_member(text, sought, outer, object),
        None => Ok(()),
    }
}

/// What stands at a place of a list, which is a member of an object.
pub(crate) fn entry_of<'v>(object: &'v Value, list: &str, place: u32) -> Option<&'v Value>
    ensures { option_map (λ v. view v.now) result ≡ entry_of list.now place (view object.now) }
{
    match object.get(list) {
        Some(values) => values.get(place as usize),
        None => None,
    }
}

/// Adds those of objects each of which has a list of this name.
pub(crate) fn add_each(
    text: &mut Vec<u8>,
    sought: Sought,
    name: &str,
    objects: &[Value],
) -> Result<(), AllocError>
    ensures { OnOk result (text.new.items ≡ text.old.items ++ each_line sought name.now 0 (map view objects.now)) }
{
    for (outer, object) in objects.iter().enumerate() {
        add_found(
            text,
            sought,
            outer as u64,
            entry_of(object, name, sought.at),
        )?;
    }
    Ok(())
}
