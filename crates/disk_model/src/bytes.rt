//! Edits of a vector of bytes: overwriting, growing by zeros, cutting, and noise at the end.
ghost use Rattle.std.specs.Prelude.{◌≡◌, ◌+◌, ◌≤◌, length, OnOk, OnErr};
ghost use Rattle.disk_model.specs.Content.{grown, overlaid, written, resized};
ghost use Rattle.disk_model.specs.Crash.{cut_left};
ghost use Rattle.disk_model.specs.declared.pick.Pick.TheVariants.{Noise};

use std::alloc::AllocError;

/// Grows by zeros to reach a length, where it doesn't. Where memory runs out nothing changes.
fn grow(bytes: &mut Vec<u8>, length: usize) -> Result<(), AllocError>
    ensures ok { OnOk result (bytes.new.items ≡ grown length bytes.old.items) }
    ensures err { OnErr result (bytes.new.items ≡ bytes.old.items) }
{
    if bytes.len() < length {
        bytes.resize(length, 0)?;
    }
    Ok(())
}

/// Puts bytes in place of what stands there.
fn overlay(bytes: &mut [u8], at: usize, with: &[u8])
    requires { at + length with.now ≤ length bytes.old }
    ensures { bytes.new ≡ overlaid at with.now bytes.old }
{
    bytes[at..at + with.len()].copy_from_slice(with);
}

/// Writes from a place on. Where memory runs out, or no memory could reach so far, nothing changes.
pub(crate) fn overwrite(bytes: &mut Vec<u8>, at: u64, with: &[u8]) -> Result<(), AllocError>
    ensures ok { OnOk result (bytes.new.items ≡ written at with.now bytes.old.items) }
    ensures err { OnErr result (bytes.new.items ≡ bytes.old.items) }
{
    if with.is_empty() {
        return Ok(());
    }
    let at = at as usize;
    let Some(end) = at.checked_add(with.len()) else {
        return Err(AllocError);
    };
    grow(bytes, end)?;
    overlay(bytes, at, with);
    Ok(())
}

/// Cuts to a length, or grows to it by zeros. Where memory runs out nothing changes.
pub(crate) fn resize(bytes: &mut Vec<u8>, length: u64) -> Result<(), AllocError>
    ensures ok { OnOk result (bytes.new.items ≡ resized length bytes.old.items) }
    ensures err { OnErr result (bytes.new.items ≡ bytes.old.items) }
{
    bytes.resize(length as usize, 0)?;
    Ok(())
}

/// Fills what lies between the end and a length with noise, and ends at the greater of the two.
pub(crate) fn spoil_end(bytes: &mut Vec<u8>, length: u64) -> Result<(), AllocError>
    ensures { OnOk result (bytes.new.items ≡ cut_left Noise length bytes.old.items) }
{
    let length = length as usize;
    let end = bytes.len().max(length);
    bytes.truncate(length);
    bytes.resize(end, 0xA5)?;
    Ok(())
}
