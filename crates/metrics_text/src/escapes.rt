//! Escapes in help texts and in labels' values.
ghost use Rattle.std.specs.List.{flat_map};
ghost use Rattle.std.specs.Prelude.{◌≡◌, ◌++◌, OnOk};
ghost use Rattle.metrics_text.specs.Exposition.{help_byte, value_byte};

use std::alloc::AllocError;

fn push_help_byte(text: &mut Vec<u8>, byte: u8) -> Result<(), AllocError>
    ensures { OnOk result (text.new.items ≡ text.old.items ++ help_byte byte) }
{
    match byte {
        b'\\' => text.extend_from_slice(b"\\\\"),
        b'\n' => text.extend_from_slice(b"\\n"),
        _ => text.extend_from_slice(&[byte]),
    }
}

fn push_value_byte(text: &mut Vec<u8>, byte: u8) -> Result<(), AllocError>
    ensures { OnOk result (text.new.items ≡ text.old.items ++ value_byte byte) }
{
    match byte {
        b'"' => text.extend_from_slice(b"\\\""),
        _ => push_help_byte(text, byte),
    }
}

/// Appends a help text, escaped. `AllocError` where memory runs out.
pub(crate) fn push_help(text: &mut Vec<u8>, help: &[u8]) -> Result<(), AllocError>
    ensures { OnOk result (text.new.items ≡ text.old.items ++ flat_map help_byte help.now) }
{
    for byte in help {
        push_help_byte(text, *byte)?;
    }
    Ok(())
}

/// Appends the value of a label, escaped. `AllocError` where memory runs out.
pub(crate) fn push_value(text: &mut Vec<u8>, value: &[u8]) -> Result<(), AllocError>
    ensures { OnOk result (text.new.items ≡ text.old.items ++ flat_map value_byte value.now) }
{
    for byte in value {
        push_value_byte(text, *byte)?;
    }
    Ok(())
}
