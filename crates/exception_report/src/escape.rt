//! The escaped value of an XML attribute: entities for markup, `?` for control characters and noncharacters.
ghost use Rattle.std.specs.Prelude.{◌≡◌, ◌++◌, OnOk};
ghost use Rattle.exception_report.specs.Report.{escaped_byte, begins_with_noncharacter, escaped};

use std::alloc::AllocError;

/// Appends a byte of an attribute's value to a text: as it is, or its entity, or `?` for a control character.
fn push_escaped(text: &mut Vec<u8>, byte: u8) -> Result<(), AllocError>
    ensures { OnOk result (text.new.items ≡ text.old.items ++ escaped_byte byte) }
{
    match byte {
        b'&' => text.extend_from_slice(b"&amp;"),
        b'<' => text.extend_from_slice(b"&lt;"),
        b'>' => text.extend_from_slice(b"&gt;"),
        b'"' => text.extend_from_slice(b"&quot;"),
        ..0x20 => text.extend_from_slice(b"?"),
        _ => text.extend_from_slice(&[byte]),
    }
}

/// Whether U+FFFE or U+FFFF stands at the front.
fn begins_with_noncharacter(value: &[u8]) -> bool
    ensures { result ≡ begins_with_noncharacter value.now }
{
    match value {
        [a, b, c, ..] => *a == 0xef && *b == 0xbf && (*c == 0xbe || *c == 0xbf),
        _ => false,
    }
}

/// Appends the escaped value of an attribute to a text.
pub fn escape_onto(text: &mut Vec<u8>, value: &[u8]) -> Result<(), AllocError>
    ensures { OnOk result (text.new.items ≡ text.old.items ++ escaped value.now) }
{
    let mut rest = value;
    while let [first, others @ ..] = rest {
        if begins_with_noncharacter(rest) {
            text.extend_from_slice(b"?")?;
            rest = &rest[3..];
        } else {
            push_escaped(text, *first)?;
            rest = others;
        }
    }
    Ok(())
}
