//! Numbers in decimal digits, with what parts them from what stands before.
ghost use Rattle.std.specs.Prelude.{◌≡◌, ◌++◌, OnOk};
ghost use Rattle.kept_lines.specs.Lines.{number_column, word_column};

use itoa::Buffer;
use std::alloc::AllocError;

/// Adds a word behind a blank. `AllocError` where memory runs out.
pub(crate) fn add_word(text: &mut Vec<u8>, word: &[u8]) -> Result<(), AllocError>
    ensures { OnOk result (text.new.items ≡ text.old.items ++ word_column word.now) }
{
    text.extend_from_slice(b" ")?;
    text.extend_from_slice(word)
}

/// Adds a number behind a blank. `AllocError` where memory runs out.
pub(crate) fn add_number(text: &mut Vec<u8>, number: u64) -> Result<(), AllocError>
    ensures { OnOk result (text.new.items ≡ text.old.items ++ number_column number) }
{
    let mut buffer = Buffer::new();
    text.extend_from_slice(b" ")?;
    text.extend_from_slice(buffer.format(number).as_bytes())
}
