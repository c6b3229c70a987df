//! Whitespace and comments.
ghost use Rattle.std.specs.Prelude.{◌≡◌, false, option_copied};
ghost use Rattle.ppm_reading.specs.Form.{is_line_end, is_space};
ghost use Rattle.ppm_reading.specs.Reading.{after_blanks, after_gap, after_space};

fn is_line_end(b: u8) -> bool
    ensures { result ≡ is_line_end b }
{
    b == b'\n' || b == b'\r'
}

fn is_space(b: u8) -> bool
    ensures { result ≡ is_space b }
{
    b == b' ' || b == b'\t' || b == b'\n' || b == b'\r'
}

/// What follows whitespace and comments.
fn after_blanks(text: &[u8]) -> &[u8]
    ensures { result.now ≡ after_blanks false text.now }
{
    let mut in_comment = false;
    for at in 0..text.len() {
        let b = text[at];
        if in_comment {
            in_comment = !is_line_end(b);
        } else if b == b'#' {
            in_comment = true;
        } else if !is_space(b) {
            return &text[at..];
        }
    }
    &[]
}

/// What follows one byte of whitespace.
pub fn after_space(text: &[u8]) -> Option<&[u8]>
    ensures { option_copied result ≡ after_space text.now }
{
    match text {
        [first, rest @ ..] if is_space(*first) => Some(rest),
        _ => None,
    }
}

/// What follows a gap: one byte of whitespace, and whitespace and comments behind it.
pub fn after_gap(text: &[u8]) -> Option<&[u8]>
    ensures { option_copied result ≡ after_gap text.now }
{
    Some(after_blanks(after_space(text)?))
}
