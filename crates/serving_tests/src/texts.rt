//! What a response says.

/// The first place at which the bytes have this text.
fn place_of(bytes: &[u8], text: &[u8]) -> Option<usize> {
    for at in 0..bytes.len() {
        if bytes[at..].starts_with(text) {
            return Some(at);
        }
    }
    None
}

/// Whether the bytes have this text somewhere.
pub fn has(bytes: &[u8], text: &[u8]) -> bool {
    place_of(bytes, text).is_some()
}

/// The line of a response that tells the number of the render.
fn number_line(response: &[u8]) -> Option<&[u8]> {
    let line = response.get(place_of(response, b"tile-render: ")?..)?;
    line.get(..place_of(line, b"\r\n")?)
}

/// Whether two responses tell the number of one render.
pub fn are_of_one_render(first: &[u8], second: &[u8]) -> bool {
    match (number_line(first), number_line(second)) {
        (Some(first), Some(second)) => first == second,
        _ => false,
    }
}
