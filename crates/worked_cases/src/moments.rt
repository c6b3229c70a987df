//! The moments that the clock of a step gives, as its file `moments` has them.
use std::alloc::{AllocError, Global};

/// The numbers of a text, parted by blanks and line ends; `None` where a word of it isn't one of 64 bits.
pub fn moments_in(alloc: Global, text: &str) -> Result<Option<Vec<u64>>, AllocError> {
    let mut moments = Vec::new(alloc);
    for word in text.split_ascii_whitespace() {
        let Ok(moment) = word.parse::<u64>() else {
            return Ok(None);
        };
        moments.push(moment)?;
    }
    Ok(Some(moments))
}
