//! Which links may still be given, and when the last one has ended.
use std::alloc::{AllocError, Global};
use tcp_lanes::HELD_BACK;

/// The buffers of the links that may still be given, one each, and whether further ones are.
#[derive(Drop)]
pub struct LinksOut {
    heads: Vec<Vec<u8>>,
    most: usize,
    /// Whether no further link is given.
    closing: bool,
    /// Whether all was ended.
    over: bool,
}

impl LinksOut {
    /// No link is out, of so many that may be at a time. `AllocError` where memory runs out.
    pub fn new(alloc: Global, most: usize) -> Result<LinksOut, AllocError> {
        let mut heads = Vec::with_capacity(alloc, most)?;
        for _ in 0..most {
            heads
                .push(Vec::with_capacity(alloc, HELD_BACK)?)
                .map_err(AllocError::from)?;
        }
        Ok(LinksOut {
            heads,
            most,
            closing: false,
            over: false,
        })
    }

    /// Whether as many are out as may be, and a further one may be waited for.
    pub fn has_to_wait(&self) -> bool {
        self.heads.is_empty() && !self.closing
    }

    /// The buffer of a further link. None where no further one is given.
    pub fn give(&mut self) -> Option<Vec<u8>> {
        if self.closing {
            return None;
        }
        self.heads.pop()
    }

    /// Takes the buffer of a link back that has ended.
    pub fn take_back(&mut self, mut head: Vec<u8>) {
        head.clear();
        // There is room for every buffer.
        let _ = self.heads.push(head);
    }

    /// Notes that no further link is given.
    pub fn close(&mut self) {
        self.closing = true;
    }

    /// Whether no link is out and none is given any more, so that all is to be ended, which is noted as done.
    pub fn is_over_now(&mut self) -> bool {
        if self.over || !self.closing || self.heads.len() < self.most {
            return false;
        }
        self.over = true;
        true
    }
}
