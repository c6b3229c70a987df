//! The sockets of a set that are ready, in the order in which the system told of them.
use std::alloc::{AllocError, Global};
use std::collections::VecDeque;
use tcp_lanes::Ready;

/// What is known of a socket that is in line or isn't.
#[derive(Clone, Copy, PartialEq, Eq)]
struct SocketMark {
    queued: bool,
    hung_up: bool,
}

/// Nothing is known of it.
const UNMARKED: SocketMark = SocketMark {
    queued: false,
    hung_up: false,
};

/// Sockets in line, each once.
#[derive(Drop)]
pub struct Line {
    tokens: VecDeque<usize>,
    marks: Vec<SocketMark>,
}

impl Line {
    /// An empty line with room for so many tokens. `AllocError` where memory runs out.
    pub fn new(alloc: Global, sockets: usize) -> Result<Line, AllocError> {
        Ok(Line {
            tokens: VecDeque::with_capacity(alloc, sockets)?,
            marks: Vec::from_elem(alloc, UNMARKED, sockets)?,
        })
    }

    /// Whether nobody is in line.
    pub fn is_empty(&self) -> bool {
        self.tokens.is_empty()
    }

    /// Puts a socket in line, unless it is.
    pub fn tell(&mut self, token: usize, hung_up: bool) {
        let Some(mark) = self.marks.get_mut(token) else {
            return;
        };
        mark.hung_up = mark.hung_up || hung_up;
        if mark.queued {
            return;
        }
        mark.queued = true;
        // There is room for every socket.
        let _ = self.tokens.push_back(token);
    }

    /// The first in line.
    pub fn first(&mut self) -> Option<Ready> {
        let token = self.tokens.pop_front()?;
        let mark = self.marks.get_mut(token)?;
        let ready = Ready {
            token,
            hung_up: mark.hung_up,
        };
        *mark = UNMARKED;
        Some(ready)
    }

    /// Sends all away that are in line.
    pub fn clear(&mut self) {
        for _ in 0..self.tokens.len() {
            self.first();
        }
    }
}
