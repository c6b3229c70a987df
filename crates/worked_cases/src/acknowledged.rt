//! For how many truncations what a stopped command left has to answer, as its output tells.
use crate::run::Given;

/// How many of a command's truncations, or of a feed's changes, what it left has to answer for.
#[derive(Clone, Copy)]
pub struct Bounds {
    pub least: u64,
    pub most: u64,
}

/// How often a text stands in an output.
fn count_of(output: &[u8], text: &[u8]) -> u64 {
    let mut count: u64 = 0;
    for at in 0..output.len() {
        if output[at..].starts_with(text) {
            count = count.saturating_add(1);
        }
    }
    count
}

/// How many truncations an output tells as done, as an answer's body or as the word `truncate` does.
fn cuts_in(output: &[u8]) -> u64 {
    count_of(output, b"{\"cut\":").saturating_add(count_of(output, b"cut "))
}

/// How many changes of a feed an output tells to be cut for, and their mark unsure: the lines of a fault of the marks with a number in
/// place of a dash.
fn unsure_in(output: &[u8]) -> u64 {
    count_of(output, b"feed fault ").saturating_sub(count_of(output, b" -\n"))
}

impl Bounds {
    /// What the output of a feed, or of a twin, asks of a look that is one too: each change that is told as done stands marked, and beside these at most
    /// those whose mark is unsure.
    fn of_marks(output: &[u8]) -> Bounds {
        let done = count_of(output, b"done ");
        Bounds {
            least: done,
            most: done.saturating_add(unsure_in(output)),
        }
    }

    /// What an output asks of another look: that each truncation which it tells is in force.
    fn of_cuts(told: u64) -> Bounds {
        Bounds {
            least: told,
            most: u64::MAX,
        }
    }

    /// What the output of a command asks of what this look then writes.
    pub fn of(given: &Given, look: &Given, output: &[u8]) -> Bounds {
        if !given.is_marked() {
            return Bounds::of_cuts(cuts_in(output));
        }
        if look.is_marked() {
            return Bounds::of_marks(output);
        }
        Bounds::of_cuts(count_of(output, b"done ").saturating_add(unsure_in(output)))
    }

    /// Whether an image that answers for so many is within these.
    pub fn admit(self, cuts: u64) -> bool {
        self.least <= cuts && cuts <= self.most
    }
}
