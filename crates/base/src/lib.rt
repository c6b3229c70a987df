//! What the crates above share that is of no subject: counts of faults, clocks, histories, shared texts, and what is counted and rung for
//! threads.
//!
//! Each object of the outside, as a disk, a source of pictures or a stream of bytes, counts its faults, and a call answers a fault only
//! if that count rose: `specs/Causes.antt` has the words in which the clauses of all other crates say so. A `Clock` gives the moments of asks,
//! and contracts see how often it was asked and what it gave last. A `Trace` is a history for proofs only: it has no bytes at run time. A
//! `SharedText` is a text that several hold without a copy. A `Bell` wakes threads that wait; `Traffic` counts requests that are served.
//! Promises: `one_more` is the count after one more fault, and a count stays at its last value; each reading of a clock raises its count by
//! one, up to its greatest value, and answers what is then the last moment; `Trace::new` has no entry, and `and` has one more; a shared text
//! is the bytes that it was made of, and a part of it is its part by places. What a look at the traffic finds, and that a sleeper wakes, no
//! clause says.
//! Stands on nothing.
#![tactic(auto)]

mod bell;
mod causes;
mod clock;
mod moments;
mod shared;
mod trace;
mod traffic;

pub use bell::Bell;
pub use causes::one_more;
pub use clock::Clock;
pub use shared::SharedText;
pub use trace::Trace;
pub use traffic::Traffic;
