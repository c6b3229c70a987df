//! A cabinet as the chest of a turnstile, so that threads take turns at it.
//!
//! A turn is one command of the cabinet: an ask, a force, a finish, an abandon, a truncation, an expiry, a saving of uses, or a count
//! of what is kept. Promises: its reply is that of the command's row (`specs/Replies.antt`), over the states before and after, which
//! the turn's note has beside the disk's counts of faults; the number of a hit is above the floor and each listed truncation that covers
//! its tile, that of a ticket and of a truncation above all; a hit in a sound cabinet is the encoded tile of its number.
//! Stands on cabinet and turnstile, and on the crates of their types.
#![tactic(auto)]

mod chest;
mod command;
mod counting;
mod laws;
mod shown;

pub use chest::CabinetChest;
pub use command::{Command, Counts, Reply};
pub use counting::counts_of;
pub use laws::laws_of_numbers;
pub use shown::{Note, Shown};
