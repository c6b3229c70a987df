//! The jobs of a server: the board of what was submitted and waits to be run, and the sheets that give out the places of a job.
//!
//! A board is a chest behind a turnstile, which threads take turns at. Promises (`specs/Boards.antt`): each call is one turn, whose
//! reply has its row; a job enters the waiting list at its submission alone, at the end, and leaves it, the first of it, at the `next`
//! that posts it, so that what is posted was submitted, and is posted once; how far a job is, is what its sheet's watch finds in
//! that turn, it is told to wait exactly where it is on the waiting list, and to have ended only where all its hands have; and from the
//! `finish` on that told of the end of a job, each look at it tells the same numbers of places done, failed and not kept.
//!
//! A `JobSheet` has the places 0 to `places` - 1, which its hands claim and then report done or failed, from any threads; `watch` is one
//! further hand, to look on and to cancel. Each call is a few single steps on atomic words, and none waits. Promises (`specs/Hands.antt`,
//! `specs/SheetCalls.antt`): how the sheet stands at each step is one standing, in which every claimed place is claimed by one hand, and
//! which is no earlier than all that the calling hand has seen; a claim gains the least place that nobody had claimed, or
//! meets None exactly if all are claimed or the job is cancelled; `progress` tells such standings; a hand that gathers the
//! others has seen what they had, so that once all have met None, and not by a cancel, their places are all places, each once.
//! Stands on job_forms, turnstile, base and atomic_table (the atomic steps).
#![tactic(auto)]

mod board;
mod calls;
mod counts;
mod fault;
mod hand;
mod plays;
mod posted;
mod posts;
mod progress;
mod rows;
mod sheet;
mod shown;
mod standing;
mod status;
mod view;

pub use board::{Board, BoardEntry, BoardPass};
pub use fault::BoardFault;
pub use hand::Hand;
pub use posted::{Posted, WatchedJob};
pub use posts::Posts;
pub use progress::Progress;
pub use sheet::{Desk, JobSheet};
pub use shown::{BoardCommand, BoardNote, BoardReply, BoardShown};
pub use standing::{HandAccount, HandEnd, SheetStanding};
pub use status::{JobState, JobStatus};
pub use view::{OneStanding, SeatView, SheetSize};
