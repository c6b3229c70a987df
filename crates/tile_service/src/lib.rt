//! The service of tiles: messages are answered, and a schedule is a list of what actors do, line by line.
//!
//! An actor sends a message, or makes the next event of its pending request. Messages ask for tiles, for the
//! capabilities document or for what is kept, truncate, or expire.
//!
//! Promises: the answers of a schedule are those of its run (`specs/Run.antt`), in order, each message led by the table of
//! paths and answered by its response, as `tile_requests` has them; each tile is the picture of its number
//! and fresh at its last ask or force (`specs/Schedules.antt`). No more answers of the run say that the source failed, and no
//! more failures are yet to be answered, than the source's count of faults rose by (`failed` there); and its chances name no more
//! faults of the cabinet's disk than that count rose by (`faults` there). A session over a link, or over an input and an output that are
//! lent apart, answers its messages in order (`specs/Session.antt`, `specs/Replays.antt`), and ends as `sessions` says.
//! Stands on sessions, tile_requests, cabinet, cache_access, by which a session gets its tiles, cache_core, source_render, schedule_text and http_wire.
#![tactic(auto)]

mod action_end;
mod answer;
mod cache_tally;
mod counter;
mod laws;
mod lines;
mod lone_server;
mod one_line;
mod perform;
mod run_lines;
mod schedule;
mod seats;
mod serving;
mod session;
mod streams;

pub use action_end::{ActionEnd, LineAnswer};
pub use answer::write_answer;
pub use cache_tally::{CacheResult, CacheTally, result_of};
pub use counter::Counter;
pub use laws::{laws_of_memory, laws_of_replays, laws_of_runs};
pub use lines::{Action, action_in, split_line};
pub use one_line::{ScheduleLineEnd, run_line};
pub use schedule::{ScheduleEnd, run_schedule};
pub use seats::{
    ACTORS, ActorPlace, Pending, close, free_seats, is_busy, is_free, pending_at, settle,
};
pub use session::replay_session;
pub use streams::replay_streams;
