//! Connections over TCP, served as lanes: a link isn't one connection but the stream of whole messages that one worker serves,
//! whoever sent them.
//!
//! A worker is with a connection only while a whole message of it is at hand, or its answer is made or sent without waiting;
//! otherwise the connection rests in a slot, with what was read of its next message and what wasn't sent of its last answer.
//! So no client holds a worker by being silent, by sending slowly or by not reading, and clients are served in the order in
//! which they became ready. A link ends with the connection at hand, so that links given are connections ended; one that
//! waits too long is closed (`limits`) and uses up no link.
//! Lanes are given before anybody connects whom they may serve. So a listener that was closed listens until the last lane has ended; then
//! nobody connects any more, the answers under way are sent as far as their clients take them within the time of one, and every
//! connection is closed, also one whose next message has come and wasn't served.
//! Bytes that can never become a message are answered as a reader answers them: at once where looking for them is cheap, else
//! when the time for a whole message is over.
//! Memory: an open connection holds fewer than 86,016 bytes of what its client sent, in a buffer of at most 131,072, since it
//! reads 4,096 at a time and only while no whole message is there, which has at most 16,384 of head and 65,536 of body; between
//! two messages the buffer has at most 16,384. Beside these it holds what is left of one answer, since its next message waits until
//! that has gone. So N connections hold at most N such buffers and N answers, and N is at most `Limits::connections`. Where memory
//! runs out for one, that one ends.
//! Promises: `message_end` finds exactly the message at the front of the bytes, how many bytes it needs, or that none ever is
//! there; `Intake` keeps each byte in its order, misses no whole message, gives exactly it, and gives a front up only where no
//! message ever is; `TcpAccept` gives one link more or fails with its cause. What the system gives and takes isn't modelled: this
//! is trusted, and tested on the loopback.
//! Stands on http_wire, base and exact_ratio, on `httparse`, and on `mio` for epoll.
#![tactic(auto)]

mod accept;
mod conn;
mod desk;
mod intake;
mod lane;
mod limits;
mod link;
mod lobby;
mod message_ends;
mod shared_lanes;
mod slots;

pub use accept::TcpAccept;
pub use conn::{AnswerSent, Conn, Filled};
pub use desk::is_shortage;
pub use intake::{Front, Intake};
pub use limits::{
    EMFILE, ENFILE, ENOBUFS, ENOMEM, EVENTS, HELD_BACK, IGNORED, LANES, LOOKING, LOOKS, Limits,
    PAUSE, READ_SIZE, SERVED, WATCH, WELCOMES,
};
pub use link::TcpLink;
pub use lobby::time;
pub use message_ends::{MessageEnd, may_end_head, message_end};
pub use shared_lanes::{ALARM, LISTENING, Ready};
