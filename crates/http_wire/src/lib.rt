//! The messages of a stream of bytes, the traits of what bytes come from and go to, and that of a socket that gives connections.
//!
//! Promises: `MessageReader::next` gives the next message of a link's stream, or how the stream stops, however the bytes
//! are cut (`specs/Messages.antt`); `one_reading` says that a stream has one reading but for two stated exceptions; `send`
//! sends all of its bytes or exactly the first so many; `read_all` reads a source to its end. Each fault has its cause in
//! the count of the object handed in. A form in memory is modelled, a form over the system isn't. `Duplex` makes a link of a
//! source and a sink that are lent apart. Of a `Listener` contracts see each link that was given: each accept gives one link more or
//! fails; `ListOfLinks` gives the links that it was made of, in their order, and then none. The form that waits on a real network is of
//! tcp_lanes.
//! Stands on base and exact_ratio, and on `httparse` and `http` for heads and methods.
#![tactic(auto)]

mod duplex;
mod fields;
mod file_source;
mod filling;
mod inputs;
mod laws;
mod links;
mod list_of_links;
mod listener;
mod look;
mod memory_link;
mod memory_sink;
mod memory_source;
mod message;
mod next_message;
mod outline;
mod reader;
mod sending;
mod std_streams;
mod streams;

pub use duplex::{Duplex, Ends, Loans};
pub use file_source::FileSource;
pub use inputs::{InputEnd, read_all};
pub use laws::{each_answer, one_next, one_reading};
pub use links::Link;
pub use list_of_links::ListOfLinks;
pub use listener::Listener;
pub use look::{HEAD_LIMIT, LookOutcome, Looked, at_end, front_of, step};
pub use memory_link::MemoryLink;
pub use memory_sink::MemorySink;
pub use memory_source::MemorySource;
pub use message::{Ended, Message, Method, Next, Stop, WireFault};
pub use outline::{Outline, Outlined, judge, outline_of};
pub use reader::MessageReader;
pub use sending::{Sent, send, send_both};
pub use std_streams::{StdinSource, StdoutSink};
pub use streams::{ByteSink, ByteSource, Failed};
