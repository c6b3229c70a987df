//! Connections over TCP, served as lanes by sets of them: the form of `tcp_lanes` for many workers, of which few are awake. Nothing uses it
//! yet.
//!
//! A link is the stream of whole messages that one worker serves, whoever sent them, and ends with the connection at hand, as in
//! `tcp_lanes`, whose connections, intakes and limits these are. What differs is what the workers share. A set is a poll of the
//! system with its line of ready sockets and its connections. It lies in a lane, whose worker owns it, or in the yard for who comes next,
//! and nothing in it is locked: to serve a message takes no lock and wakes nobody. As many sets as processors are best.
//! A new connection goes to the live set with the fewest. A worker whose message has to wait pauses: it gives its set to a worker that has
//! none, keeps its connection, and answers without a set. Then the connection goes home by mail: it is registered anew under the
//! lock of the mail, so that the system tells its state again, and with it all that was told to nobody. So many messages may wait at
//! a time; the next one is turned away at once. Where nobody takes a set whose worker waits or whose link has ended, its connections go to
//! other sets, and with them the listening socket where it was told of that.
//! A message that takes long without a pause holds up its set, and one whose worker loses its processor stalls its set alone.
//! A server ends with its last link, once no further one is given, or by its switch, of which a set that sleeps hears, too: its port is
//! free at once, and answers under way are sent as far as their clients take them within the time of one. By the switch each link ends
//! behind the message at hand.
//! Memory: a connection holds as much as in `tcp_lanes`, and each set has a place for every connection.
//! Promises: `one_more_waits` gives a further place only below the limit, and refuses one only at it; `SetLink::pause` answers that
//! it was turned away only where it counted so, counts nothing else, and turns nobody away that has a place; `SetAccept` gives one link
//! more or fails with its cause. What the system gives and takes isn't modelled: this is trusted. That a message is
//! answered to who sent it, that the crowd counts the places of all links, that a paused worker's set is served by others, that a connection
//! which was mailed home is served again, that those that wait too long are closed, and how a server ends, only tests on the
//! loopback show (`sets_tests`).
//! Stands on tcp_lanes, http_wire, base and exact_ratio, and on `mio` for epoll.
#![tactic(auto)]

mod accept;
mod address;
mod arrivals;
mod crowd;
mod desk;
mod ending;
mod guest;
mod lane;
mod limits;
mod line;
mod link;
mod links_out;
mod lobby;
mod set;
mod sharing;
mod yard;

pub use accept::{SetAccept, StopSwitch};
pub use crowd::one_more_waits;
pub use limits::{SetLimits, WAITING, WORKERS};
pub use link::{SetLink, TurnedAway};
