//! Who is in line to be served, and who waits for the system to tell of more.
//!
//! One lane at a time asks the system, and the others are parked. One of those may watch: it looks every millisecond whether
//! somebody asks, and does so itself where nobody does, so that a lane which is long at work keeps no newcomer waiting.
use crate::limits::{LOOKS, Limits, SERVED};
use mio::{Events, Poll};
use std::alloc::{AllocError, Global};
use std::collections::VecDeque;
use std::time::Duration;

/// The number of the listening socket, before those of the connections.
pub const LISTENING: usize = 0;

/// The number by which the system tells that a wait is to end. It is that of no socket.
pub const ALARM: usize = usize::MAX;

/// What waits for the system.
#[derive(Drop)]
pub struct Poller {
    pub poll: Poll,
    pub events: Events,
}

/// A socket of which the system told, and whether the client closed its side.
#[derive(Clone, Copy, PartialEq, Eq)]
pub struct Ready {
    pub token: usize,
    pub hung_up: bool,
}

impl Ready {
    /// The same behind what the system told before: that a client closed its side is told once.
    pub fn after(self, before: Option<Ready>) -> Ready {
        match before {
            Some(before) => Ready {
                token: self.token,
                hung_up: self.hung_up || before.hung_up,
            },
            None => self,
        }
    }
}

/// What is known of a socket that is in line or isn't.
#[derive(Clone, Copy, PartialEq, Eq)]
struct SocketMark {
    queued: bool,
    hung_up: bool,
}

/// What a lane saw while it waited.
#[derive(Clone, Copy, PartialEq, Eq)]
pub struct Vigil {
    /// Whether it was parked, and has not asked the system since.
    parked: bool,
    watches: bool,
    /// How often the system had been asked at its last look, and for how many looks that was so.
    seen: u64,
    still: u32,
}

/// What a lane does that finds nobody in line.
#[derive(Drop)]
pub enum LaneStep {
    Watch,
    Ask(Poller),
    Park,
}

/// What the lanes share under one lock.
#[derive(Drop)]
pub struct SharedLanes {
    limits: Limits,
    line: VecDeque<usize>,
    marks: Vec<SocketMark>,
    /// Absent while a lane asks the system.
    poller: Option<Poller>,
    /// How often the system was asked.
    asked: u64,
    /// How many were served since it was asked.
    served: u64,
    /// How many lanes are parked, or watch.
    parked: u64,
    watched: bool,
    /// How many lanes are at work.
    working: u64,
    /// The tokens of no connection.
    vacant: Vec<usize>,
    /// Whether connections may wait in the backlog, of which the system has told.
    backlog: bool,
    /// When it was last looked who waited too long.
    swept: u64,
}

impl Vigil {
    /// That of a lane which comes from its work.
    pub fn new() -> Vigil {
        Vigil {
            parked: false,
            watches: false,
            seen: 0,
            still: 0,
        }
    }
}

impl SharedLanes {
    /// A shared_lanes with room for every socket. `AllocError` where memory runs out.
    pub fn new(
        alloc: Global,
        poller: Poller,
        limits: Limits,
        now: u64,
    ) -> Result<SharedLanes, AllocError> {
        let sockets = limits.connections.saturating_add(1);
        let mut marks = Vec::with_capacity(alloc, sockets)?;
        let mut vacant = Vec::with_capacity(alloc, limits.connections)?;
        for token in 0..=limits.connections {
            marks.push(SocketMark {
                queued: false,
                hung_up: false,
            })?;
            if token != LISTENING {
                vacant.push(token)?;
            }
        }
        Ok(SharedLanes {
            limits,
            line: VecDeque::with_capacity(alloc, sockets)?,
            marks,
            poller: Some(poller),
            asked: 0,
            served: 0,
            parked: 0,
            watched: false,
            working: 0,
            vacant,
            backlog: false,
            swept: now,
        })
    }
}

// The line.
impl SharedLanes {
    /// Puts a socket in line, unless it is.
    pub fn tell(&mut self, token: usize, hung_up: bool) {
        let Some(mark) = self.marks.get_mut(token) else {
            return;
        };
        mark.hung_up = mark.hung_up || hung_up;
        if mark.queued {
            return;
        }
        mark.queued = true;
        // There is room for every socket.
        let _ = self.line.push_back(token);
    }

    /// The first in line. None where it is time to ask the system first.
    pub fn first(&mut self) -> Option<Ready> {
        if self.is_stale() {
            return None;
        }
        let token = self.line.pop_front()?;
        self.served = self.served.saturating_add(1);
        let mark = self.marks.get_mut(token)?;
        let ready = Ready {
            token,
            hung_up: mark.hung_up,
        };
        mark.queued = false;
        mark.hung_up = false;
        Some(ready)
    }

    /// Whether so many were served that the system has to be asked: a line that never empties must not keep newcomers out.
    fn is_stale(&self) -> bool {
        self.served >= SERVED && self.poller.is_some()
    }

    /// How long the system may be waited for: not at all while somebody is in line, and as long as it likes only while no
    /// connection is open and none can be opened meanwhile.
    pub fn patience(&self) -> Option<Duration> {
        if !self.line.is_empty() {
            Some(Duration::ZERO)
        } else if self.working > 0 || self.backlog || self.vacant.len() < self.limits.connections {
            Some(Duration::from_millis(self.limits.sweep))
        } else {
            None
        }
    }

    /// Takes the poller back with what the system told. Whether it is time to look who waited too long.
    pub fn hear(&mut self, poller: Poller, now: u64) -> bool {
        for event in &poller.events {
            self.tell(event.token().0, event.is_read_closed());
        }
        self.poller = Some(poller);
        if now.saturating_sub(self.swept) < self.limits.sweep {
            return false;
        }
        self.swept = now;
        self.look_at_backlog();
        true
    }
}

// Who waits.
impl SharedLanes {
    /// What a lane does that finds nobody in line.
    pub fn step(&mut self, vigil: &mut Vigil) -> LaneStep {
        let idle = vigil.watches && self.poller.is_some() && self.asked == vigil.seen;
        let free = vigil.watches || !self.watched;
        if vigil.parked && free && !idle && !self.is_stale() && vigil.still < LOOKS {
            self.watch(vigil);
            return LaneStep::Watch;
        }
        self.end_watch(vigil);
        match self.poller.take() {
            Some(poller) => {
                self.asked = self.asked.wrapping_add(1);
                self.served = 0;
                vigil.parked = false;
                LaneStep::Ask(poller)
            }
            None => LaneStep::Park,
        }
    }

    fn watch(&mut self, vigil: &mut Vigil) {
        if self.asked == vigil.seen {
            vigil.still = vigil.still.saturating_add(1);
        } else {
            vigil.still = 0;
        }
        vigil.seen = self.asked;
        vigil.watches = true;
        self.watched = true;
    }

    fn end_watch(&mut self, vigil: &mut Vigil) {
        if vigil.watches {
            self.watched = false;
        }
        vigil.watches = false;
    }

    /// Notes that a lane parks or watches.
    pub fn park(&mut self) {
        self.parked = self.parked.saturating_add(1);
    }

    /// Notes that one does so no longer.
    pub fn unpark(&mut self) {
        self.parked = self.parked.saturating_sub(1);
    }

    /// Begins a new vigil of a lane that was parked.
    pub fn rise(&self, vigil: &mut Vigil) {
        vigil.parked = true;
        vigil.still = 0;
        vigil.seen = self.asked;
    }

    /// Notes that a lane goes to its work. Whether another one has to be woken: more are in line, or nobody watches.
    pub fn set_out(&mut self, vigil: &mut Vigil) -> bool {
        self.end_watch(vigil);
        self.working = self.working.saturating_add(1);
        self.parked > 0 && (!self.line.is_empty() || !self.watched)
    }

    /// Notes that a lane comes from its work, or that it has ended.
    pub fn come_back(&mut self) {
        self.working = self.working.saturating_sub(1);
    }

    /// Notes that a lane is given out, and is at work until it asks for a message.
    pub fn begin(&mut self) {
        self.working = self.working.saturating_add(1);
    }

    /// Whether a parked lane has to be woken since somebody is in line.
    pub fn needs_hand(&self) -> bool {
        self.parked > 0 && !self.line.is_empty()
    }

    /// Whether the lane that asks the system has to be woken since somebody is in line and no lane is parked.
    pub fn needs_asker(&self) -> bool {
        self.parked == 0 && self.poller.is_none() && !self.line.is_empty()
    }
}

// Tokens.
impl SharedLanes {
    /// A token for a further connection. None where as many are open as may be; then the backlog is looked at again when one ends.
    pub fn hire(&mut self) -> Option<usize> {
        let token = self.vacant.pop();
        if token.is_none() {
            self.backlog = true;
        }
        token
    }

    /// Takes the token of a connection back that has ended.
    pub fn dismiss(&mut self, token: usize) {
        // There is room for every token.
        let _ = self.vacant.push(token);
        self.look_at_backlog();
    }

    /// Notes that connections may wait of which the system has told.
    pub fn postpone(&mut self) {
        self.backlog = true;
    }

    fn look_at_backlog(&mut self) {
        if self.backlog && !self.vacant.is_empty() {
            self.backlog = false;
            self.tell(LISTENING, false);
        }
    }
}
