//! What the lanes share: the listening socket, the connections that rest, and the line of those that are ready.
use crate::limits::{HELD_BACK, LANES, Limits, WATCH};
use crate::shared_lanes::{ALARM, LISTENING, LaneStep, Poller, Ready, SharedLanes, Vigil};
use crate::slots::Slots;
use mio::net::TcpListener;
use mio::{Interest, Registry, Token, Waker};
use std::alloc::{AllocError, Global};
use std::io;
use std::sync::atomic::{AtomicBool, Ordering};
use std::sync::{Condvar, Mutex, MutexGuard, Wait};
use std::time::{Clock, Duration};

/// What the lanes share.
#[derive(Drop)]
pub struct Lobby {
    pub alloc: Global,
    pub limits: Limits,
    /// The listening socket. Absent once nobody may connect any more.
    pub door: Mutex<Option<TcpListener>>,
    pub registry: Registry,
    pub slots: Slots,
    pub shared_lanes: Mutex<SharedLanes>,
    parked: Condvar,
    /// Ends the wait of the lane that asks the system.
    alarm: Waker,
    /// The buffers of the lanes that may still be given out, one each.
    heads: Mutex<Vec<Vec<u8>>>,
    ended: Condvar,
    /// Whether no further lane is given out.
    closing: AtomicBool,
}

/// The buffers of all lanes.
fn heads(alloc: Global) -> Result<Vec<Vec<u8>>, AllocError> {
    let mut heads = Vec::with_capacity(alloc, LANES)?;
    for _ in 0..LANES {
        heads
            .push(Vec::with_capacity(alloc, HELD_BACK)?)
            .map_err(AllocError::from)?;
    }
    Ok(heads)
}

/// The time in milliseconds, on a clock that never goes back. A clock that can't be read stands still.
pub fn time<R: Clock>(rt: &R) -> u64 {
    match rt.monotonic() {
        Ok(time) => u64::try_from(time.as_millis()).unwrap_or(u64::MAX),
        Err(_) => 0,
    }
}

impl Lobby {
    /// A lobby behind that socket. Everything that waiting needs is taken here.
    pub fn new(
        alloc: Global,
        mut socket: TcpListener,
        poller: Poller,
        limits: Limits,
        now: u64,
    ) -> io::Result<Lobby> {
        let registry = poller.poll.registry().try_clone()?;
        registry.register(&mut socket, Token(LISTENING), Interest::READABLE)?;
        let alarm = Waker::new(&registry, Token(ALARM))?;
        Ok(Lobby {
            alloc,
            limits,
            door: Mutex::new(Some(socket)),
            registry,
            slots: Slots::new(alloc, limits.connections)?,
            shared_lanes: Mutex::new(SharedLanes::new(alloc, poller, limits, now)?),
            parked: Condvar::new(),
            alarm,
            heads: Mutex::new(heads(alloc)?),
            ended: Condvar::new(),
            closing: AtomicBool::new(false),
        })
    }

    /// Waits until a lane may be given out, and takes its buffer.
    pub fn enter<R: Wait>(&self, rt: &R) -> Vec<u8> {
        let mut heads = self
            .ended
            .wait_while(rt, self.heads.lock(rt), |heads| heads.is_empty());
        let head = heads.pop().unwrap_or(Vec::new(self.alloc));
        drop(heads);
        self.shared_lanes.lock(rt).begin();
        head
    }

    /// Takes the buffer of a lane back that has ended. All ends where it was the last one.
    pub fn leave<R: Wait + Clock>(&self, rt: &R, mut head: Vec<u8>) {
        self.call_another(rt);
        head.clear();
        let mut heads = self.heads.lock(rt);
        // There is room for every buffer.
        let _ = heads.push(head);
        let all = heads.len() == LANES;
        drop(heads);
        self.ended.notify_one();
        if all && self.closing.load(Ordering::SeqCst) {
            self.wind_up(rt);
        }
    }

    /// Notes that a lane has ended, and has another one look after those in line.
    fn call_another<R: Wait>(&self, rt: &R) {
        let mut shared_lanes = self.shared_lanes.lock(rt);
        shared_lanes.come_back();
        let wakes = shared_lanes.needs_hand();
        let alarms = shared_lanes.needs_asker();
        drop(shared_lanes);
        if wakes {
            self.parked.notify_one();
        } else if alarms {
            // Where it can't be woken it looks by itself within the time of a sweep.
            let _ = self.alarm.wake();
        }
    }

    /// No further lane is given out: all ends once every lane has.
    pub fn end_after_last<R: Wait + Clock>(&self, rt: &R) {
        self.closing.store(true, Ordering::SeqCst);
        let all = self.heads.lock(rt).len() == LANES;
        if all {
            self.wind_up(rt);
        }
    }

    /// Puts a socket in line.
    pub fn tell<R: Wait>(&self, rt: &R, token: usize) {
        self.shared_lanes.lock(rt).tell(token, false);
    }

    /// Waits for a socket that is ready.
    pub fn next<R: Wait + Clock>(&self, rt: &R) -> Ready {
        let mut vigil = Vigil::new();
        let mut shared_lanes = self.shared_lanes.lock(rt);
        shared_lanes.come_back();
        for _ in rt.forever() {
            if let Some(ready) = shared_lanes.first() {
                self.set_out(shared_lanes, &mut vigil);
                return ready;
            }
            shared_lanes = match shared_lanes.step(&mut vigil) {
                LaneStep::Watch => self.watch(rt, shared_lanes),
                LaneStep::Ask(poller) => self.ask(rt, shared_lanes, poller),
                LaneStep::Park => self.park(rt, shared_lanes, &mut vigil),
            };
        }
        unreachable!()
    }

    fn set_out(&self, mut shared_lanes: MutexGuard<'_, SharedLanes>, vigil: &mut Vigil) {
        let wake = shared_lanes.set_out(vigil);
        drop(shared_lanes);
        if wake {
            self.parked.notify_one();
        }
    }

    fn watch<'b, R: Wait + Clock>(
        &'b self,
        rt: &R,
        mut shared_lanes: MutexGuard<'b, SharedLanes>,
    ) -> MutexGuard<'b, SharedLanes> {
        shared_lanes.park();
        let (mut shared_lanes, _) = self
            .parked
            .wait_timeout(rt, shared_lanes, Duration::from_millis(WATCH));
        shared_lanes.unpark();
        shared_lanes
    }

    fn park<'b, R: Wait>(
        &'b self,
        rt: &R,
        mut shared_lanes: MutexGuard<'b, SharedLanes>,
        vigil: &mut Vigil,
    ) -> MutexGuard<'b, SharedLanes> {
        shared_lanes.park();
        let mut shared_lanes = self.parked.wait(rt, shared_lanes);
        shared_lanes.unpark();
        shared_lanes.rise(vigil);
        shared_lanes
    }

    /// Asks the system who is ready, and waits for it as long as may be.
    fn ask<'b, R: Wait + Clock>(
        &'b self,
        rt: &R,
        shared_lanes: MutexGuard<'b, SharedLanes>,
        mut poller: Poller,
    ) -> MutexGuard<'b, SharedLanes> {
        let patience = shared_lanes.patience();
        drop(shared_lanes);
        // A wait that fails tells of nobody, as one that a signal ends.
        let _ = poller.poll.poll(&mut poller.events, patience);
        let now = time(rt);
        let mut shared_lanes = self.shared_lanes.lock(rt);
        if shared_lanes.hear(poller, now) {
            drop(shared_lanes);
            self.sweep(rt, now);
            return self.shared_lanes.lock(rt);
        }
        shared_lanes
    }

    /// Puts the connections in line that have waited too long. Who takes them up looks once more before it closes them.
    fn sweep<R: Wait>(&self, rt: &R, now: u64) {
        for token in 1..=self.limits.connections {
            if self.slots.is_overdue(rt, token, now) {
                self.tell(rt, token);
            }
        }
    }
}
