//! A lane as a link, which may pause.
ghost use Rattle.std.specs.Prelude.{◌≡◌, None, false, refl};
ghost use Rattle.base.specs.Causes.{HasCause};
ghost use Rattle.http_wire.specs.Side.{side};
ghost use Rattle.tcp_sets.specs.Pauses.{PausesAs, without_place};

use crate::lane::Lane;
use http_wire::{ByteSink, ByteSource, Failed, Link};
use std::marker::Model;
use std::sync::Wait;
use std::time::Clock;

/// A pause that is refused, since as many messages wait as may.
#[derive(Clone, Copy, Debug, PartialEq, Eq)]
pub struct TurnedAway;

/// A lane: a stream of whole messages, whoever sent them, each answered to who sent it. What comes and goes isn't modelled. Contracts
/// see how often a put failed, how often a pause was turned away, and whether it has a place among those that wait.
pub struct SetLink<R: Wait + Clock + Drop> {
    rt: R,
    lane: Lane,
    faults: u64,
    turned_away: u64,
    waits: bool,
}

impl<R: Wait + Clock + Drop> Model for SetLink<R> {
    ghost use Rattle.tcp_sets.specs.Pauses.{LinkState};

    ghost Value = { LinkState };

    ghost view = { λ link. record { faults = link.faults; turned_away = link.turned_away; waits = link.waits } };
}

impl<R: Wait + Clock + Drop> SetLink<R> {
    /// The link of that lane.
    pub(crate) fn new(rt: R, lane: Lane) -> SetLink<R> {
        SetLink {
            rt,
            lane,
            faults: 0,
            turned_away: 0,
            waits: false,
        }
    }

    /// Whether the message at hand is of a client on this machine.
    pub fn is_local(&self) -> bool {
        self.lane.is_local()
    }

    /// Is to be called before the message at hand is waited for: it is counted among those that wait, and what this worker keeps from
    /// other clients is given to another one. The message at hand, and the way to its client, stay. One that waits already isn't counted
    /// twice. `TurnedAway` where as many wait as may; then nothing has changed, and its client should be told to come again.
    pub fn pause(&mut self) -> Result<(), TurnedAway>
        ensures cause { HasCause self.old.turned_away self.new.turned_away result }
        ensures exact { PausesAs self.old self.new result }
    {
        if self.waits {
            return Ok(());
        }
        if self.lane.pause(&self.rt) {
            self.waits = true;
            return Ok(());
        }
        self.turned_away = base::one_more(self.turned_away);
        Err(TurnedAway)
    }

    /// Ends the pause, if there is one. Its place among those that wait is free then. It ends with its message, too.
    pub fn resume(&mut self)
        ensures { self.new ≡ without_place self.old }
    {
        if self.waits {
            self.lane.resume();
        }
        self.waits = false;
    }
}

impl<R: Wait + Clock + Drop> Drop for SetLink<R> {
    fn drop(self) {
        let SetLink {
            rt,
            lane,
            faults: _,
            turned_away: _,
            waits,
        } = self;
        if waits {
            lane.resume();
        }
        lane.end(&rt);
    }
}

impl<R: Wait + Clock + Drop> ByteSource for SetLink<R> {
    ghost left = { λ _. None };

    ghost faults = { λ _. 0 };

    ghost apart = { λ link. side None link.faults };

    fn take(&mut self, into: &mut [u8]) -> Result<usize, Failed> {
        self.resume();
        Ok(self.lane.take(&self.rt, into))
    }
}

impl<R: Wait + Clock + Drop> ByteSink for SetLink<R> {
    ghost taken = { λ _. None };

    ghost faults = { λ link. link.faults };

    ghost apart = { λ _. side None 0 };

    fn put(&mut self, bytes: &[u8]) -> Result<usize, Failed> {
        if self.lane.put(&self.rt, bytes) {
            return Ok(bytes.len());
        }
        self.faults = base::one_more(self.faults);
        Err(Failed)
    }
}

impl<R: Wait + Clock + Drop> Link for SetLink<R> {
    ghost take_keeps = { λ link. refl };

    ghost put_keeps = { λ link. refl };
}
