//! A clock, and the count of what it has given.
ghost use Rattle.std.specs.Prelude.{◌≡◌};
ghost use Rattle.base.specs.Readings.{read, unread};

use crate::causes::one_more;
use crate::moments::Moments;
use std::marker::Model;

/// Gives moments, in seconds. It doesn't fail, and nothing is said of the order of what it gives. Contracts see how often it was
/// asked, and the moment that it gave last.
#[derive(Drop)]
pub struct Clock {
    moments: Moments,
    readings: u64,
    last: u64,
}

impl Model for Clock {
    ghost use Rattle.base.specs.Readings.{Readings};

    ghost Value = { Readings };

    ghost view = { λ c. record { count = c.readings; moment = c.last } };
}

impl Clock {
    /// A clock that gives these moments in their order, then the last one again and again; 0 where there are none.
    pub fn listed(moments: Vec<u64>) -> Clock
        ensures { result ≡ unread }
    {
        Clock::of(Moments::Listed(moments.into_iter()))
    }

    /// The time of day of a system, in seconds since 1970. Where that can't be read, the last moment is given again.
    pub fn system(system: HostRuntime) -> Clock
        ensures { result ≡ unread }
    {
        Clock::of(Moments::System(system))
    }

    fn of(moments: Moments) -> Clock
        ensures { result ≡ unread }
    {
        Clock {
            moments,
            readings: 0,
            last: 0,
        }
    }

    /// The moment now, in seconds since a start of the clock's own.
    pub fn now(&mut self) -> u64
        ensures { self.new ≡ read result self.old }
    {
        if let Some(moment) = self.moments.next() {
            self.last = moment;
        }
        self.readings = one_more(self.readings);
        self.last
    }
}
