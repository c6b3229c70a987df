//! A clock that goes on only where somebody sleeps or works.
use std::io;
use std::sync::atomic::{AtomicU64, Ordering};
use std::time::{Clock, Duration};

/// Such a clock. A sleep takes just as long as it was asked for.
#[derive(Drop)]
pub struct Moments {
    micros: AtomicU64,
}

impl Moments {
    /// A clock at its start.
    pub fn new() -> Moments {
        Moments {
            micros: AtomicU64::new(0),
        }
    }

    /// Work that takes so many microseconds.
    pub fn work(&self, micros: u64) {
        self.micros.fetch_add(micros, Ordering::SeqCst);
    }

    /// The microseconds since the start.
    pub fn micros(&self) -> u64 {
        self.micros.load(Ordering::SeqCst)
    }
}

impl Clock for Moments {
    fn monotonic(&self) -> io::Result<Duration> {
        Ok(Duration::from_micros(self.micros()))
    }

    fn since_1970(&self) -> io::Result<Duration> {
        self.monotonic()
    }

    fn sleep(&self, duration: Duration) {
        self.work(u64::try_from(duration.as_micros()).unwrap_or(0));
    }
}
