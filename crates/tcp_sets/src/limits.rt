//! How many sets, lanes and waiting messages a server has.
ghost use Rattle.std.specs.Prelude.{◌≡◌, ◌+◌, min, max};

use tcp_lanes::Limits;

/// What a server grants its clients, and into how many parts it divides them.
#[derive(Clone, Copy, PartialEq, Eq)]
pub struct SetLimits {
    /// How long a connection may wait for its client, and how many there may be.
    pub clients: Limits,
    /// How many sets there are: best as many as processors, 2 to 8. Where it is 0 there is one.
    pub sets: usize,
    /// The most messages that pause at a time.
    pub waiting: u64,
    /// The most links that are out at a time: best as many as workers and sets, so that a worker whose link ends finds the next one there.
    pub links: usize,
}

/// How many workers the standard limits are made for.
pub const WORKERS: usize = 64;

/// The most messages that pause at a time within the standard limits: fewer than there are workers, so that some are never away.
pub const WAITING: u64 = 56;

impl SetLimits {
    /// The standard limits of `Limits` for the clients, on a machine of that many processors: a set for each, but 2 to 8 of them; 56
    /// messages that pause; and a link more than that of each of 64 workers for every set.
    pub fn standard(processors: usize) -> SetLimits
        ensures sets { result.sets ≡ min 8 (max 2 processors) }
        ensures waiting { result.waiting ≡ 56 }
        ensures links { result.links ≡ 64 + result.sets }
    {
        let sets = processors.max(2).min(8);
        SetLimits {
            clients: Limits::standard(),
            sets,
            waiting: WAITING,
            links: WORKERS + sets,
        }
    }
}
