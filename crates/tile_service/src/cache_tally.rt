//! How many answers are hits, misses or neither.
ghost use Rattle.std.specs.Prelude.{◌≡◌, ◌^◌, ◌<◌};
ghost use Rattle.tile_service.specs.CacheTally.{both, one_of, result_of, total};

use tile_requests::Outcome;

/// What an answer tells of the cache.
#[derive(Clone, Copy, PartialEq, Eq)]
pub enum CacheResult {
    /// A kept tile was handed out.
    Hit,
    /// A tile was rendered for the answer.
    Miss,
    /// It has no tile.
    Other,
}

/// How many answers tell what of the cache.
#[derive(Clone, Copy, PartialEq, Eq)]
pub struct CacheTally {
    pub hits: u64,
    pub misses: u64,
    pub others: u64,
}

/// What an outcome tells of the cache.
pub fn result_of(outcome: &Outcome) -> CacheResult
    ensures { result ≡ result_of outcome.now }
{
    match outcome {
        Outcome::Tile(true, _, _) => CacheResult::Hit,
        Outcome::Tile(false, _, _) => CacheResult::Miss,
        _ => CacheResult::Other,
    }
}

impl CacheTally {
    /// The counts of no answers.
    pub const NONE: CacheTally = CacheTally {
        hits: 0,
        misses: 0,
        others: 0,
    };

    /// Counts the answer of a line, where it has one.
    pub fn count(&mut self, told: Option<CacheResult>)
        requires { total self.old < 2 ^ 63 }
        ensures { self.new ≡ both self.old (one_of told) }
    {
        match told {
            None => {}
            Some(CacheResult::Hit) => self.hits += 1,
            Some(CacheResult::Miss) => self.misses += 1,
            Some(CacheResult::Other) => self.others += 1,
        }
    }

    /// How many answers were counted.
    pub fn total(&self) -> u64
        requires { total self.now < 2 ^ 64 }
        ensures { result ≡ total self.now }
    {
        self.hits + self.misses + self.others
    }
}
