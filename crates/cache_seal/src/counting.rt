//! What becomes of the sum of a tile, and how many tiles come to what.
ghost use Rattle.std.specs.Prelude.{◌≡◌, ◌<◌, ◌^◌};
ghost use Rattle.cache_seal.specs.Fates.{AddsUp, no_tally, noted};

/// What became of the sum of a kept tile.
#[derive(Clone, Copy, PartialEq, Eq)]
pub enum Fate {
    /// It was written: there was none, or another one and each is made anew.
    Sealed,
    /// It was there and is that of the tile.
    Fitted,
    /// Another one was there, and stays.
    Unfit,
    /// The tile or its sum couldn't be read, and what stands there stays.
    Unread,
}

/// How many kept tiles came to what.
#[derive(Clone, Copy, Debug, PartialEq, Eq, Drop)]
pub struct SealTally {
    /// All of them.
    pub tiles: u64,
    /// Those whose sum was written.
    pub sealed: u64,
    /// Those whose sum was there and is that of the tile.
    pub fitted: u64,
    /// Those of which another sum was there, and stays.
    pub unfit: u64,
    /// Those that couldn't be read, or whose sum couldn't, which stays.
    pub unread: u64,
}

impl SealTally {
    /// That of no tile.
    pub fn none() -> SealTally
        ensures { result ≡ no_tally }
    {
        SealTally {
            tiles: 0,
            sealed: 0,
            fitted: 0,
            unfit: 0,
            unread: 0,
        }
    }

    /// Counts one tile more.
    pub(crate) fn note(&mut self, fate: Fate)
        requires sum { AddsUp self.old }
        requires room { self.old.tiles < 2 ^ 63 }
        ensures noted { self.new ≡ noted self.old fate }
        ensures sum { AddsUp self.new }
    {
        self.tiles += 1;
        match fate {
            Fate::Sealed => self.sealed += 1,
            Fate::Fitted => self.fitted += 1,
            Fate::Unfit => self.unfit += 1,
            Fate::Unread => self.unread += 1,
        }
    }
}
