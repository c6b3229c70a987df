//! The tiles of a blob, as they stand on a disk.
ghost use Rattle.std.specs.Prelude.{◌≡◌, ◌<◌, ◌+◌, ◌*◌, ◌^◌, ◌≤◌};
ghost use Rattle.cache_seal.specs.Tiles.{nth_tile};

/// A tile on a disk.
#[derive(Clone, Copy, PartialEq, Eq)]
pub struct DiskTile {
    /// The number of the render that it is of.
    pub number: u64,
    /// Which byte of its blob is its first, counted from 0.
    pub from: u32,
    /// Where on the disk it begins, in bytes.
    pub at: u64,
    /// How many bytes it has.
    pub length: u32,
}

/// The tiles of a blob, which stand one behind the other and have a length in common.
#[derive(Clone, Copy, PartialEq, Eq)]
pub struct BlobTiles {
    /// The number of the render that they are of.
    pub number: u64,
    /// Where on the disk the first one begins, in bytes.
    pub at: u64,
    /// How many bytes each has.
    pub length: u32,
    /// How many there are.
    pub count: u32,
}

/// The tile of a blob at a place among its tiles, counted from 0.
pub(crate) fn nth_tile(tiles: BlobTiles, place: u32) -> DiskTile
    requires from { place * tiles.length < 2 ^ 32 }
    requires at { tiles.at + place * tiles.length < 2 ^ 63 }
    ensures { result ≡ nth_tile tiles place }
{
    let from = place * tiles.length;
    DiskTile {
        number: tiles.number,
        from,
        at: tiles.at + u64::from(from),
        length: tiles.length,
    }
}
