//! A cache of two layers, and catalogues in the place of its own, with what is taken over for each of them.
use carry_over::{Carried, CarryFault};
use matrix_geometry::{Filter, Theme};
use metatile_plan::MetaKey;
use std::alloc::{AllocError, Global};
use truncation_list::Cover;

/// The text of a catalogue of one grid, in parts; the second layer may be more than one.
#[derive(Clone, Copy)]
pub struct Text {
    limits: &'static [u8],
    grid: &'static [u8],
    first: &'static [u8],
    second: &'static [u8],
}

impl Text {
    /// The parts, one behind the other.
    pub fn whole(&self, alloc: Global) -> Result<Vec<u8>, AllocError> {
        let mut text = Vec::new(alloc);
        for part in [
            b"{".as_slice(),
            self.limits,
            b",\"grids\":[".as_slice(),
            self.grid,
            b"],\"layers\":[".as_slice(),
            self.first,
            b",".as_slice(),
            self.second,
            b"]}".as_slice(),
        ] {
            text.extend_from_slice(part)?;
        }
        Ok(text)
    }
}

const GRID: &[u8] = br#"{"id":"g","corner":["0","16"],"matrices":[
{"id":"0","span":"8","tile":[2,2],"size":[1,1]},{"id":"1","span":"4","tile":[2,2],"size":[2,2]}]}"#;

const LAND: &[u8] = br#"{"id":"land","grids":["g"],"meta":[1,1],"styles":[{"id":"grey","breaks":[]},
{"id":"red","breaks":[[0,255,0,0]]}],"dimensions":[{"id":"time","values":["a","b"]}]}"#;

const SEA: &[u8] =
    br#"{"id":"sea","grids":["g"],"meta":[2,2],"styles":[{"id":"grey","breaks":[]}]}"#;

/// The catalogue of the cache.
pub const OLD: Text = Text {
    limits: br#""keptLimit":4,"cutLimit":2,"blobBytes":4096"#,
    grid: GRID,
    first: LAND,
    second: SEA,
};

/// One with other limits, quotas and policy, another default, and an age of its first layer.
pub const ROOMY: Text = Text {
    limits: br#""keptLimit":9,"cutLimit":3,"blobBytes":9000,"quota":5000,"policy":"lfu""#,
    first: br#"{"id":"land","grids":["g"],"meta":[1,1],"quota":100,"ages":[[0,50]],"styles":[{"id":"grey","breaks":[]},
{"id":"red","breaks":[[0,255,0,0]]}],"dimensions":[{"id":"time","values":["a","b"],"default":"b"}]}"#,
    ..OLD
};

/// One with an age that isn't met: what is kept is taken over, and too old to answer.
const AGED: Text = Text {
    first: br#"{"id":"land","grids":["g"],"meta":[1,1],"ages":[[0,49]],"styles":[{"id":"grey","breaks":[]},
{"id":"red","breaks":[[0,255,0,0]]}],"dimensions":[{"id":"time","values":["a","b"]}]}"#,
    ..OLD
};

/// One with a zoom, a style, a value and a layer more, each behind those that are there.
const MORE_BEHIND: Text = Text {
    grid: br#"{"id":"g","corner":["0","16"],"matrices":[{"id":"0","span":"8","tile":[2,2],"size":[1,1]},
{"id":"1","span":"4","tile":[2,2],"size":[2,2]},{"id":"2","span":"2","tile":[2,2],"size":[4,4]}]}"#,
    first: br#"{"id":"land","grids":["g"],"meta":[1,1],"styles":[{"id":"grey","breaks":[]},{"id":"red","breaks":[[0,255,0,0]]},
{"id":"blue","breaks":[[0,0,0,255]]}],"dimensions":[{"id":"time","values":["a","b","c"]}]}"#,
    second: br#"{"id":"sea","grids":["g"],"meta":[2,2],"styles":[{"id":"grey","breaks":[]}]},
{"id":"wood","grids":["g"],"meta":[2,2],"styles":[{"id":"grey","breaks":[]}]}"#,
    ..OLD
};

/// One with another red.
const OTHER_RED: Text = Text {
    first: br#"{"id":"land","grids":["g"],"meta":[1,1],"styles":[{"id":"grey","breaks":[]},
{"id":"red","breaks":[[0,254,0,0]]}],"dimensions":[{"id":"time","values":["a","b"]}]}"#,
    ..OLD
};

/// One without red.
const NO_RED: Text = Text {
    first: br#"{"id":"land","grids":["g"],"meta":[1,1],"styles":[{"id":"grey","breaks":[]}],
"dimensions":[{"id":"time","values":["a","b"]}]}"#,
    ..OLD
};

/// One with a value before the others.
const VALUE_BEFORE: Text = Text {
    first: br#"{"id":"land","grids":["g"],"meta":[1,1],"styles":[{"id":"grey","breaks":[]},
{"id":"red","breaks":[[0,255,0,0]]}],"dimensions":[{"id":"time","values":["c","a","b"]}]}"#,
    ..OLD
};

/// One with the layers the other way round, so that the first one has no second style.
const SEA_FIRST: Text = Text {
    first: SEA,
    second: LAND,
    ..OLD
};

/// One with another matrix at the second zoom.
const OTHER_MATRIX: Text = Text {
    grid: br#"{"id":"g","corner":["0","16"],"matrices":[
{"id":"0","span":"8","tile":[2,2],"size":[1,1]},{"id":"1","span":"2","tile":[2,2],"size":[2,2]}]}"#,
    ..OLD
};

/// One with other metatiles of the sea.
const OTHER_METATILES: Text = Text {
    second: br#"{"id":"sea","grids":["g"],"meta":[1,1],"styles":[{"id":"grey","breaks":[]}]}"#,
    ..OLD
};

/// One with another source.
const OTHER_SOURCE: Text = Text {
    limits: br#""source":1,"keptLimit":4,"cutLimit":2,"blobBytes":4096"#,
    ..OLD
};

/// One that lets half as many be kept.
const FEW_KEPT: Text = Text {
    limits: br#""keptLimit":2,"cutLimit":2,"blobBytes":4096"#,
    ..OLD
};

/// One with room for two tiles and a half.
const LITTLE_ROOM: Text = Text {
    limits: br#""keptLimit":4,"cutLimit":2,"blobBytes":60"#,
    ..OLD
};

/// One that lets one truncation less be listed.
const FEW_CUTS: Text = Text {
    limits: br#""keptLimit":4,"cutLimit":1,"blobBytes":4096"#,
    ..OLD
};

/// A tile of the cache, alone in its metatile: the number of its render, and the byte that all of it is.
#[derive(Clone, Copy)]
pub struct Tile {
    pub meta: MetaKey,
    pub number: u64,
    pub byte: u8,
}

/// The first number of the first opening, less one.
const FIRST: u64 = 0x0100_0000_0000;

/// A tile of a layer: of this style and time, at this zoom, and at this row and column.
fn tile_of(layer: u32, style: u32, time: u32, z: u32, at: u32, count: u8) -> Tile {
    Tile {
        meta: MetaKey {
            theme: Theme {
                layer,
                style,
                dims: [time, 0, 0, 0],
            },
            grid: 0,
            z,
            row: at,
            col: at,
        },
        number: FIRST + count as u64,
        byte: count,
    }
}

/// One that a truncation drops.
pub fn gone() -> Tile {
    tile_of(0, 0, 0, 0, 0, 2)
}

/// Those that are kept, in the order of their renders: one of the sea, and three of the land, of which the second is red, and
/// the last one of another time.
pub fn tiles() -> [Tile; 4] {
    [
        tile_of(1, 0, 0, 0, 0, 1),
        tile_of(0, 0, 0, 1, 0, 5),
        tile_of(0, 1, 0, 1, 0, 6),
        tile_of(0, 0, 1, 1, 1, 7),
    ]
}

/// A cover of all zooms of the land, of all styles or of one.
fn land(style: Option<u32>) -> Cover {
    Cover {
        layer: 0,
        grid: 0,
        z_start: 0,
        z_stop: 1,
        bounds: None,
        filter: Filter {
            style,
            dims: [None; 4],
        },
    }
}

/// What is done to the cache.
#[derive(Clone, Copy)]
pub enum Step {
    Keeps(Tile),
    Cuts(Cover),
}

/// What is done to it, in order. Each step takes a number.
pub fn steps() -> [Step; 7] {
    let [first, second, third, fourth] = tiles();
    [
        Step::Keeps(first),
        Step::Keeps(gone()),
        Step::Cuts(land(None)),
        Step::Cuts(land(Some(1))),
        Step::Keeps(second),
        Step::Keeps(third),
        Step::Keeps(fourth),
    ]
}

/// A catalogue in the place of the old one, and what then comes of the cache.
#[derive(Clone, Copy)]
pub struct Case {
    pub text: Text,
    pub end: Result<Carried, CarryFault>,
    /// Which of the tiles are given as they were kept.
    pub hits: [bool; 4],
}

/// A case in which so many metatiles and truncations are taken over.
fn case_of(text: Text, kept: u64, cuts: u64, roomless: u64, hits: [bool; 4]) -> Case {
    let end = Ok(Carried {
        kept,
        cuts,
        roomless,
        unread: 0,
    });
    Case { text, end, hits }
}

/// All of them.
pub const ALL: Carried = Carried {
    kept: 4,
    cuts: 2,
    roomless: 0,
    unread: 0,
};

/// The cases. All renders were begun at moment 100, and the tiles are asked for at moment 150.
pub fn cases() -> [Case; 13] {
    [
        case_of(ROOMY, 4, 2, 0, [true; 4]),
        case_of(AGED, 4, 2, 0, [true, false, false, false]),
        case_of(MORE_BEHIND, 4, 2, 0, [true; 4]),
        case_of(OTHER_RED, 3, 2, 0, [true, true, false, true]),
        case_of(NO_RED, 3, 1, 0, [true, true, false, true]),
        case_of(VALUE_BEFORE, 1, 2, 0, [true, false, false, false]),
        case_of(SEA_FIRST, 0, 1, 0, [false; 4]),
        case_of(OTHER_MATRIX, 1, 2, 0, [true, false, false, false]),
        case_of(OTHER_METATILES, 3, 2, 0, [false, true, true, true]),
        case_of(OTHER_SOURCE, 0, 2, 0, [false; 4]),
        case_of(FEW_KEPT, 2, 2, 0, [false, false, true, true]),
        case_of(LITTLE_ROOM, 2, 2, 2, [true, true, false, false]),
        Case {
            text: FEW_CUTS,
            end: Err(CarryFault::CutsFull),
            hits: [false; 4],
        },
    ]
}
