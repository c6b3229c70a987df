//! The types of a layer and of its styles, dimensions and age limits.
use exact_ratio::{Items, Words};

/// The colour of all values from `from` on, up to the next break.
#[derive(Clone, Copy, PartialEq, Eq)]
pub struct Break {
    pub from: u8,
    pub r: u8,
    pub g: u8,
    pub b: u8,
}

/// A style. Without breaks it is grey.
#[derive(Drop)]
pub struct Style {
    pub id: Words,
    pub breaks: Items<Break>,
}

/// A dimension of a layer, as its time or its level, with the values that it may have.
#[derive(Drop)]
pub struct Dimension {
    pub id: Words,
    pub values: Items<Words>,
    /// The number of the value that counts where a request gives none.
    pub default: Option<u32>,
}

/// From a zoom on, the age up to which a kept metatile may answer.
#[derive(Clone, Copy, PartialEq, Eq)]
pub struct Age {
    /// The number of the matrix in its grid from which on this counts, up to the zoom of the next age.
    pub zoom: u32,
    /// The age in seconds. 0 stands for no limit.
    pub seconds: u32,
}

/// A layer of the map.
#[derive(Drop)]
pub struct Layer {
    pub id: Words,
    /// The numbers of the grids on which it is served.
    pub grids: Items<u32>,
    pub styles: Items<Style>,
    pub dims: Items<Dimension>,
    /// How many tiles a metatile has across.
    pub meta_x: u32,
    /// How many tiles a metatile has downwards.
    pub meta_y: u32,
    /// How many pixels are rendered round a metatile and cut away.
    pub gutter: u32,
    /// The side of a ground cell, in units of the grid.
    pub cell: u64,
    /// The most bytes that its kept metatiles may take.
    pub quota: Option<u64>,
    /// How old its kept metatiles may be, by zooms that rise strictly. Below the first zoom there is no limit.
    pub ages: Items<Age>,
}
