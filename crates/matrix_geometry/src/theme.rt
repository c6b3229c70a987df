//! The types of a theme and of a filter of themes.

/// A layer with one of its styles and a value of each of its dimensions, all by their numbers in the catalogue.
#[derive(Clone, Copy, PartialEq, Eq, PartialOrd, Ord, Hash)]
pub struct Theme {
    pub layer: u32,
    pub style: u32,
    /// Value numbers in the order of the layer's dimensions, 0 where the layer has fewer.
    pub dims: [u32; 4],
}

/// Which styles and values a cover admits: `None` admits any.
#[derive(Clone, Copy, PartialEq, Eq)]
pub struct Filter {
    pub style: Option<u32>,
    pub dims: [Option<u32>; 4],
}
