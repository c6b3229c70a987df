//! How a place of a job ends.
ghost use Rattle.std.specs.Prelude.{◌≡◌};
ghost use Rattle.job_places.specs.Ends.{is_done};

/// Why a place failed.
#[derive(Clone, Copy, PartialEq, Eq)]
pub enum PlaceFault {
    /// The source failed at the rendering.
    Source,
    /// No number is left, of a render or of a cut.
    Spent,
    /// As many cuts would stay in force as may be; the cut was not made.
    CutsFull,
    /// The disk failed at the cut, which was not made. No fault of the disk fails the place of a metatile.
    Disk,
    /// Memory ran out.
    Memory,
}

/// How a place ended.
#[derive(Clone, Copy, PartialEq, Eq)]
pub enum PlaceEnd {
    /// Its metatile is kept, or its cut is made.
    Done,
    /// Its metatile is rendered, and could not be kept: it was overtaken, there was no room, or the disk failed. It is done, too.
    Unkept,
    /// It was left undone.
    Failed(PlaceFault),
}

impl PlaceEnd {
    /// Whether a place that ended so is done.
    pub fn is_done(&self) -> bool
        ensures { result ≡ is_done self.now }
    {
        match self {
            PlaceEnd::Done | PlaceEnd::Unkept => true,
            PlaceEnd::Failed(_) => false,
        }
    }
}
