//! The type of a feed. Its calls stand in files of their own.
use crate::mark::Mark;
use cache_file::CacheFile;
use disk_model::Disk;
use std::marker::Model;

/// A feed of changes, with the file of its marks. Contracts see the mark of the last change, the one that a call may have left that
/// failed, and the file.
#[derive(Drop)]
pub struct Feed<D: Disk> {
    pub(crate) file: CacheFile<D>,
    /// The mark of the last change that was answered as done, or that was found at the opening.
    pub(crate) mark: Option<Mark>,
    /// The mark that a call may have left that failed.
    pub(crate) undecided: Option<Mark>,
}

impl<D: Disk> Model for Feed<D> {
    ghost use Rattle.change_feed.specs.Files.{IsMarked, ShownFeed};

    ghost Value = { ShownFeed D };

    ghost view = { λ f. record { stand = record { mark = f.mark; undecided = f.undecided }; file = f.file } };

    ghost invariant = { λ f. IsMarked (D.told f.file.disk) (record { mark = f.mark; undecided = f.undecided }) f.file.journal (D.state f.file.disk) };
}
