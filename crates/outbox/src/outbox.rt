//! The type of an outbox. Its calls stand in files of their own.
use cache_file::CacheFile;
use catalog::Catalogue;
use disk_model::Disk;
use std::marker::Model;
use std::snapshot::Snapshot;
use truncation_list::Cover;

/// How many slots a half of the file of an outbox has, and so how many posts it can hold.
pub(crate) const SLOTS: u64 = 65536;

/// The covers that a leader has posted, with their file, and how many of them were heard as seen. Contracts see the catalogue that it was
/// opened with, the posts, and the file.
#[derive(Drop)]
pub struct Outbox<D: Disk> {
    pub(crate) catalogue: Snapshot<Catalogue>,
    pub(crate) posts: Vec<Cover>,
    /// The post that a call may have left that failed.
    pub(crate) undecided: Option<Cover>,
    /// The greatest number that was heard as seen since it was opened.
    pub(crate) heard: u64,
    pub(crate) file: CacheFile<D>,
}

impl<D: Disk> Model for Outbox<D> {
    ghost use Rattle.outbox.specs.Files.{IsPosted};
    ghost use Rattle.outbox.specs.Posts.{ShownOutbox};

    ghost Value = { ShownOutbox D };

    ghost view = { λ o. record { catalogue = o.catalogue.value; out = record { posts = o.posts.items; undecided = o.undecided; heard = o.heard }; file = o.file } };

    ghost invariant = { λ o. IsPosted (D.told o.file.disk) o.catalogue.value (record { posts = o.posts.items; undecided = o.undecided; heard = o.heard }) o.file.journal (D.state o.file.disk) };
}
