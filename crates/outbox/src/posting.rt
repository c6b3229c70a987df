//! How a cover is posted: its record is written first, and the list has it where every image has the record.
ghost use Rattle.std.specs.Prelude.{◌≡◌, ◌⊎◌, ◌+◌, ◌<◌, ◌≤◌, ◌++◌, ◌∷◌, [], ℕ, IfOk, IsTrue, Ok, OnErr, OnOk, length};
ghost use Rattle.base.specs.Causes.{HasCause};
ghost use Rattle.cache_file.specs.File.{Brings, held};
ghost use Rattle.catalog.specs.declared.catalogue.Catalogue.{Catalogue};
ghost use Rattle.disk_model.specs.Images.{Every, Leaves};
ghost use Rattle.gate_journal.specs.Sound.{IsAlike, IsSettled, IsSound, digest_of, room_of};
ghost use Rattle.outbox.specs.Files.{IsPostable, IsPosted, MayOpenTo, OpensToPosts, post_body};
ghost use Rattle.outbox.specs.Posts.{Outgoing, Posts};
ghost use Rattle.outbox.specs.Writes.{HasWritten, IsFailedOnly};
ghost use Rattle.outbox.specs.declared.posted.Posted.TheVariants as posted;
ghost use Rattle.record_text.specs.Fits.{FitsCover};
ghost use Rattle.served_covers.specs.OfCatalogue.{IsCoverOf};

use crate::outbox::{Outbox, SLOTS};
use crate::posted::Posted;
use crate::written::Written;
use cache_file::CacheFile;
use disk_model::{Disk, Failed};
use record_text::{Record, encode};
use std::alloc::{AllocError, Global};
use truncation_list::Cover;

/// The type of a filter says that it has four values.
fn four(values: [Option<u32>; 4])
    ensures { length values ≡ 4 }
{}

/// The body of the record of a change.
#[tactic(auto, unfolding(crate::specs::Files::post_body))]
fn body_for(number: u64, cover: &Cover) -> [u8; 63]
    requires { FitsCover cover.now }
    ensures { result ≡ post_body number cover.now }
{
    encode(&Record::Cut(number, *cover))
}

/// Settles a file where a call on it has failed; its records are as before. It isn't made ready by `CacheFile::ready`, which replaces the
/// records of a file without room: the records of an outbox are never replaced.
fn settle<D: Disk>(file: &mut CacheFile<D>) -> Result<(), Failed>
    requires sound { IsTrue (D.told file.old.disk) → IsSound file.old.journal (D.state file.old.disk) }
    ensures told { D.told file.new.disk ≡ D.told file.old.disk }
    ensures start { file.new.start ≡ file.old.start }
    ensures alike { IsAlike file.old.journal file.new.journal }
    ensures room { room_of file.new.journal ≡ room_of file.old.journal }
    ensures ok { OnOk result (IsSettled file.new.journal) }
    ensures err { OnErr result (¬ IsSettled file.new.journal) }
    ensures brings { IsTrue (D.told file.old.disk) → Brings result (held file.old.journal (D.state file.old.disk))
        file.old.start file.old.journal file.new.journal (D.state file.old.disk) (D.state file.new.disk) }
    ensures cause { HasCause (D.faults file.old.disk) (D.faults file.new.disk) result }
{
    if file.settled() {
        return Ok(());
    }
    file.journal.settle(&mut file.disk)
}

/// Writes the record of the next post to a file that has room for it.
fn write<D: Disk>(file: &mut CacheFile<D>, number: u64, cover: &Cover) -> Written
    requires fits { FitsCover cover.now }
    requires room { 0 < room_of file.old.journal }
    requires sound { IsTrue (D.told file.old.disk) → IsSound file.old.journal (D.state file.old.disk) }
    ensures told { D.told file.new.disk ≡ D.told file.old.disk }
    ensures later { D.faults file.old.disk ≤ D.faults file.new.disk }
    ensures cause { IsFailedOnly (D.faults file.old.disk) (D.faults file.new.disk) result }
    ensures posts { (c : Catalogue) (s : Outgoing) → IsPosted (D.told file.old.disk) c s file.old.journal (D.state file.old.disk) → IsPostable c cover.now → number ≡ length s.posts + 1
        → HasWritten (D.told file.new.disk) c s cover.now result file.new.journal (D.state file.old.disk) (D.state file.new.disk) }
{
    match settle(file) {
        Err(_) => Written::Unready,
        Ok(()) => match file.record(&body_for(number, cover)) {
            Err(_) => Written::Undecided,
            Ok(()) => Written::Added,
        },
    }
}

impl<D: Disk> Outbox<D> {
    /// Posts a cover of the catalogue that the outbox was opened with: it is the next change. `Full` exactly where there are 65,536 posts.
    ///
    /// What becomes of it, `Posted` says. At every moment each image opens to the posts from before the call, to these and the one that a
    /// call may have left that failed, or to these and this one; after `Done` each opens to these and this one. `AllocError` where memory
    /// runs out; nothing has then changed.
    pub fn post(&mut self, _: Global, cover: &Cover) -> Result<Posted, AllocError>
        requires { IsCoverOf self.old.catalogue cover.now }
        ensures row { IfOk result (λ reply. Posts self.old.out (D.faults self.old.file.disk) cover.now reply self.new.out (D.faults self.new.file.disk)) }
        ensures err { OnErr result (self.new ≡ self.old) }
        ensures catalogue { self.new.catalogue ≡ self.old.catalogue }
        ensures digest { digest_of self.new.file.journal ≡ digest_of self.old.file.journal }
        ensures told { D.told self.new.file.disk ≡ D.told self.old.file.disk }
        ensures later { D.faults self.old.file.disk ≤ D.faults self.new.file.disk }
        ensures images { IsTrue (D.told self.old.file.disk) → Leaves (D.state self.old.file.disk) (D.state self.new.file.disk)
            (λ image. MayOpenTo self.old.catalogue self.old.out image ⊎ OpensToPosts self.old.catalogue image (self.old.out.posts ++ cover.now ∷ [])) }
        ensures done { IsTrue (D.told self.old.file.disk) → (i : ℕ) → result ≡ Ok (posted.Done i)
            → Every (D.state self.new.file.disk).may_leave (λ image. OpensToPosts self.old.catalogue image (self.old.out.posts ++ cover.now ∷ [])) }
        ensures settled { (i : ℕ) → result ≡ Ok (posted.Done i) → IsSettled self.new.file.journal }
    {
        let number = self.posts.len() as u64 + 1;
        if number > SLOTS {
            return Ok(Posted::Full);
        }
        match self.posts.reserve(1) {
            Err(fault) => return Err(fault),
            Ok(()) => {}
        }
        four(cover.filter.dims);
        let before = self.file.fault_count();
        match write(&mut self.file, number, cover) {
            Written::Unready => Ok(Posted::DiskFault(before, self.file.fault_count())),
            Written::Undecided => {
                self.undecided = Some(*cover);
                Ok(Posted::DiskFault(before, self.file.fault_count()))
            }
            Written::Added => {
                self.posts.push_reserved(*cover);
                self.undecided = None;
                Ok(Posted::Done(number))
            }
        }
    }
}
