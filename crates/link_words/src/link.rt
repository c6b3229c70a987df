//! The words of a link, done.
ghost use Rattle.std.specs.Prelude.{◌≡◌, ◌↔◌, None, Some};
ghost use Rattle.catalog.specs.Valid.{IsValid};
ghost use Rattle.command_status.specs.declared.status.Status.TheVariants as status;
ghost use Rattle.cut_follower.specs.Links.{LinkAt};
ghost use Rattle.link_words.specs.Ends.{CacheLasts, Handed, IsFitFor, IsFitUnder, LinkChange, LinkTells, Stays, WordLasts, WordLinks};
ghost use Rattle.link_words.specs.Words.{link_word};
ghost use Rattle.link_words.specs.declared.ends.LinkingEnd.TheVariants as linking;
ghost use Rattle.opened_cache.specs.Change.{DiskChange};
ghost use Rattle.sessions.specs.Outside.{InputChange, counts};

use crate::ends::{LinkingEnd, ending_of};
use crate::followed::follow;
use crate::lead::lead;
use crate::words::{LinkWord, link_word};
use base::Clock;
use catalog::Catalogue;
use command_setup::{read_configuration, status_of_refusal};
use command_status::Status;
use cut_follower::LinkEnd;
use disk_model::Disk;
use exact_ratio::Words;
use gate_journal::OpenFault;
use http_wire::{ByteSource, Link};
use std::alloc::Global;

/// Does a word under a catalogue.
fn done_under<D: Disk, L: Link>(
    alloc: Global,
    word: LinkWord,
    catalogue: Catalogue,
    link: &mut L,
    clock: Clock,
    disk: &mut D,
    marks: &mut D,
    outbox: &mut D,
) -> Result<LinkEnd, OpenFault>
    requires valid { IsValid catalogue }
    requires fit { IsFitUnder catalogue word
        (record { cache_told = D.told disk.old; cache = (D.state disk.old).seen; marks_told = D.told marks.old; marks = (D.state marks.old).seen; outbox_told = D.told outbox.old; outbox = (D.state outbox.old).seen }) }
    ensures links { WordLinks
        (record {
          from = record { left = L.left link.old; read_faults = L.ByteSource.faults link.old; taken = L.taken link.old; write_faults = L.ByteSink.faults link.old };
          to = record { left = L.left link.new; read_faults = L.ByteSource.faults link.new; taken = L.taken link.new; write_faults = L.ByteSink.faults link.new };
          cache = record { told = D.told disk.old; faults = counts (D.faults disk.old) (D.faults disk.new); from = D.state disk.old; to = D.state disk.new };
          marks = record { told = D.told marks.old; faults = counts (D.faults marks.old) (D.faults marks.new); from = D.state marks.old; to = D.state marks.new };
          outbox = record { told = D.told outbox.old; faults = counts (D.faults outbox.old) (D.faults outbox.new); from = D.state outbox.old; to = D.state outbox.new };
        })
        (record { link = (link.new ≡ link.old); cache = (disk.new ≡ disk.old); marks = (marks.new ≡ marks.old); outbox = (outbox.new ≡ outbox.old) }) clock word catalogue result }
    ensures lasts { WordLasts catalogue (record { told = D.told disk.old; faults = counts (D.faults disk.old) (D.faults disk.new); from = D.state disk.old; to = D.state disk.new }) (disk.new ≡ disk.old) word }
    ensures told { D.told disk.new ≡ D.told disk.old }
    ensures marks_told { D.told marks.new ≡ D.told marks.old }
    ensures outbox_told { D.told outbox.new ≡ D.told outbox.old }
{
    match word {
        LinkWord::Lead(_) => lead(alloc, &catalogue, outbox, link),
        LinkWord::Follow(_) => follow(alloc, catalogue, clock, disk, marks, link),
    }
}

/// Does a word under the catalogue that is read.
fn do_word<D: Disk, I: ByteSource, L: Link>(
    alloc: Global,
    word: LinkWord,
    catalogue: &mut I,
    link: &mut L,
    clock: Clock,
    disk: &mut D,
    marks: &mut D,
    outbox: &mut D,
) -> LinkingEnd
    requires { IsFitFor (Some word) (I.left catalogue.old)
        (record { cache_told = D.told disk.old; cache = (D.state disk.old).seen; marks_told = D.told marks.old; marks = (D.state marks.old).seen; outbox_told = D.told outbox.old; outbox = (D.state outbox.old).seen }) }
    ensures never { result ≡ linking.Status status.Usage → ⊥ }
    ensures tells { LinkTells (record { reads = counts (I.faults catalogue.old) (I.faults catalogue.new); from = I.left catalogue.old; to = I.left catalogue.new })
        (record {
          from = record { left = L.left link.old; read_faults = L.ByteSource.faults link.old; taken = L.taken link.old; write_faults = L.ByteSink.faults link.old };
          to = record { left = L.left link.new; read_faults = L.ByteSource.faults link.new; taken = L.taken link.new; write_faults = L.ByteSink.faults link.new };
          cache = record { told = D.told disk.old; faults = counts (D.faults disk.old) (D.faults disk.new); from = D.state disk.old; to = D.state disk.new };
          marks = record { told = D.told marks.old; faults = counts (D.faults marks.old) (D.faults marks.new); from = D.state marks.old; to = D.state marks.new };
          outbox = record { told = D.told outbox.old; faults = counts (D.faults outbox.old) (D.faults outbox.new); from = D.state outbox.old; to = D.state outbox.new };
        })
        (catalogue.new ≡ catalogue.old)
        (record { link = (link.new ≡ link.old); cache = (disk.new ≡ disk.old); marks = (marks.new ≡ marks.old); outbox = (outbox.new ≡ outbox.old) }) clock (Some word) result }
    ensures lasts { CacheLasts (record { reads = counts (I.faults catalogue.old) (I.faults catalogue.new); from = I.left catalogue.old; to = I.left catalogue.new }) (record { told = D.told disk.old; faults = counts (D.faults disk.old) (D.faults disk.new); from = D.state disk.old; to = D.state disk.new }) (disk.new ≡ disk.old) }
    ensures told { D.told disk.new ≡ D.told disk.old }
    ensures marks_told { D.told marks.new ≡ D.told marks.old }
    ensures outbox_told { D.told outbox.new ≡ D.told outbox.old }
{
    match read_configuration(alloc, catalogue) {
        Ok(read) => ending_of(done_under(alloc, word, read, link, clock, disk, marks, outbox)),
        Err(refusal) => LinkingEnd::Status(status_of_refusal(refusal)),
    }
}

/// Does what the words of a link say, under the catalogue that it reads; a catalogue of no bytes is the built-in one. `lead` opens the
/// outbox and sends its posts over the link, one after the other, until each was heard as seen. `follow` opens the cache of the disk, and
/// then the feed of the marks, and makes each change that comes over the link, to the end of the stream. The port of the words is that of
/// the link, which whoever calls has made.
///
/// The end is `Usage` exactly where the words are neither; each other end comes as `LinkTells` says: `Done` exactly where the link
/// finished. At every moment a crash leaves of the cache what `CacheLasts` says, and of the marks what `HasFollowed` does. Modelled disks
/// have to hold files of this program, by the catalogue that is read, where they are opened.
pub fn run_link<D: Disk, I: ByteSource, L: Link>(
    alloc: Global,
    words: &[Words],
    catalogue: &mut I,
    link: &mut L,
    clock: Clock,
    disk: &mut D,
    marks: &mut D,
    outbox: &mut D,
) -> LinkingEnd
    requires { IsFitFor (link_word words.now) (I.left catalogue.old)
        (record { cache_told = D.told disk.old; cache = (D.state disk.old).seen; marks_told = D.told marks.old; marks = (D.state marks.old).seen; outbox_told = D.told outbox.old; outbox = (D.state outbox.old).seen }) }
    ensures usage { (result ≡ linking.Status status.Usage) ↔ (link_word words.now ≡ None) }
    ensures tells { LinkTells (record { reads = counts (I.faults catalogue.old) (I.faults catalogue.new); from = I.left catalogue.old; to = I.left catalogue.new })
        (record {
          from = record { left = L.left link.old; read_faults = L.ByteSource.faults link.old; taken = L.taken link.old; write_faults = L.ByteSink.faults link.old };
          to = record { left = L.left link.new; read_faults = L.ByteSource.faults link.new; taken = L.taken link.new; write_faults = L.ByteSink.faults link.new };
          cache = record { told = D.told disk.old; faults = counts (D.faults disk.old) (D.faults disk.new); from = D.state disk.old; to = D.state disk.new };
          marks = record { told = D.told marks.old; faults = counts (D.faults marks.old) (D.faults marks.new); from = D.state marks.old; to = D.state marks.new };
          outbox = record { told = D.told outbox.old; faults = counts (D.faults outbox.old) (D.faults outbox.new); from = D.state outbox.old; to = D.state outbox.new };
        })
        (catalogue.new ≡ catalogue.old)
        (record { link = (link.new ≡ link.old); cache = (disk.new ≡ disk.old); marks = (marks.new ≡ marks.old); outbox = (outbox.new ≡ outbox.old) }) clock (link_word words.now) result }
    ensures lasts { CacheLasts (record { reads = counts (I.faults catalogue.old) (I.faults catalogue.new); from = I.left catalogue.old; to = I.left catalogue.new }) (record { told = D.told disk.old; faults = counts (D.faults disk.old) (D.faults disk.new); from = D.state disk.old; to = D.state disk.new }) (disk.new ≡ disk.old) }
    ensures told { D.told disk.new ≡ D.told disk.old }
    ensures marks_told { D.told marks.new ≡ D.told marks.old }
    ensures outbox_told { D.told outbox.new ≡ D.told outbox.old }
{
    match link_word(words) {
        Some(word) => do_word(alloc, word, catalogue, link, clock, disk, marks, outbox),
        None => LinkingEnd::Status(Status::Usage),
    }
}
