//! What an outbox sends next, and what it hears.
ghost use Rattle.std.specs.Prelude.{◌≡◌, IfSome, length};
ghost use Rattle.outbox.specs.Packets.{IsRanged};
ghost use Rattle.outbox.specs.Posts.{Hears, IsChangeOf, next_behind, next_of};

use crate::outbox::Outbox;
use crate::packet::Packet;
use disk_model::Disk;
use truncation_list::Cover;

/// The change behind the one of this number.
fn behind(posts: &[Cover], number: u64) -> Option<Packet>
    ensures { result ≡ next_behind posts.now number }
{
    match posts.get(number as usize) {
        Some(cover) => Some(Packet::Change(number + 1, *cover)),
        None => None,
    }
}

impl<D: Disk> Outbox<D> {
    /// How many covers were posted.
    pub fn count(&self) -> u64
        ensures { result ≡ length self.now.out.posts }
    {
        self.posts.len() as u64
    }

    /// How often its disk has failed.
    pub fn fault_count(&self) -> u64
        ensures { result ≡ D.faults self.now.file.disk }
    {
        self.file.fault_count()
    }

    /// The change behind the one of this number; `None` exactly where there is none. It can be written and read, and is of the catalogue.
    pub fn next_after(&self, number: u64) -> Option<Packet>
        ensures behind { result ≡ next_behind self.now.out.posts number }
        ensures ranged { IfSome result (λ p. IsRanged p × IsChangeOf self.now.catalogue p) }
    {
        behind(&self.posts, number)
    }

    /// The first post that wasn't heard as seen; `None` exactly where there is none. It can be written and read, and is of the catalogue.
    pub fn next(&self) -> Option<Packet>
        ensures first { result ≡ next_of self.now.out }
        ensures ranged { IfSome result (λ p. IsRanged p × IsChangeOf self.now.catalogue p) }
    {
        self.next_after(self.heard)
    }

    /// Hears a packet: whether it says that more is seen than was heard, and no more than was posted. Where it does, so much was heard;
    /// else nothing changes.
    pub fn heard(&mut self, packet: &Packet) -> bool
        ensures hears { Hears self.old.out packet.now result self.new.out }
        ensures catalogue { self.new.catalogue ≡ self.old.catalogue }
        ensures file { self.new.file ≡ self.old.file }
    {
        match packet {
            Packet::Change(_, _) => false,
            Packet::Seen(number) => {
                if *number <= self.heard {
                    return false;
                }
                if *number > self.count() {
                    return false;
                }
                self.heard = *number;
                true
            }
        }
    }
}
