//! What holds of all packets, and of the images of all outboxes.
ghost use Rattle.std.specs.Prelude.{◌≡◌, ◌<◌, ◌≤◌, ◌^◌, ℕ, List, length};
ghost use Rattle.catalog.specs.Valid.{IsValid};
ghost use Rattle.catalog.specs.declared.catalogue.Catalogue.{Catalogue};
ghost use Rattle.disk_model.specs.Content.{Content};
ghost use Rattle.outbox.specs.Files.{IsOutboxFile, MayOpenTo, OpensToPosts};
ghost use Rattle.outbox.specs.Packets.{FitsPacket, IsRanged, packet_text};
ghost use Rattle.outbox.specs.Posts.{MayBeFound, Outgoing};
ghost use Rattle.outbox.specs.declared.packet.Packet.TheVariants as packet;
ghost use Rattle.outbox.specs.declared.packet.Packet.{Packet};
ghost use Rattle.served_covers.specs.OfCatalogue.{IsCoverOf};
ghost use Rattle.truncation_list.specs.declared.cover.Cover.{Cover};

/// Of packets whose numbers fit their fields no two share a spelling, and each spelling has 64 bytes. A packet that can be read fits. The
/// change of a cover of a valid catalogue, whose number is above 0 and fits, can be read.
pub fn laws_of_packets()
    ensures distinct { (a b : Packet) → FitsPacket a → FitsPacket b → packet_text a ≡ packet_text b → a ≡ b }
    ensures size { (p : Packet) → FitsPacket p → length (packet_text p) ≡ 64 }
    ensures fits { (p : Packet) → IsRanged p → FitsPacket p }
    ensures ranged { (c : Catalogue) (n : ℕ) (cover : Cover) → IsValid c → IsCoverOf c cover → length cover.filter.dims ≡ 4 → 1 ≤ n → n < 2 ^ 64
        → IsRanged (packet.Change n cover) }
{}

/// What an image of an outbox opens to, it opens to alone; so an outbox that is opened from an image of another one has its posts, or these
/// and the one that was undecided. An image that opens to posts may be opened.
pub fn laws_of_outboxes()
    ensures one { (c : Catalogue) (posts others : List Cover) (image : Content) → OpensToPosts c image posts → OpensToPosts c image others → posts ≡ others }
    ensures found { (c : Catalogue) (s : Outgoing) (found : List Cover) (image : Content) → MayOpenTo c s image → OpensToPosts c image found → MayBeFound s found }
    ensures ours { (c : Catalogue) (s : Outgoing) (image : Content) → MayOpenTo c s image → IsOutboxFile c image }
{}
