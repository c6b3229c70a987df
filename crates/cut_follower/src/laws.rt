//! What a follower promises, whatever a lossy link does.
ghost use Rattle.std.specs.List.{AllByRecursion};
ghost use Rattle.std.specs.Prelude.{◌≡◌, ◌<◌, ◌≤◌, ◌+◌, ◌∷◌, ◌++◌, ℕ, IfSome, IsSome, IsTrue, List, Some, slice_get};
ghost use Rattle.cabinet.specs.Hits.{covers_in};
ghost use Rattle.cabinet.specs.State.{IsKnown, State};
ghost use Rattle.cabinet.specs.declared.replies.Asked.{Asked};
ghost use Rattle.change_feed.specs.Applies.{marked_cut};
ghost use Rattle.change_feed.specs.declared.applied.Applied.TheVariants as applied;
ghost use Rattle.change_feed.specs.declared.applied.Applied.{Applied};
ghost use Rattle.change_feed.specs.declared.change.Change.{Change};
ghost use Rattle.cut_follower.specs.InStep.{IsAcknowledged, IsFront, IsInStep, book_in, covers_of, tile_number};
ghost use Rattle.cut_follower.specs.Lossy.{Happens, LinkEvent, Lossy, Passes, arrived, asked, begun};
ghost use Rattle.cut_follower.specs.Takes.{IsOfCatalogue};
ghost use Rattle.matrix_geometry.specs.declared.address.Address.{Address};
ghost use Rattle.outbox.specs.Posts.{Outgoing};
ghost use Rattle.outbox.specs.declared.packet.Packet.{Packet};
ghost use Rattle.served_covers.specs.OfCatalogue.{IsCoverOf};
ghost use Rattle.truncation_list.specs.Books.{AnswersFor};
ghost use Rattle.truncation_list.specs.declared.book.Cut.{Cut};

/// In what follows `l` is a lossy link that is in step, as each one is that begins with a cabinet and with posts of its catalogue, and
/// events lead from it to `m`; a change is cut for where its call answers `Done` or a fault of the marks with the number of a cut.
///
/// After any events the follower is in step with the leader. The cut of each change that is acknowledged was applied, has the cover of
/// the post of that number, and is answered for by the follower's book, then and after any further events, openings among them; it
/// stays the cut of that change. Each tile that the follower answers has a number above each cut that was applied before and covers
/// it. What was applied is a prefix of the posts, in their order, and stays, as the posts do. Nothing is applied that wasn't posted: a
/// change that arrives is the post of its number. The cut that a change was answered with as `Done` is the one that was applied for it.
/// Each change that was sent has a cover of the catalogue of the follower's cabinet, so that it can be taken.
///
/// Behind a change that is answered `Done` each change that is cut for has a greater number; where a change is cut for twice, or one
/// behind it of no greater number, its first call told a fault of the marks with the number of its cut.
pub fn laws_of_lossy_links()
    ensures begins { (out : Outgoing) (cabinet : State) → IsKnown cabinet → AllByRecursion (IsCoverOf cabinet.catalogue) out.posts → IfSome out.undecided (IsCoverOf cabinet.catalogue) → out.heard ≡ 0 → IsInStep (begun out cabinet) }
    ensures all { (l m : Lossy) (events : List LinkEvent) → IsInStep l → Passes l events m → IsInStep m }
    ensures acknowledged { (l mid m : Lossy) (events more : List LinkEvent) (i : ℕ) → IsInStep l → Passes l events mid → IsAcknowledged (i + 1) mid → Passes mid more m
        → (cut : Cut) × (slice_get mid.applied i ≡ Some cut) × (slice_get mid.out.posts i ≡ Some cut.cover) × (slice_get m.applied i ≡ Some cut) × AnswersFor (book_in m) cut }
    ensures tiles { (l mid before m : Lossy) (events more : List LinkEvent) (i k : ℕ) (cut : Cut) (address : Address) (reply : Asked) → IsInStep l → Passes l events mid → slice_get mid.applied i ≡ Some cut → Passes mid more before
        → Happens before (asked address reply) m → tile_number reply ≡ Some k → IsTrue (covers_in before.stores.cabinet.catalogue cut.cover address) → cut.number < k }
    ensures prefix { (l m : Lossy) (events : List LinkEvent) → IsInStep l → Passes l events m → IsFront (covers_of m.applied) m.out.posts × IsFront l.applied m.applied × IsFront l.out.posts m.out.posts }
    ensures posted { (l before m : Lossy) (events : List LinkEvent) (place : ℕ) (change : Change) (reply : Applied) → IsInStep l → Passes l events before → Happens before (arrived place change reply) m
        → (i : ℕ) × (change.number ≡ i + 1) × (slice_get before.out.posts i ≡ Some change.cover) }
    ensures done { (l before m : Lossy) (events : List LinkEvent) (place k : ℕ) (change : Change) → IsInStep l → Passes l events before → Happens before (arrived place change (applied.Done k)) m
        → (i : ℕ) × (change.number ≡ i + 1) × (slice_get m.applied i ≡ Some (record { number = k; cover = change.cover })) }
    ensures served { (l : Lossy) (place : ℕ) (p : Packet) → IsInStep l → slice_get l.sent place ≡ Some p → IsOfCatalogue l.stores.cabinet.catalogue p }
    ensures once { (l m : Lossy) (before between after : List LinkEvent) (p q k : ℕ) (c d : Change) (reply : Applied) → IsInStep l → Passes l (before ++ (arrived p c (applied.Done k) ∷ (between ++ (arrived q d reply ∷ after)))) m → IsSome (marked_cut reply) → c.number < d.number }
    ensures again { (l m : Lossy) (before between after : List LinkEvent) (p q : ℕ) (c d : Change) (first reply : Applied) → IsInStep l → Passes l (before ++ (arrived p c first ∷ (between ++ (arrived q d reply ∷ after)))) m
        → IsSome (marked_cut first) → IsSome (marked_cut reply) → d.number ≤ c.number → (k : ℕ) × (first ≡ applied.FeedFault (Some k)) }
{}
