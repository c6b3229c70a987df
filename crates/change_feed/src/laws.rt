//! What holds of each run of a feed on a cabinet.
ghost use Rattle.std.specs.Prelude.{◌≡◌, ◌⊎◌, ◌<◌, ◌≤◌, ◌∷◌, ◌++◌, ℕ, IsSome, List, Option, Some};
ghost use Rattle.cabinet.specs.State.{now};
ghost use Rattle.change_feed.specs.Applies.{marked_cut};
ghost use Rattle.change_feed.specs.Files.{EndsIn, IsMarksFile, MayEndIn, Stand};
ghost use Rattle.change_feed.specs.Marks.{last_of};
ghost use Rattle.change_feed.specs.Runs.{FeedAndCabinet, FeedEvent, IsCutIn, IsEither, IsMadeIn, MayBegin, Runs, called};
ghost use Rattle.change_feed.specs.declared.applied.Applied.TheVariants as applied;
ghost use Rattle.change_feed.specs.declared.applied.Applied.{Applied};
ghost use Rattle.change_feed.specs.declared.change.Change.{Change};
ghost use Rattle.change_feed.specs.declared.mark.Mark.{Mark};
ghost use Rattle.disk_model.specs.Content.{Content};
ghost use Rattle.truncation_list.specs.Books.{AnswersFor};
ghost use Rattle.truncation_list.specs.declared.cover.Cover.{Cover};

/// In what follows a run leads from `s` to `t`; a change is cut for where its call answers `Done` or a fault of the marks with the number
/// of a cut.
///
/// Behind a change that is answered `Done` each change that is cut for has a greater number: so none is answered `Done` twice, and none is
/// cut for again. Its number is then at most that of the last change, in every image of the marks. Between it and the number of the next
/// change that is cut for there is no number that wasn't cut for between the two, so `Done` answers rise by one but for a change whose
/// mark was found at an opening after its call had answered a fault. What was cut for is answered for by the cabinet at the end of the
/// run. Each mark that the feed then has, and that it hadn't at first, was made by a change of the run, whose cut is answered for so. Where
/// a change is cut for twice, or one behind it of no greater number, its first call told a fault of the marks with the number of its cut.
pub fn laws_of_feeds()
    ensures once { (s t : FeedAndCabinet) (before between after : List FeedEvent) (c d : Change) (k : ℕ) (reply : Applied) → MayBegin s → Runs s (before ++ (called c (applied.Done k) ∷ (between ++ (called d reply ∷ after)))) t → IsSome (marked_cut reply) → c.number < d.number }
    ensures kept { (s t : FeedAndCabinet) (before after : List FeedEvent) (c : Change) (k : ℕ) (found : Option Mark) → MayBegin s → Runs s (before ++ (called c (applied.Done k) ∷ after)) t → IsEither t.stand found → c.number ≤ last_of found }
    ensures rises { (s t : FeedAndCabinet) (before between after : List FeedEvent) (c d : Change) (k i : ℕ) (reply : Applied) → MayBegin s → Runs s (before ++ (called c (applied.Done k) ∷ (between ++ (called d reply ∷ after)))) t → IsSome (marked_cut reply) → c.number < i → i < d.number → IsCutIn i between }
    ensures stands { (s t : FeedAndCabinet) (before after : List FeedEvent) (c : Change) (k : ℕ) (reply : Applied) → MayBegin s → Runs s (before ++ (called c reply ∷ after)) t → marked_cut reply ≡ Some k → AnswersFor (now t.cabinet).book (record { number = k; cover = c.cover }) }
    ensures made { (s t : FeedAndCabinet) (events : List FeedEvent) (m : Mark) → MayBegin s → Runs s events t → IsEither t.stand (Some m) → IsEither s.stand (Some m) ⊎ ((cover : Cover) × IsMadeIn m cover events × AnswersFor (now t.cabinet).book (record { number = m.cut; cover = cover })) }
    ensures again { (s t : FeedAndCabinet) (before between after : List FeedEvent) (c d : Change) (first reply : Applied) → MayBegin s → Runs s (before ++ (called c first ∷ (between ++ (called d reply ∷ after)))) t → IsSome (marked_cut first) → IsSome (marked_cut reply) → d.number ≤ c.number → (k : ℕ) × (first ≡ applied.FeedFault (Some k)) }
{}

/// What an image of the marks ends in, it ends in alone; so a feed that is opened from an image of another one has its last mark, or
/// the one that was undecided. An image that ends in a mark, or in none, may be opened.
pub fn laws_of_marks()
    ensures one { (digest : List ℕ) (m n : Option Mark) (image : Content) → EndsIn digest m image → EndsIn digest n image → m ≡ n }
    ensures either { (digest : List ℕ) (s : Stand) (found : Option Mark) (image : Content) → MayEndIn digest s image → EndsIn digest found image → IsEither s found }
    ensures ours { (digest : List ℕ) (s : Stand) (image : Content) → MayEndIn digest s image → IsMarksFile digest image }
{}
