//! The hands of a crew, gathered.
ghost use Rattle.std.specs.Prelude.{IfNone, IfSome, [], ◌≡◌, ◌∷◌};
ghost use Rattle.job_board.specs.Hands.{watching};
ghost use Rattle.job_board.specs.SheetCalls.{claimed_by, done_by, failed_by, unkept_by};
ghost use Rattle.seed_jobs.specs.Crews.{AreShared, SeesEnd, hands_of};
ghost use Rattle.seed_jobs.specs.Gathered.{AreAlike, AreAll, AreOf, HasHeard, IsAlike};
ghost use Rattle.seed_jobs.specs.Members.{tallies_of, worker_of, workers_of};

use crate::gate::Gate;
use crate::member::Member;
use cabinet::Keeper;
use job_board::{Hand, JobSheet};
use source_render::Source;

/// A hand is told all that the hands of these members have seen. The answer is a watch that has seen as much.
fn hear<K: Keeper, S: Source, G: Gate>(
    sheet: &JobSheet,
    hand: &mut Hand,
    members: &mut [Member<K, S, G>],
) -> Hand
    requires own { hand.old.sheet ≡ sheet.now }
    requires theirs { AreOf sheet.now (hands_of (workers_of S.told S.faults S.gave members.old)) }
    ensures same { members.new ≡ members.old }
    ensures heard { HasHeard hand.old hand.new (hands_of (workers_of S.told S.faults S.gave members.old)) }
    ensures watch { result ≡ watching sheet.now hand.new.seen }
{
    'hearing: for i in 0..members.len() {
        sheet.gather(hand, &mut members[i].hand);
    }
    sheet.watch_from(hand)
}

/// Tells the first hand of a crew all that the others have seen. Where they are all hands of the sheet and each has met None, it is
/// then known that no place was claimed by two of them, and the watch that is answered has seen the end of the job.
fn gather_in<K: Keeper, S: Source, G: Gate>(
    sheet: &JobSheet,
    first: &mut Member<K, S, G>,
    others: &mut [Member<K, S, G>],
) -> Hand
    requires own { AreOf sheet.now (first.old.hand ∷ hands_of (workers_of S.told S.faults S.gave others.old)) }
    ensures alike { IsAlike (worker_of S.told S.faults S.gave first.old) (worker_of S.told S.faults S.gave first.new) }
    ensures tally { first.new.tally ≡ first.old.tally }
    ensures same { others.new ≡ others.old }
    ensures shared { AreAll sheet.now (first.old.hand ∷ hands_of (workers_of S.told S.faults S.gave others.old))
        → AreShared sheet.now (first.new.hand ∷ hands_of (workers_of S.told S.faults S.gave others.old)) (claimed_by (first.new.hand ∷ hands_of (workers_of S.told S.faults S.gave others.old))) }
    ensures ended { AreAll sheet.now (first.old.hand ∷ hands_of (workers_of S.told S.faults S.gave others.old))
        → SeesEnd sheet.now (done_by (first.new.hand ∷ hands_of (workers_of S.told S.faults S.gave others.old))) (failed_by (first.new.hand ∷ hands_of (workers_of S.told S.faults S.gave others.old))) (unkept_by (first.new.hand ∷ hands_of (workers_of S.told S.faults S.gave others.old))) result }
{
    let watch = hear(sheet, &mut first.hand, others);
    first.hand.laws();
    watch
}

/// Gathers the hands of a crew in the first one. The answer is a watch that has seen as much; none where nobody is in the crew.
pub(crate) fn gather<K: Keeper, S: Source, G: Gate>(
    sheet: &JobSheet,
    crew: &mut [Member<K, S, G>],
) -> Option<Hand>
    requires own { AreOf sheet.now (hands_of (workers_of S.told S.faults S.gave crew.old)) }
    ensures alike { AreAlike (workers_of S.told S.faults S.gave crew.old) (workers_of S.told S.faults S.gave crew.new) }
    ensures tallies { tallies_of crew.new ≡ tallies_of crew.old }
    ensures shared { AreAll sheet.now (hands_of (workers_of S.told S.faults S.gave crew.old))
        → AreShared sheet.now (hands_of (workers_of S.told S.faults S.gave crew.new)) (claimed_by (hands_of (workers_of S.told S.faults S.gave crew.new))) }
    ensures ended { AreAll sheet.now (hands_of (workers_of S.told S.faults S.gave crew.old))
        → IfSome result (λ w. SeesEnd sheet.now (done_by (hands_of (workers_of S.told S.faults S.gave crew.new))) (failed_by (hands_of (workers_of S.told S.faults S.gave crew.new))) (unkept_by (hands_of (workers_of S.told S.faults S.gave crew.new))) w) }
    ensures none { IfNone result (crew.old ≡ []) }
{
    let Some((first, others)) = crew.split_first_mut() else {
        return None;
    };
    Some(gather_in(sheet, first, others))
}
