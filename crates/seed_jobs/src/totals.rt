//! The tallies of a crew, added up.
ghost use Rattle.std.specs.Prelude.{All, length, ◌+◌, ◌<◌, ◌≡◌, ◌≤◌};
ghost use Rattle.seed_jobs.specs.Crews.{total_of};
ghost use Rattle.seed_jobs.specs.Members.{tallies_of};
ghost use Rattle.seed_jobs.specs.Totals.{HasFew};

use crate::gate::Gate;
use crate::member::Member;
use cabinet::Keeper;
use job_places::Tally;
use source_render::Source;

/// The counts of all members together.
pub(crate) fn total<K: Keeper, S: Source, G: Gate>(crew: &[Member<K, S, G>]) -> Tally
    requires size { length crew.now ≤ 63 }
    requires few { All HasFew (tallies_of crew.now) }
    ensures { result ≡ total_of (tallies_of crew.now) }
{
    let mut places = 0;
    let mut done = 0;
    let mut failed = 0;
    let mut unkept = 0;
    'adding: for member in crew {
        places += member.tally.places;
        done += member.tally.done;
        failed += member.tally.failed;
        unkept += member.tally.unkept;
    }
    Tally {
        places,
        done,
        failed,
        unkept,
    }
}
