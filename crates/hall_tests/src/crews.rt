//! A seed that is run by crews.
ghost use Rattle.std.specs.Prelude.{IfOk, length, ◌≡◌};

use crate::meeting::{Meeting, MeetingGate};
use crate::stage::{new_stage, run};
use job_board::{JobState, JobStatus, Progress};
use job_forms::JobKind;
use seed_jobs::OpenGate;
use std::alloc::{AllocError, Global};
use std::test::Fail;

/// A seed that stands so, of whose seven places so many were claimed and done.
fn done(state: JobState, places: u64) -> JobStatus {
    JobStatus {
        kind: JobKind::Seed,
        state,
        progress: Progress {
            places: 7,
            claimed: places,
            done: places,
            failed: 0,
            unkept: 0,
            cancelled: false,
        },
    }
}

fn open_gates(alloc: Global) -> Result<Vec<OpenGate>, AllocError>
    ensures { IfOk result (λ gates. length gates.items ≡ 8) }
{
    Ok(vec![in alloc;
        OpenGate, OpenGate, OpenGate, OpenGate, OpenGate, OpenGate, OpenGate, OpenGate,
    ]?)
}

fn meeting_gates(alloc: Global, meeting: &Meeting) -> Result<Vec<MeetingGate<'_>>, AllocError>
    ensures { IfOk result (λ gates. length gates.items ≡ 8) }
{
    Ok(vec![in alloc;
        MeetingGate::new(meeting),
        MeetingGate::new(meeting),
        MeetingGate::new(meeting),
        MeetingGate::new(meeting),
        MeetingGate::new(meeting),
        MeetingGate::new(meeting),
        MeetingGate::new(meeting),
        MeetingGate::new(meeting),
    ]?)
}

#[test]
fn a_seed_is_done_by_three_members(rt: HostRuntime) -> Result<(), Fail> {
    let alloc = rt.alloc();
    let Some(stage) = new_stage(alloc, open_gates(alloc)?)? else {
        return Err(Fail::from("no stage"));
    };
    assert!(rt;
        run(&rt, alloc, stage, 3) == Some((done(JobState::Waiting, 0), done(JobState::Done, 7)))
    );
    Ok(())
}

#[test]
fn two_members_work_at_the_same_time(rt: HostRuntime) -> Result<(), Fail> {
    let alloc = rt.alloc();
    let meeting = Meeting::new();
    let Some(stage) = new_stage(alloc, meeting_gates(alloc, &meeting)?)? else {
        return Err(Fail::from("no stage"));
    };
    assert!(rt;
        run(&rt, alloc, stage, 2) == Some((done(JobState::Waiting, 0), done(JobState::Done, 7)))
    );
    assert!(rt; meeting.is_held());
    Ok(())
}
