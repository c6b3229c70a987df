//! job_board: two threads share the places of a job, and their hands are gathered
ghost use Rattle.std.specs.Prelude.{◌≡◌, ◌+◌, ◌≤◌, ℕ, Some, IfOk, IfSome};
ghost use Rattle.cache_tests.specs.Worked.{HasWorked};
ghost use Rattle.job_board.specs.Hands.{fresh_holding};

use crate::pair::{Pair, new_pair};
use job_board::{Hand, JobSheet};
use std::alloc::{AllocError, Global};
use std::test::Fail;
use std::thread::{Threads, join};

/// How many places each of two threads claimed, and the sum of all of them.
#[derive(Drop)]
struct Shares {
    first: u64,
    second: u64,
}

/// Claims places until None, and reports each done. How many they were.
fn work(sheet: &JobSheet, hand: Hand) -> (Hand, u64)
    requires fresh { (number : ℕ) × (hand ≡ fresh_holding sheet.now (Some number)) }
    ensures { HasWorked sheet.now hand.number result.1 result.0 }
{
    let mut hand = hand;
    let mut count = 0;
    let _places = sheet.places();
    'claiming: while let Some(place) = sheet.claim(&mut hand) {
        sheet.done(&mut hand, place);
        hand.laws();
        count += 1;
    }
    (hand, count)
}

/// Two threads claim all places of a job: together they have as many as there are.
fn share<R: Threads + Sync>(
    rt: &R,
    alloc: Global,
    places: u64,
) -> Result<Option<Shares>, AllocError>
    requires { places ≤ 10000000 }
    ensures { IfOk result (λ o. IfSome o (λ s. s.first + s.second ≡ places)) }
{
    let Some(pair) = new_pair(alloc, places)? else {
        return Ok(None);
    };
    let Pair {
        sheet,
        first,
        second,
        ..
    } = pair;
    let shared = &sheet;
    let ((mut first, claimed), (mut second, others)) = join(
        rt,
        || -> (Hand, u64)
            requires { first ≡ fresh_holding shared.now (Some 0) }
            ensures { HasWorked shared.entry.now (Some 0) result.1 result.0 }
        { work(shared, first) },
        || -> (Hand, u64)
            requires { second ≡ fresh_holding shared.now (Some 1) }
            ensures { HasWorked shared.entry.now (Some 1) result.1 result.0 }
        { work(shared, second) },
    );
    sheet.gather(&mut first, &mut second);
    if sheet.progress(&mut first).cancelled {
        return Ok(None);
    }
    sheet.all_claimed(&first);
    Ok(Some(Shares {
        first: claimed,
        second: others,
    }))
}

#[test]
fn two_threads_share_a_job(rt: HostRuntime) -> Result<(), Fail> {
    let Some(shares) = share(&rt, rt.alloc(), 1000)? else {
        panic!(rt; "no shares")
    };
    assert!(rt; shares.first + shares.second == 1000);
    Ok(())
}
