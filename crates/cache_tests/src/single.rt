//! job_board: the calls of one thread
ghost use Rattle.std.specs.Prelude.{◌≡◌};

use crate::pair::{Pair, new_pair};
use job_board::Progress;
use std::test::Fail;

#[test]
fn a_job_is_cancelled(rt: HostRuntime) -> Result<(), Fail> {
    let Some(pair) = new_pair(rt.alloc(), 5)? else {
        panic!(rt; "no pair")
    };
    let Pair {
        sheet,
        mut first,
        mut watch,
        ..
    } = pair;
    let Some(place) = sheet.claim(&mut first) else {
        panic!(rt; "nothing to claim")
    };
    assert!(rt; place == 0 && sheet.places() == 5);
    sheet.done(&mut first, place);
    sheet.cancel(&mut watch);
    let progress = sheet.progress(&mut watch);
    let expected = Progress {
        places: 5,
        claimed: 1,
        done: 1,
        failed: 0,
        unkept: 0,
        cancelled: true,
    };
    assert!(rt; progress == expected);
    assert!(rt; sheet.claim(&mut first).is_none());
    Ok(())
}

#[test]
fn a_place_fails(rt: HostRuntime) -> Result<(), Fail> {
    let Some(pair) = new_pair(rt.alloc(), 1)? else {
        panic!(rt; "no pair")
    };
    let Pair {
        sheet,
        mut first,
        mut second,
        mut watch,
    } = pair;
    let Some(place) = sheet.claim(&mut second) else {
        panic!(rt; "nothing to claim")
    };
    sheet.failed(&mut second, place);
    assert!(rt; sheet.claim(&mut first).is_none());
    let expected = Progress {
        places: 1,
        claimed: 1,
        done: 0,
        failed: 1,
        unkept: 0,
        cancelled: false,
    };
    assert!(rt; sheet.progress(&mut watch) == expected);
    Ok(())
}

#[test]
fn a_place_is_not_kept(rt: HostRuntime) -> Result<(), Fail> {
    let Some(pair) = new_pair(rt.alloc(), 2)? else {
        panic!(rt; "no pair")
    };
    let Pair {
        sheet,
        mut first,
        mut watch,
        ..
    } = pair;
    let Some(place) = sheet.claim(&mut first) else {
        panic!(rt; "nothing to claim")
    };
    sheet.unkept(&mut first, place);
    let expected = Progress {
        places: 2,
        claimed: 1,
        done: 1,
        failed: 0,
        unkept: 1,
        cancelled: false,
    };
    assert!(rt; sheet.progress(&mut watch) == expected);
    Ok(())
}
