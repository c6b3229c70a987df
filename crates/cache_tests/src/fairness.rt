//! turnstile: one that makes turn after turn keeps nobody out
ghost use Rattle.std.specs.Prelude.{◌≡◌};

use crate::counter::{Counter, Step};
use std::alloc::{AllocError, Global};
use std::sync::Wait;
use std::sync::atomic::{AtomicBool, Ordering};
use std::test::Fail;
use std::thread::{Threads, join};
use turnstile::{Entry, Pass, Turnstile};

/// How many turns one pass makes at most while another one waits for its only turn. The test fails where so many were made.
const MOST: u64 = 50;

/// Whether the one that makes one turn has come, and whether it has made it.
#[derive(Drop)]
struct Guest {
    has_come: AtomicBool,
    is_served: AtomicBool,
}

/// Makes one slow turn after another until the guest has made its own. How many of them were made since it came.
fn turns_beside<R: Wait>(
    rt: &R,
    turnstile: &Turnstile<Counter>,
    mut pass: Pass<Counter>,
    guest: &Guest,
) -> u64
    requires { pass.table ≡ turnstile.now.table }
{
    let mut beside = 0u64;
    for _ in 0..u64::MAX {
        if guest.is_served.load(Ordering::SeqCst) || beside >= MOST {
            return beside;
        }
        let has_come = guest.has_come.load(Ordering::SeqCst);
        let _ = turnstile.turn_plain(rt, &mut pass, Step::Linger);
        beside = beside.saturating_add(u64::from(has_come));
    }
    beside
}

/// Makes one turn.
fn visits<R: Wait>(rt: &R, turnstile: &Turnstile<Counter>, mut pass: Pass<Counter>, guest: &Guest)
    requires { pass.table ≡ turnstile.now.table }
{
    guest.has_come.store(true, Ordering::SeqCst);
    let _ = turnstile.turn_plain(rt, &mut pass, Step::Raise(1));
    guest.is_served.store(true, Ordering::SeqCst);
}

/// How many turns one thread makes while another one waits for its only turn.
fn turns_until_served<R: Threads + Wait + Sync>(
    rt: &R,
    alloc: Global,
) -> Result<Option<u64>, AllocError> {
    let Entry { turnstile, passes } = Turnstile::make(alloc, Counter { number: 0 }, 2)?;
    let mut passes = passes.into_vec();
    let Some(host) = passes.pop() else {
        return Ok(None);
    };
    let Some(visitor) = passes.pop() else {
        return Ok(None);
    };
    let guest = Guest {
        has_come: AtomicBool::new(false),
        is_served: AtomicBool::new(false),
    };
    let shared = &turnstile;
    let seen = &guest;
    let ((), beside) = join(
        rt,
        || -> ()
            requires { visitor.table ≡ shared.now.table }
        { visits(rt, shared, visitor, seen) },
        || -> u64
            requires { host.table ≡ shared.now.table }
        { turns_beside(rt, shared, host, seen) },
    );
    Ok(Some(beside))
}

#[test]
fn one_that_makes_turn_after_turn_keeps_nobody_out(rt: HostRuntime) -> Result<(), Fail> {
    for _ in 0..10 {
        let Some(beside) = turns_until_served(&rt, rt.alloc())? else {
            panic!(rt; "passes are missing")
        };
        assert!(rt; beside < MOST);
    }
    Ok(())
}
