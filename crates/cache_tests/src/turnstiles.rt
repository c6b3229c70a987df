//! turnstile: one thread, and two threads, at one turnstile
ghost use Rattle.std.specs.Prelude.{◌≡◌, ◌≤◌, IfOk, IfSome};
ghost use Rattle.truncation_list.specs.Books.{last_seen};

use crate::counter::{Counter, Step};
use std::alloc::{AllocError, Global};
use std::sync::Wait;
use std::test::Fail;
use std::thread::{Threads, join};
use turnstile::{Entry, Pass, Turnstile};

/// What two threads were answered, what each pass had seen once they met, and the number at the end.
#[derive(Drop)]
struct Answers {
    first: u64,
    second: u64,
    seen_by_first: u64,
    seen_by_second: u64,
    last: u64,
}

/// Raises the number in one turn. The pass has then seen the number that was answered.
fn raise<R: Wait>(
    rt: &R,
    turnstile: &Turnstile<Counter>,
    mut pass: Pass<Counter>,
    by: u64,
) -> (Pass<Counter>, u64)
    requires { pass.table ≡ turnstile.now.table }
    ensures { (result.0.table ≡ turnstile.now.table) × (last_seen result.0.book.book ≡ result.1) }
{
    let number = turnstile.turn_plain(rt, &mut pass, Step::Raise(by));
    (pass, number)
}

/// Two threads raise one number. Once their passes have met, each has seen what the other was answered.
fn raise_both<R: Threads + Wait + Sync>(
    rt: &R,
    alloc: Global,
    first: u64,
    second: u64,
) -> Result<Option<Answers>, AllocError>
    ensures { IfOk result (λ o. IfSome o (λ r. (r.first ≤ r.seen_by_second) × (r.second ≤ r.seen_by_first) × (r.seen_by_first ≤ r.last))) }
{
    let Entry { turnstile, passes } = Turnstile::make(alloc, Counter { number: 0 }, 2)?;
    let mut passes = passes.into_vec();
    let Some(a) = passes.pop() else {
        return Ok(None);
    };
    let Some(b) = passes.pop() else {
        return Ok(None);
    };
    let shared = &turnstile;
    let ((mut a, first), (mut b, second)) = join(
        rt,
        || -> (Pass<Counter>, u64)
            requires { a.table ≡ shared.now.table }
            ensures { (result.0.table ≡ shared.entry.now.table) × (last_seen result.0.book.book ≡ result.1) }
        { raise(rt, shared, a, first) },
        || -> (Pass<Counter>, u64)
            requires { b.table ≡ shared.now.table }
            ensures { (result.0.table ≡ shared.entry.now.table) × (last_seen result.0.book.book ≡ result.1) }
        { raise(rt, shared, b, second) },
    );
    turnstile.meet(&mut a, &mut b);
    let seen_by_first = turnstile.seen(&a);
    let seen_by_second = turnstile.seen(&b);
    passes.push(b)?;
    passes.push(a)?;
    let Ok(counter) = turnstile.close(passes) else {
        return Ok(None);
    };
    Ok(Some(Answers {
        first,
        second,
        seen_by_first,
        seen_by_second,
        last: counter.number,
    }))
}

#[test]
fn each_sees_the_other(rt: HostRuntime) -> Result<(), Fail> {
    let Some(answers) = raise_both(&rt, rt.alloc(), 5, 7)? else {
        panic!(rt; "passes are missing")
    };
    assert!(rt; answers.first == 12 || answers.second == 12);
    assert!(rt; answers.first == 5 || answers.second == 7);
    assert!(rt; answers.seen_by_first == 12 && answers.seen_by_second == 12);
    assert!(rt; answers.last == 12);
    Ok(())
}

/// Whether a number that is 1 goes by turns of one pass to 5 and to 7, and a turn without memory leaves it.
fn takes_turns<R: Wait>(
    rt: &R,
    alloc: Global,
    turnstile: &Turnstile<Counter>,
    pass: &mut Pass<Counter>,
) -> bool
    requires { pass.old.table ≡ turnstile.now.table }
{
    let is_raised = turnstile.turn(rt, alloc, pass, Step::Raise(4)).is_ok();
    let raised = turnstile.seen(pass);
    let is_starved = turnstile.turn(rt, alloc, pass, Step::Starve).is_err();
    let starved = turnstile.seen(pass);
    let last = turnstile.turn_plain(rt, pass, Step::Raise(2));
    is_raised && raised == 5 && is_starved && starved == 5 && last == 7
}

#[test]
fn turns_of_one_thread(rt: HostRuntime) -> Result<(), Fail> {
    let Entry { turnstile, passes } = Turnstile::make(rt.alloc(), Counter { number: 1 }, 2)?;
    let mut passes = passes.into_vec();
    let Some(mut pass) = passes.pop() else {
        panic!(rt; "no pass")
    };
    assert!(rt; takes_turns(&rt, rt.alloc(), &turnstile, &mut pass));
    let Err(entry) = turnstile.close(passes) else {
        panic!(rt; "closed with one of two passes")
    };
    assert!(rt; entry.passes.len() == 1);
    Ok(())
}
