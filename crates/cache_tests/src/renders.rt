//! Tests of metatile_locks.
ghost use Rattle.std.specs.Prelude.{[], ◌<◌, ◌≡◌, IfOk};

use fixtures::META;
use metatile_locks::{Begin, End, Locks, Ticket};
use std::alloc::{AllocError, Global};
use std::test::Fail;

/// A table in which no render runs, with room for one.
fn table(alloc: Global) -> Result<Locks, AllocError>
    ensures { IfOk result (λ locks. (locks.renders ≡ []) × (0 < locks.spare)) }
{
    let mut locks = Locks::new(alloc)?;
    locks.reserve(alloc)?;
    Ok(locks)
}

/// Begins a render in one table, and ends it in another: whether its ticket is a stranger's there.
fn is_strange(locks: &mut Locks, others: &mut Locks) -> bool
    requires none { others.old.renders ≡ [] }
    requires room { 0 < others.old.spare }
{
    match others.begin(&META, 8, 0) {
        Begin::Ticket(other) => locks.end(other) == End::Stranger,
        Begin::Busy(_) => false,
    }
}

/// Whether the render under number 7 is the only one, and this is its ticket.
fn is_only(locks: &Locks, ticket: &Ticket) -> bool {
    ticket.number() == 7
        && ticket.meta() == META
        && locks.least() == Some(7)
        && locks.running_for(&META) == Some(7)
        && locks.count() == 1
}

#[test]
fn a_render_ends_by_its_own_ticket(rt: HostRuntime) -> Result<(), Fail> {
    let mut locks = table(rt.alloc())?;
    let mut others = table(rt.alloc())?;
    match locks.begin(&META, 7, 12) {
        Begin::Ticket(ticket) => {
            assert!(rt; is_strange(&mut locks, &mut others));
            assert!(rt; is_only(&locks, &ticket));
            assert!(rt; locks.end(ticket) == End::Whole(12));
        }
        Begin::Busy(_) => panic!(rt; "busy"),
    }
    Ok(())
}
