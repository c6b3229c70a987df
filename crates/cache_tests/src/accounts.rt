//! Tests of quota_ledger.
use catalog::{Catalogue, Scope};
use quota_ledger::Ledger;
use std::test::Fail;

#[test]
fn a_quota_is_exceeded_past_it(rt: HostRuntime) -> Result<(), Fail> {
    let mut catalogue = Catalogue::demo(rt.alloc())?;
    catalogue.quota = Some(9);
    let mut ledger = Ledger::new(rt.alloc(), &catalogue)?;
    ledger.add(0, 7);
    ledger.add(0, 3);
    assert!(rt; ledger.exceeded() == Some(Scope::All));
    ledger.remove(0, 7);
    assert!(rt; ledger.exceeded() == None);
    assert!(rt; ledger.used(0) == 3);
    assert!(rt; ledger.used_all() == 3);
    Ok(())
}
