//! The bytes that each layer takes, and which quota is exceeded.
//!
//! Promises: what is told of a layer, and of all of them, is the sum from scratch of what was counted in and not out again,
//! and no sum loses a bit; the scope exceeded is the first layer above its quota in catalogue order, else all of them, and
//! none exactly where nothing is above its quota. `laws` has what holds of the accounts for all parts.
//! Stands on catalog.
#![tactic(auto)]

mod account;
mod laws;
mod ledger;

pub use account::Account;
pub use laws::laws_of_ledgers;
pub use ledger::Ledger;
