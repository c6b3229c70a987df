//! The account of a layer, or of all of them together.
ghost use Rattle.std.specs.Prelude.{◌≡◌};
ghost use Rattle.quota_ledger.specs.Accounts.{is_above};

/// What a layer, or all of them together, may take and takes.
#[derive(Clone, Copy, PartialEq, Eq)]
pub struct Account {
    /// The most bytes that may be taken, where there is a limit.
    pub quota: Option<u64>,
    /// The bytes that are taken.
    pub used: u64,
}

impl Account {
    /// Whether more is taken than may be.
    pub fn is_above(&self) -> bool
        ensures { result ≡ is_above self.now }
    {
        match self.quota {
            None => false,
            Some(quota) => quota < self.used,
        }
    }
}
