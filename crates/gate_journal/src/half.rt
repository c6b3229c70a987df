//! The two halves of a journal, and where each lies on the disk.
ghost use Rattle.std.specs.Prelude.{◌≡◌, ◌≤◌, ◌^◌};
ghost use Rattle.gate_journal.specs.Layout.{half_at, header_at, other_half};

/// How many slots of a half are read or written at a time.
pub(crate) const AT_ONCE: u64 = 1024;

/// One of the two halves of a journal.
#[derive(Clone, Copy, PartialEq, Eq, Drop)]
pub enum Half {
    First,
    Second,
}

impl Half {
    /// Where its header begins, in bytes.
    pub(crate) fn header(self) -> u64
        ensures { result ≡ header_at self }
    {
        match self {
            Half::First => 0,
            Half::Second => 64,
        }
    }

    /// Where its slots begin, in bytes, where a half has so many.
    pub(crate) fn start(self, slots: u64) -> u64
        requires { slots ≤ 2 ^ 40 }
        ensures { result ≡ half_at slots self }
    {
        match self {
            Half::First => 128,
            Half::Second => 128 + 64 * slots,
        }
    }

    pub(crate) fn other(self) -> Half
        ensures { result ≡ other_half self }
    {
        match self {
            Half::First => Half::Second,
            Half::Second => Half::First,
        }
    }
}
