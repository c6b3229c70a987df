//! Whether a server is well.

/// What a server answers where it is asked whether it is well.
#[derive(Clone, Copy, PartialEq, Eq)]
pub enum Health {
    /// The cache and the disk answer.
    Well,
    /// The cache doesn't answer.
    CacheFails,
    /// The cache answers, and the disk doesn't.
    DiskFails,
}

impl Health {
    /// What is to be said where the cache and the disk answer, or don't.
    pub fn of(cache_answers: bool, disk_answers: bool) -> Health {
        if !cache_answers {
            return Health::CacheFails;
        }
        if !disk_answers {
            return Health::DiskFails;
        }
        Health::Well
    }

    /// The status of HTTP (RFC 9110, sections 15.3.1 and 15.6.4): 200, or 503 where something doesn't answer.
    pub fn status(self) -> u16 {
        match self {
            Health::Well => 200,
            Health::CacheFails | Health::DiskFails => 503,
        }
    }

    /// The answer's text, a line of ASCII.
    pub fn text(self) -> &'static [u8] {
        match self {
            Health::Well => b"ok\n",
            Health::CacheFails => b"the cache does not answer\n",
            Health::DiskFails => b"the disk does not answer\n",
        }
    }
}
