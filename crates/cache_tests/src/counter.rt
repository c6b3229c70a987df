//! A chest of a turnstile that counts.
use std::alloc::{AllocError, Global};
use std::hint;
use turnstile::Chest;

/// How long a slow turn takes, in looks of a waiting thread.
const LINGERS: u32 = 100_000;

/// What a turn does to a counter.
#[derive(Drop)]
pub enum Step {
    /// Adds to the number.
    Raise(u64),
    /// Adds one to the number, after a while.
    Linger,
    /// Asks for memory that is never there.
    Starve,
}

/// A number that only grows. A command answers it as it is afterwards.
#[derive(Drop)]
pub struct Counter {
    pub number: u64,
}

/// Lets a while pass, as a turn does that waits for a disk.
fn linger() {
    for _ in 0..LINGERS {
        hint::spin_loop();
    }
}

impl Chest for Counter {
    ghost use Rattle.std.specs.Prelude.{◌≡◌, ℕ};
    ghost use Rattle.cache_tests.specs.declared.counter.Step.TheVariants.{Raise, Starve};
    ghost use Rattle.cache_tests.specs.Counting.{counted};

    type Command = Step;

    type Reply = u64;

    type Charter = u64;

    type Shown = u64;

    type Note = u64;

    ghost charter = { λ c. 0 };

    ghost admits = { λ h command. Unit {0} };

    ghost keeps_sound = { λ h command. Unit {0} };

    ghost takes_no_memory = { λ command. ¬ (command ≡ Starve) };

    ghost sound = { λ c. Unit {0} };

    ghost book = { λ c. counted c.number };

    ghost shown = { λ c. c.number };

    ghost as_before = { λ a b. a ≡ b };

    ghost note = { λ command reply before after. reply };

    ghost may_reply = { λ h told before after command reply. reply ≡ after };

    fn act(&mut self, _alloc: Global, command: Step) -> Result<u64, AllocError> {
        match command {
            Step::Raise(by) => {
                self.number = self.number.saturating_add(by);
                Ok(self.number)
            }
            Step::Linger => {
                linger();
                self.number = self.number.saturating_add(1);
                Ok(self.number)
            }
            Step::Starve => Err(AllocError),
        }
    }

    fn act_plain(&mut self, command: Step) -> u64 {
        match command {
            Step::Raise(by) => self.number = self.number.saturating_add(by),
            Step::Linger => {
                linger();
                self.number = self.number.saturating_add(1);
            }
            Step::Starve => {}
        }
        self.number
    }

    fn latest(&self) -> u64 {
        self.number
    }
}
