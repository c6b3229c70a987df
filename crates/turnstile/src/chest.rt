//! What lies behind a turnstile.
ghost use Rattle.std.specs.Prelude.{◌≡◌, Bool, true, IfErr, IfOk};
ghost use Rattle.truncation_list.specs.Books.{AnswersForFronted, last_seen};
ghost use Rattle.truncation_list.specs.declared.book.FrontedBook.{FrontedBook};

use std::alloc::{AllocError, Global};

/// A value with a book, which commands change: a cache behind its truncations, or a board of jobs.
///
/// A command is admitted by the chest's charter alone and never by what the chest holds at the moment, since no caller
/// knows that between two turns.
pub trait Chest {
    /// What a turn does.
    type Command;

    /// What a command is answered.
    type Reply;

    /// A plain value that no command changes, as a catalogue.
    type Charter;

    /// A plain value that the chest shows, as its count of faults.
    type Shown;

    /// What is noted of a command.
    type Note;

    ghost charter: { Self → Self.Charter };

    // which commands a charter admits
    ghost admits: { Self.Charter → Self.Command → Type 0 };

    // which admitted commands keep every sound chest of that charter sound
    ghost keeps_sound: { Self.Charter → Self.Command → Type 0 };

    ghost takes_no_memory: { Self.Command → Type 0 };

    ghost sound: { Self → Type 0 };

    ghost book: { Self → FrontedBook };

    ghost shown: { Self → Self.Shown };

    // the second chest is as the first one was: a chest that reserves room may leave the room out, and one over a disk how often that
    // has failed
    ghost as_before: { Self → Self → Type 0 };

    // of the command, its reply, and what the chest shows before and after
    ghost note: { Self.Command → Self.Reply → Self.Shown → Self.Shown → Self.Note };

    // of the charter, whether the chest is known to be sound, and what it shows before and after
    ghost may_reply: { Self.Charter → Bool → Self.Shown → Self.Shown → Self.Command → Self.Reply → Type 0 };

    /// Does a command. `AllocError` comes only for a command that takes memory, and leaves the chest as before.
    fn act(&mut self, alloc: Global, command: Self::Command) -> Result<Self::Reply, AllocError>
        requires { admits (charter self.old) command }
        ensures charter { charter self.new ≡ charter self.old }
        ensures reply { IfOk result (λ r. (told : Bool) → (told ≡ true → sound self.old) → may_reply (charter self.old) told (shown self.old) (shown self.new) command r) }
        ensures book { AnswersForFronted (book self.new) (book self.old) }
        ensures sound { keeps_sound (charter self.old) command → sound self.old → sound self.new }
        ensures memory { IfErr result (λ _. ¬ (takes_no_memory command)) }
        ensures before { IfErr result (λ _. as_before self.old self.new × (book self.new ≡ book self.old)) };

    /// Does a command that takes no memory.
    fn act_plain(&mut self, command: Self::Command) -> Self::Reply
        requires admitted { admits (charter self.old) command }
        requires plain { takes_no_memory command }
        ensures charter { charter self.new ≡ charter self.old }
        ensures reply { (told : Bool) → (told ≡ true → sound self.old) → may_reply (charter self.old) told (shown self.old) (shown self.new) command result }
        ensures book { AnswersForFronted (book self.new) (book self.old) }
        ensures sound { keeps_sound (charter self.old) command → sound self.old → sound self.new };

    /// The greater of the floor of the chest's book and the greatest number of its listed truncations.
    fn latest(&self) -> u64
        ensures { result ≡ last_seen (book self.now).book };
}
