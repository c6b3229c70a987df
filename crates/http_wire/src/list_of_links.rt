//! A listening socket in memory: a list of links, given one after another.
ghost use Rattle.std.specs.Prelude.{◌≡◌, false, true, [], ◌∷◌, ◌++◌, IfOk, IfErr};
ghost use Rattle.base.specs.Causes.{HasCause};
ghost use Rattle.http_wire.specs.Lists.{Offers};

use crate::listener::Listener;
use crate::memory_link::MemoryLink;
use crate::streams::Failed;
use base::Trace;
use std::collections::VecDeque;
use std::marker::Model;

/// A list of links. Contracts see those that are left, those that were given, how often none was left, and whether no further one is
/// wanted.
#[derive(Drop)]
pub struct ListOfLinks {
    links: VecDeque<MemoryLink>,
    given: Trace<MemoryLink>,
    faults: u64,
    closed: bool,
}

impl Model for ListOfLinks {
    ghost use Rattle.http_wire.specs.Lists.{Offer};

    ghost Value = { Offer };

    ghost view = { λ s. record { links = s.links.items; given = s.given.entries; faults = s.faults; closed = s.closed } };
}

impl ListOfLinks {
    /// A list that gives these links, in their order.
    pub fn new(links: Vec<MemoryLink>) -> ListOfLinks
        ensures { result ≡ record { links = links.items; given = []; faults = 0; closed = false } }
    {
        ListOfLinks {
            links: VecDeque::from_vec(links),
            given: Trace::new(),
            faults: 0,
            closed: false,
        }
    }
}

impl Listener for ListOfLinks {
    type L = MemoryLink;

    ghost given = { λ s. s.given };

    ghost faults = { λ s. s.faults };

    ghost closed = { λ s. s.closed };

    fn accept(&mut self) -> Result<MemoryLink, Failed>
        ensures given { IfOk result (λ link. self.new.given ≡ self.old.given ++ link ∷ []) }
        ensures refused { IfErr result (λ _. self.new.given ≡ self.old.given) }
        ensures cause { HasCause self.old.faults self.new.faults result }
        ensures exact { Offers self.old self.new result }
    {
        match self.links.pop_front() {
            Some(link) => {
                self.given = self.given.and(&link);
                Ok(link)
            }
            None => {
                self.faults = base::one_more(self.faults);
                Err(Failed)
            }
        }
    }

    fn close(&mut self)
        ensures closed { self.new.closed ≡ true }
        ensures given { self.new.given ≡ self.old.given }
        ensures faults { self.new.faults ≡ self.old.faults }
        ensures exact { self.new ≡ record self.old { closed = true } }
    {
        self.closed = true;
    }
}
