//! How sets change their owners, and connections their sets.
use crate::address::Address;
use crate::guest::Guest;
use crate::lobby::Lobby;
use crate::set::Set;
use crate::yard::GivenUp;
use mio::unix::SourceFd;
use mio::{Interest, Token};
use std::os::fd::AsRawFd;
use std::sync::Wait;
use std::sync::atomic::Ordering;
use std::thread;
use tcp_lanes::LISTENING;

// Sets.
impl Lobby {
    /// A set that nobody owns, once there is one. None where the server was stopped meanwhile.
    pub fn obtain<R: Wait>(&self, rt: &R, is_first: bool) -> Option<Box<Set>> {
        let mut yard = self.yard.lock(rt);
        if is_first {
            yard.expect_no_longer();
        }
        for _ in rt.forever() {
            if self.is_stopping() {
                return None;
            }
            if let Some(set) = yard.lend() {
                drop(yard);
                self.set_live(rt, &set);
                return Some(set);
            }
            yard.park();
            yard = self.bell.wait(rt, yard);
            yard.unpark();
        }
        None
    }

    fn set_live<R: Wait>(&self, rt: &R, set: &Set) {
        if let Some(address) = self.addresses.get(set.home) {
            address.set_live(&mut *address.mail.lock(rt), true);
        }
    }

    /// Gives a set up, since its worker is going to wait, or since its link has ended. It goes to a worker that has none, or waits for
    /// one; where there is none, its connections go to the sets of others.
    pub fn give_up<R: Wait>(&self, rt: &R, set: Box<Set>, has_ended: bool) {
        let mut yard = self.yard.lock(rt);
        let given_up = yard.take_back(set, has_ended);
        drop(yard);
        match given_up {
            GivenUp::Lies => {}
            GivenUp::IsCalledFor => self.bell.notify_one(),
            GivenUp::Retires(set) => self.retire(rt, set),
        }
    }

    /// Sends the connections of a set to others, and lays it by.
    fn retire<R: Wait>(&self, rt: &R, mut set: Box<Set>) {
        if let Some(address) = self.addresses.get(set.home) {
            let mut mail = address.mail.lock(rt);
            address.set_live(&mut *mail, false);
            drop(mail);
            set.move_in(rt, &address.mail);
        }
        for token in 0..set.sockets() {
            if let Some(guest) = set.take(token) {
                self.move_out(rt, guest);
            }
        }
        self.move_door(rt, set.home);
        set.clear_line();
        let calls = self.yard.lock(rt).lay_by(set);
        if calls {
            self.bell.notify_one();
        }
    }

    /// Lets another set hear of new connections where this one did, and rings at the door: this one may have heard of some.
    fn move_door<R: Wait>(&self, rt: &R, from: usize) {
        let mut door = self.door.lock(rt);
        let Some(socket) = &door.socket else {
            return;
        };
        let fd = socket.as_raw_fd();
        if door.home == from {
            if let Some(address) = self.addresses.get(from) {
                let _ = address.registry.deregister(&mut SourceFd(&fd));
            }
            door.home = self.open_door(rt, fd);
        }
        if let Some(address) = self.addresses.get(door.home) {
            address.ring();
        }
    }

    /// Registers the listening socket with a live set. Which one.
    fn open_door<R: Wait>(&self, rt: &R, fd: i32) -> usize {
        for _ in rt.forever() {
            let home = self.emptiest();
            if let Some(address) = self.addresses.get(home) {
                let mail = address.mail.lock(rt);
                if mail.is_live {
                    let source = &mut SourceFd(&fd);
                    let interest = Interest::READABLE;
                    let told = address
                        .registry
                        .register(source, Token(LISTENING), interest);
                    if told.is_err() {
                        // The system is short of memory: who sweeps next looks at the door.
                        self.backlog.store(true, Ordering::SeqCst);
                    }
                    return home;
                }
            }
            thread::yield_now();
        }
        0
    }

    /// The live set with the fewest open connections. Where none is live any.
    fn emptiest(&self) -> usize {
        let mut best = 0;
        let mut least = usize::MAX;
        for (home, address) in self.addresses.iter().enumerate() {
            match address.load() {
                Some(open) if open < least => {
                    least = open;
                    best = home;
                }
                _ => {}
            }
        }
        best
    }
}

// Connections.
impl Lobby {
    /// Sends a connection to its set, which the system then tells of it, or to another one where that has retired.
    pub fn send_home<R: Wait>(&self, rt: &R, guest: Box<Guest>) {
        let Some(address) = self.addresses.get(guest.home) else {
            return;
        };
        // Whoever hears of it waits here until it lies in the mail.
        let mut mail = address.mail.lock(rt);
        if !mail.is_live {
            drop(mail);
            self.move_out(rt, guest);
        } else if guest.reregister(&address.registry).is_ok() {
            // There is room for every connection.
            let _ = mail.parcels.push(guest);
        } else {
            drop(mail);
            self.close(rt, guest);
        }
    }

    /// Sends a connection from its set to a live one.
    fn move_out<R: Wait>(&self, rt: &R, guest: Box<Guest>) {
        if let Some(address) = self.addresses.get(guest.home) {
            // The registry is open as long as the lobby, so that the system would tell of it for nothing.
            let _ = guest.deregister(&address.registry);
            address.count_out();
        }
        let Some(address) = self.house(rt, guest) else {
            return;
        };
        // What the system won't tell of it by itself is looked for within a sweep, for which an owner that waits must know of it.
        address.ring();
    }

    /// Sends a connection that belongs to no set to the live one with the fewest. Which one. None where the connection ended.
    pub fn house<R: Wait>(&self, rt: &R, mut guest: Box<Guest>) -> Option<&Address> {
        for _ in rt.forever() {
            let home = self.emptiest();
            let address = self.addresses.get(home)?;
            let mut mail = address.mail.lock(rt);
            if !mail.is_live {
                // Its owner has taken it, and is about to say so.
                drop(mail);
                thread::yield_now();
                continue;
            }
            guest.home = home;
            address.count_in();
            if guest.register(&address.registry).is_ok() {
                let _ = mail.parcels.push(guest);
                return Some(address);
            }
            drop(mail);
            self.close(rt, guest);
            return None;
        }
        None
    }
}
