//! How links end, and the end of all.
use crate::lobby::Lobby;
use crate::set::Set;
use std::collections::VecDeque;
use std::sync::Wait;
use std::thread;
use std::time::{Clock, Duration};
use tcp_lanes::{PAUSE, time};

// One link.
impl Lobby {
    /// Takes the buffer of a link back that has ended, and the set that its worker owns. Where the server was stopped the answers under
    /// way of that set are seen off. All ends where it was the last link.
    pub fn leave<R: Wait + Clock>(
        &self,
        rt: &R,
        head: Vec<u8>,
        set: Option<Box<Set>>,
        has_begun: bool,
    ) {
        if !has_begun {
            self.yard.lock(rt).expect_no_longer();
        }
        if let Some(set) = set {
            self.put_away(rt, set);
        }
        if self.is_stopping() {
            self.see_off_yard(rt);
        }
        let mut links = self.links.lock(rt);
        links.take_back(head);
        let is_over = links.is_over_now();
        drop(links);
        self.ended.notify_one();
        if is_over {
            self.wind_up(rt);
        }
    }

    fn put_away<R: Wait>(&self, rt: &R, set: Box<Set>) {
        if self.is_stopping() {
            self.yard.lock(rt).close_up(set);
        } else {
            self.give_up(rt, set, true);
        }
    }
}

// All.
impl Lobby {
    /// No further link is given: all ends once every link has.
    pub fn end_after_last<R: Wait + Clock>(&self, rt: &R) {
        let mut links = self.links.lock(rt);
        links.close();
        let is_over = links.is_over_now();
        drop(links);
        self.ended.notify_all();
        if is_over {
            self.wind_up(rt);
        }
    }

    /// Stops the server: nobody connects any more, no message is begun, and every link ends once its message is answered.
    pub fn stop<R: Wait + Clock>(&self, rt: &R) {
        self.set_stopping();
        self.close_door(rt);
        for address in &self.addresses {
            address.ring();
        }
        // Who looked before whether it goes on waits for the bell by now.
        drop(self.yard.lock(rt));
        self.bell.notify_all();
        self.end_after_last(rt);
    }

    /// Closes the listening socket, so that its port is free.
    fn close_door<R: Wait>(&self, rt: &R) {
        let socket = self.door.lock(rt).socket.take();
        drop(socket);
    }

    /// Ends all: nobody connects any more, answers under way are sent, and every connection is closed. No link may be out.
    fn wind_up<R: Wait + Clock>(&self, rt: &R) {
        self.close_door(rt);
        self.see_off_yard(rt);
    }

    /// Sends the answers under way of all sets that nobody owns, as far as their clients take them within the time of one answer, and
    /// closes their connections. A message that came behind them, and wasn't served, gets none.
    fn see_off_yard<R: Wait + Clock>(&self, rt: &R) {
        let mut sets = self.yard.lock(rt).clear(self.alloc);
        let begun = time(rt);
        for _ in 0..=self.limits.clients.answer / PAUSE {
            let is_over = time(rt).saturating_sub(begun) >= self.limits.clients.answer;
            if !self.is_sending(rt, &mut sets) || is_over {
                break;
            }
            thread::sleep(rt, Duration::from_millis(PAUSE));
        }
        for mut set in sets {
            self.close_all(rt, &mut set);
            self.yard.lock(rt).lay_by(set);
        }
    }

    /// Lets every connection of the sets end, and goes on with it. Whether one has an answer that isn't sent.
    fn is_sending<R: Wait + Clock>(&self, rt: &R, sets: &mut VecDeque<Box<Set>>) -> bool {
        let mut some = false;
        for set in sets.iter_mut() {
            if let Some(mail) = self.mail_of(set) {
                set.move_in(rt, mail);
            }
            let sending = self.is_set_sending(rt, set);
            some = some || sending;
        }
        some
    }

    fn is_set_sending<R: Wait + Clock>(&self, rt: &R, set: &mut Set) -> bool {
        let mut some = false;
        for token in 0..set.sockets() {
            self.see_one_off(rt, set, token);
            let sending = set.has_answer(token);
            some = some || sending;
        }
        some
    }

    /// Goes on with the end of the connection of a token, which begins it where it was going on.
    fn see_one_off<R: Wait + Clock>(&self, rt: &R, set: &mut Set, token: usize) {
        let Some(mut guest) = set.take(token) else {
            return;
        };
        let now = time(rt);
        guest.conn.stir(false);
        if guest.conn.is_parting() {
            self.go_on_parting(rt, Some(set), guest, now);
        } else {
            self.part(rt, Some(set), guest, now);
        }
    }

    /// Closes every connection of a set.
    fn close_all<R: Wait>(&self, rt: &R, set: &mut Set) {
        for token in 0..set.sockets() {
            if let Some(guest) = set.take(token) {
                self.close(rt, guest);
            }
        }
    }
}
