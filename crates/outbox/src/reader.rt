//! The visitor that reads the posts of a file while it is opened.
ghost use Rattle.std.specs.Prelude.{ℕ, [], ◌∷◌, ◌++◌, ◌≡◌, ◌≢◌, ◌+◌, ◌<◌, ◌^◌, List, IfErr, IfOk, MatchOption, OnErr, length};
ghost use Rattle.outbox.specs.Files.{ArePosts, IsBadBehind, IsPostable, post_body};
ghost use Rattle.outbox.specs.Opens.{StandsAt};
ghost use Rattle.truncation_list.specs.declared.cover.Cover.{Cover};

use crate::reading::cut_in;
use base::Trace;
use catalog::Catalogue;
use gate_journal::Visit;
use record_text::decode;
use served_covers::is_cover_of;
use std::alloc::{AllocError, Global};
use std::marker::Model;
use truncation_list::Cover;

/// Reads posts. Contracts see the catalogue, and the bodies that it was shown.
#[derive(Drop)]
pub(crate) struct PostReader<'a> {
    catalogue: &'a Catalogue,
    /// The covers of the bodies up to the first that is no post's.
    posts: Vec<Cover>,
    /// How many bodies it was shown.
    count: u64,
    /// The slot of the first body that is no post's.
    bad: Option<u64>,
    bodies: Trace<[u8; 63]>,
}

impl<'a> Model for PostReader<'a> {
    ghost use Rattle.outbox.specs.Opens.{IsReadTo, Read};

    ghost Value = { Read };

    ghost view = { λ r. record { catalogue = r.catalogue.now; bodies = r.bodies.entries } };

    ghost invariant = { λ r. IsReadTo r.catalogue.now r.bodies.entries r.posts.items r.count r.bad };
}

/// The cover of a post, where the body in this slot is one's: the cut that it records has the slot's number plus 1, and its cover is of the
/// catalogue.
fn post_in(catalogue: &Catalogue, slot: u64, body: &[u8; 63]) -> Option<Cover>
    requires { slot + 1 < 2 ^ 64 }
    ensures { MatchOption result ((cover : Cover) → IsPostable catalogue.now cover → body.now ≢ post_body (slot + 1) cover) (λ cover. IsPostable catalogue.now cover × (body.now ≡ post_body (slot + 1) cover)) }
{
    let entry = decode(body);
    match cut_in(entry) {
        None => None,
        Some((number, cover)) => {
            if number != slot + 1 {
                return None;
            }
            if !is_cover_of(catalogue, &cover) {
                return None;
            }
            Some(cover)
        }
    }
}

/// The slot of the first body that is no post's, with one more body, in this slot; the covers of those before it are posts, with this one's
/// where it is the next. `AllocError` where memory runs out; the posts are then as before.
fn bad_with(
    catalogue: &Catalogue,
    posts: &mut Vec<Cover>,
    bad: Option<u64>,
    slot: u64,
    body: &[u8; 63],
) -> Result<Option<u64>, AllocError>
    requires { slot + 1 < 2 ^ 64 }
    ensures stands { IfOk result (λ now. (bodies : List (List ℕ)) → slot ≡ length bodies → StandsAt catalogue.now bodies posts.old.items bad → StandsAt catalogue.now (bodies ++ body.now ∷ []) posts.new.items now) }
    ensures err { OnErr result (posts.new.items ≡ posts.old.items) }
{
    match bad {
        Some(first) => Ok(Some(first)),
        None => match post_in(catalogue, slot, body) {
            None => Ok(Some(slot)),
            Some(cover) => match posts.push(cover) {
                Err(_) => Err(AllocError),
                Ok(()) => Ok(None),
            },
        },
    }
}

impl<'a> PostReader<'a> {
    /// No body was shown yet.
    pub(crate) fn new(alloc: Global, catalogue: &'a Catalogue) -> PostReader<'a>
        ensures { result ≡ record { catalogue = catalogue.now; bodies = [] } }
    {
        PostReader {
            catalogue,
            posts: Vec::new(alloc),
            count: 0,
            bad: None,
            bodies: Trace::new(),
        }
    }

    /// The posts of the bodies; or the slot, counted from 0, of the first one that is no post's.
    pub(crate) fn posts(self) -> Result<Vec<Cover>, u64>
        ensures ok { IfOk result (λ posts. ArePosts self.entry.catalogue self.entry.bodies posts.items) }
        ensures err { IfErr result (IsBadBehind self.entry.catalogue self.entry.bodies) }
    {
        match self.bad {
            None => Ok(self.posts),
            Some(slot) => Err(slot),
        }
    }
}

impl<'a> Visit for PostReader<'a> {
    ghost visits = { λ slot body old new. new ≡ record { catalogue = old.catalogue; bodies = old.bodies ++ body ∷ [] } };

    ghost leaves = { λ old new. new ≡ old };

    fn body(&mut self, _: Global, _: u64, body: &[u8; 63]) -> Result<(), AllocError> {
        if self.count == u64::MAX {
            return Err(AllocError);
        }
        let bad = match bad_with(self.catalogue, &mut self.posts, self.bad, self.count, body) {
            Err(fault) => return Err(fault),
            Ok(bad) => bad,
        };
        self.bad = bad;
        self.count += 1;
        self.bodies = self.bodies.and(body);
        Ok(())
    }
}
