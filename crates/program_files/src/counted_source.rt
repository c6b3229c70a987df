//! A source that tells on standard error how far a job is.
ghost use Rattle.std.specs.Prelude.{◌≡◌};

use catalog::Catalogue;
use metatile_locks::Ticket;
use metatile_plan::Window;
use raster_field::Raster;
use source_render::{Failed, Source};
use std::io::Eprint;
use std::time::{Clock, Duration};

/// How many seconds nothing further is told.
const BETWEEN_LINES: u64 = 1;

/// A source whose renders are counted, and told every second.
#[derive(Drop)]
pub struct CountedSource<R: Clock + Eprint + Drop, S: Source> {
    rt: R,
    pub source: S,
    /// How many places the job has; `None` if nothing is to be told.
    places: Option<u64>,
    rendered: u64,
    failed: u64,
    began: Option<Duration>,
    told: Option<Duration>,
}

impl<R: Clock + Eprint + Drop, S: Source> CountedSource<R, S> {
    /// Counts the renders of a source for a job of so many places; if there is no number of places, nothing is told.
    pub fn new(rt: R, source: S, places: Option<u64>) -> CountedSource<R, S>
        ensures { result.source ≡ source }
    {
        let began = rt.monotonic().ok();
        CountedSource {
            rt,
            source,
            places,
            rendered: 0,
            failed: 0,
            began,
            told: began,
        }
    }

    /// Counts a render, and tells how far the job is, unless that was told within the last second. A place whose metatile is kept takes no
    /// render, so it isn't seen here.
    fn note(&mut self, done: bool)
        ensures { self.new.source ≡ self.old.source }
    {
        let Some(places) = self.places else {
            return;
        };
        if done {
            self.rendered = self.rendered.saturating_add(1);
        } else {
            self.failed = self.failed.saturating_add(1);
        }
        let (Some(began), Some(told), Ok(now)) = (self.began, self.told, self.rt.monotonic()) else {
            return;
        };
        if now.saturating_sub(told) < Duration::from_secs(BETWEEN_LINES) {
            return;
        }
        self.told = Some(now);
        let (rendered, failed) = (self.rendered, self.failed);
        let seconds = now.saturating_sub(began).as_secs();
        let _ = eprintln!(&self.rt;
            "rendered {rendered} of at most {places}, failed {failed}, {seconds} s"
        );
    }
}

impl<R: Clock + Eprint + Drop, S: Source> Source for CountedSource<R, S> {
    ghost told = { λ c. S.told c.source };

    ghost faults = { λ c. S.faults c.source };

    ghost gave = { λ c. S.gave c.source };

    fn render(
        &mut self,
        catalogue: &Catalogue,
        ticket: &Ticket,
        window: &Window,
        into: &mut Raster,
    ) -> Result<(), Failed> {
        let done = self.source.render(catalogue, ticket, window, into);
        self.note(done.is_ok());
        done
    }
}
