//! The trait of who serves the messages of a connection.
ghost use Rattle.std.specs.Prelude.{◌≡◌, ℕ, List};
ghost use Rattle.std.specs.declared.option.Option.{Option};
ghost use Rattle.http_wire.specs.declared.message.Message.{Message};
ghost use Rattle.sessions.specs.Exchanges.{ServerStanding, standing};
ghost use Rattle.source_render.specs.Renders.{renders};
ghost use Rattle.tile_requests.specs.declared.outcome.Outcome.{Outcome};

use http_wire::Message;
use png_text::CrcTables;
use source_render::Source;
use std::alloc::Global;
use tile_requests::Outcome;

/// Where no job can be submitted.
#[derive(Drop)]
pub struct NoJobs;

/// Who serves the messages of a connection, as one cabinet does by itself, or a hall with a board of jobs.
pub trait MessageServer {
    /// What messages are answered from.
    type Cache;

    /// Where jobs are submitted: `NoJobs` where none can be.
    type Jobs;

    /// It may serve from these, with a source that is modelled so.
    ghost ready: { Self → Self.Cache → Self.Jobs → Option ℕ → Type 0 };

    /// The document of the service's capabilities.
    ghost document: { Self → Self.Cache → List ℕ };

    /// What a message came to, with a source that is modelled so, from one standing to another.
    ghost serves: { Self → Option ℕ → Message → Outcome → ServerStanding Self.Cache Self.Jobs → ServerStanding Self.Cache Self.Jobs → Type 0 };

    /// Serves a message to its outcome. Where memory runs out, the outcome says so.
    fn serve<S: Source>(
        &self,
        alloc: Global,
        cache: &mut Self::Cache,
        jobs: &mut Self::Jobs,
        source: &mut S,
        message: &Message,
    ) -> Outcome
        requires ready { ready self.now cache.old jobs.old (S.told source.old) }
        ensures serves { serves self.now (S.told source.old) message.now result (standing cache.old jobs.old (renders (S.faults source.old) (S.gave source.old))) (standing cache.new jobs.new (renders (S.faults source.new) (S.gave source.new))) }
        ensures ready { ready self.now cache.new jobs.new (S.told source.new) }
        ensures document { document self.now cache.new ≡ document self.now cache.old }
        ensures told { S.told source.new ≡ S.told source.old };

    /// The bytes of the capabilities document.
    fn capabilities<'s>(&'s self, cache: &'s Self::Cache) -> &'s [u8]
        ensures { result.now ≡ document self.now cache.now };

    /// The tables by which pictures are spelt.
    fn crc_tables<'s>(&'s self, cache: &'s Self::Cache) -> &'s CrcTables;

    /// A message has come, and is about to be served.
    fn begin_message(&self);

    /// A message was served, and its response was sent, as far as it went out.
    fn end_message(&self);
}
