//! What holds of all streams: each has one reading, but for two stated exceptions, and a reader's answers make it up.
ghost use Rattle.std.specs.Prelude.{◌≡◌, ◌∷◌, ◌++◌, [], ℕ, List, Option, IfSome};
ghost use Rattle.http_wire.specs.Answers.{AnswersNext, next_at};
ghost use Rattle.http_wire.specs.Exceptions.{Agree, AgreeAfter};
ghost use Rattle.http_wire.specs.Messages.{IsNext, StopsAs};
ghost use Rattle.http_wire.specs.Streams.{Messages, StandIn};
ghost use Rattle.http_wire.specs.declared.message.Message.{Message};
ghost use Rattle.http_wire.specs.declared.message.Stop.{Stop};

use crate::message::Next;

/// One message stands at the front of the bytes, or none and the stream stops there in one way, but for the two
/// exceptions.
pub fn one_next()
    ensures message { (bytes rest other_rest : List ℕ) (message other : Message) → IsNext bytes message rest → IsNext bytes other other_rest → (message ≡ other) × (rest ≡ other_rest) }
    ensures either { (bytes rest : List ℕ) (message : Message) (stop : Stop) → IsNext bytes message rest → StopsAs bytes stop → ⊥ }
    ensures stop { (bytes : List ℕ) (s t : Stop) → StopsAs bytes s → StopsAs bytes t → Agree bytes s t }
{}

/// A stream has one reading: two readings have the same messages, and stop in one way but for the two exceptions.
pub fn one_reading()
    ensures { (bytes : List ℕ) (messages others : List Message) (s t : Stop) → Messages bytes messages s → Messages bytes others t → (messages ≡ others) × AgreeAfter bytes messages s t }
{}

/// The answers of a reader make up the stream: a message is one more of it, and a stop is where it stops.
pub fn each_answer()
    ensures message { (bytes middle after : Option (List ℕ)) (messages : List Message) (message : Message) → StandIn bytes messages middle → AnswersNext middle after (Next.Message message) → StandIn bytes (messages ++ message ∷ []) after }
    ensures stop { (bytes middle after : Option (List ℕ)) (messages : List Message) (stop : Stop) → StandIn bytes messages middle → AnswersNext middle after (next_at stop) → IfSome bytes (λ all. Messages all messages stop) }
{}
