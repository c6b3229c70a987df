//! What the bytes of renderings have no part in, what a cabinet without a disk has no part in, and what a session has sent by its answers.
ghost use Rattle.std.specs.List.{AllByRecursion};
ghost use Rattle.std.specs.Prelude.{List, Option, ℕ, map, ◌≡◌};
ghost use Rattle.base.specs.Causes.{RoseBy};
ghost use Rattle.http_wire.specs.declared.message.Message.{Message};
ghost use Rattle.sessions.specs.Outside.{InputChange, OutputChange};
ghost use Rattle.sessions.specs.SessionEnds.{Ends};
ghost use Rattle.sessions.specs.declared.session.SessionEnd.{SessionEnd};
ghost use Rattle.tile_requests.specs.Requests.{Chance};
ghost use Rattle.tile_service.specs.Alike.{without_bytes};
ghost use Rattle.tile_service.specs.Replays.{EndsIn};
ghost use Rattle.tile_service.specs.Run.{Answer, IsFaultless, RunState, disk_faults, run};
ghost use Rattle.tile_service.specs.Session.{responses, session};

/// The history after a run or a session, and so what is kept, and the line that is refused follow from the lines or messages,
/// from the memory that ran out, from the moments that the clock gave and from which renderings failed: not from which bytes they gave.
pub fn laws_of_runs()
    ensures history { (w : RunState) (n : ℕ) (lines : List (List ℕ)) (chances : List Chance) (others : List Chance) → map without_bytes chances ≡ map without_bytes others → (run w n lines chances).world.cabinet.history ≡ (run w n lines others).world.cabinet.history }
    ensures refused { (w : RunState) (n : ℕ) (lines : List (List ℕ)) (chances : List Chance) (others : List Chance) → map without_bytes chances ≡ map without_bytes others → (run w n lines chances).refused ≡ (run w n lines others).refused }
    ensures session { (w : RunState) (place : ℕ) (messages : List Message) (chances : List Chance) (others : List Chance) → map without_bytes chances ≡ map without_bytes others → (session w place messages chances).0.cabinet.history ≡ (session w place messages others).0.cabinet.history }
{}

/// A cabinet whose disk's count of faults stays at 0, as that of one in memory does, has no part in faults of a disk: no chance of its
/// runs names one.
pub fn laws_of_memory()
    ensures { (chances : List Chance) → RoseBy (disk_faults chances) 0 0 → AllByRecursion IsFaultless chances }
{}

/// How a session ended, said of the texts of its responses (`Ends`), says the same of its answers: what went out is the responses to them, and
/// of the last alone, where a write failed, a part.
pub fn laws_of_replays()
    ensures ends { (i : InputChange) (o : OutputChange) (document : List ℕ) (messages : List Message) (answers : List Answer) (held : List ℕ) (rest : Option (List ℕ)) (end : SessionEnd) → Ends i o messages (responses document answers) held rest end → EndsIn i o document messages answers held rest end }
{}
