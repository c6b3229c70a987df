//! The messages of one connection, served over a hall and a board in order.
ghost use Rattle.std.specs.Prelude.{◌≡◌, Some, true};
ghost use Rattle.cache_hall.specs.Turned.{IsPassOf};
ghost use Rattle.catalog.specs.Valid.{IsValid};
ghost use Rattle.hall_sessions.specs.Sessions.{HasHallSession, output_of};
ghost use Rattle.job_board.specs.Calls.{IsBoardPass};
ghost use Rattle.layer_recipes.specs.Books.{IsBookOf};
ghost use Rattle.sessions.specs.Outside.{counts};
ghost use Rattle.source_render.specs.Renders.{renders};

use crate::hall_server::HallServer;
use crate::world::World;
use cabinet::Keeper;
use cabinet_chest::CabinetChest;
use http_wire::Link;
use job_board::BoardPass;
use sessions::{SessionEnd, hold_session};
use source_render::Source;
use std::alloc::Global;
use std::sync::Wait;
use turnstile::Pass;

/// Serves the messages of one connection (RFC 9112) over a hall and a board of jobs, in order, each before the next is looked for, at
/// most 10,000 of them. Who asks for a tile gets it, or 503, unless the source failed for it or no number of a render is left. A
/// composite that is answered is that of tiles which were got for it, one for each part of its recipe. Each blob that is handed in to the
/// cache is cut out of an image that the source gave for its ticket. Each end comes as `SessionEnd` says.
pub fn serve_session<R: Wait, K: Keeper, S: Source, L: Link>(
    rt: &R,
    alloc: Global,
    world: &World<K>,
    pass: &mut Pass<CabinetChest<K>>,
    board: &mut BoardPass,
    source: &mut S,
    link: &mut L,
) -> SessionEnd
    requires of { IsPassOf world.now.hall.turnstile.table world.now.hall.catalogue pass.old }
    requires valid { IsValid world.now.hall.catalogue }
    requires source { pass.old.told ≡ true → S.told source.old ≡ Some world.now.hall.catalogue.source }
    requires board { IsBoardPass world.now.board.turnstile.table board.old }
    requires recipes { IsBookOf world.now.hall.catalogue world.now.recipes }
    ensures session { HasHallSession
        (record { reads = counts (L.ByteSource.faults link.old) (L.ByteSource.faults link.new); from = L.left link.old; to = L.left link.new })
        (output_of (counts (L.ByteSink.faults link.old) (L.ByteSink.faults link.new)) (L.taken link.old) (L.taken link.new))
        (record { before = renders (S.faults source.old) (S.gave source.old); after = renders (S.faults source.new) (S.gave source.new) }) world.now.capabilities world.now.hall.catalogue world.now.recipes pass.old pass.new board.old board.new result }
    ensures of { IsPassOf world.now.hall.turnstile.table world.now.hall.catalogue pass.new }
    ensures board { IsBoardPass world.now.board.turnstile.table board.new }
    ensures told { S.told source.new ≡ S.told source.old }
{
    hold_session(alloc, &HallServer { rt, world }, pass, board, source, link)
}
