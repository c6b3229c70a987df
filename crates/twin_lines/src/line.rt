//! One line of a twin: what it orders happens, and is answered.
ghost use Rattle.std.specs.Prelude.{◌≡◌, ◌≤◌, ℕ, IfOk, Option, Some};
ghost use Rattle.cache_core.specs.Lasting.{Lasting};
ghost use Rattle.catalog.specs.LookUp.{IsTile};
ghost use Rattle.gate_journal.specs.Sound.{digest_of};
ghost use Rattle.served_covers.specs.OfCatalogue.{IsCoverOf};
ghost use Rattle.sessions.specs.Outside.{OutputChange, counts};
ghost use Rattle.twin_events.specs.Twins.{IsTwinReady, standing};
ghost use Rattle.twin_lines.specs.Ends.{passage};
ghost use Rattle.twin_lines.specs.OneLine.{GoesTo, RunsOrder};
ghost use Rattle.twin_lines.specs.Orders.{IsOrderOf, IsReadAs, order_in};
ghost use Rattle.twin_lines.specs.Steps.{faults, moment};
ghost use Rattle.twin_lines.specs.declared.order.TwinOrder.TheVariants as order;

use crate::line_end::TwinLineEnd;
use crate::order::TwinOrder;
use crate::orders::{UnreadTwinOrder, read_order};
use crate::text::{tell_carried, tell_got, tell_posted, tell_sent};
use cabinet::Keeper;
use cache_core::laws_of_lasting;
use disk_model::Disk;
use http_wire::ByteSink;
use matrix_geometry::Address;
use source_render::Source;
use std::alloc::Global;
use truncation_list::Cover;
use twin_events::Twin;

/// Posts a cover at the leader, and tells what became of it.
fn run_post<K: Keeper, M: Disk, N: Disk, O: ByteSink>(
    alloc: Global,
    twin: &mut Twin<K, M, N>,
    output: &mut O,
    line: u64,
    cover: &Cover,
) -> TwinLineEnd
    requires ready { IsTwinReady twin.old.outbox.catalogue (standing twin.old.outbox.out twin.old.feed.stand (K.state twin.old.cabinet) twin.old.sent.items) }
    requires cover { IsCoverOf twin.old.outbox.catalogue cover.now }
    ensures runs { (source : Option ℕ) (failed : ℕ) → RunsOrder twin.old.outbox.catalogue source (passage (N.told twin.old.outbox.file.disk) (N.state twin.old.outbox.file.disk) (N.state twin.new.outbox.file.disk)) (Some (order.Post cover.now)) line (record { writes = counts (O.faults output.old) (O.faults output.new); from = O.taken output.old; to = O.taken output.new }) (output.new ≡ output.old)
        (moment (standing twin.old.outbox.out twin.old.feed.stand (K.state twin.old.cabinet) twin.old.sent.items) (faults failed (N.faults twin.old.outbox.file.disk) (M.faults twin.old.feed.file.disk) (K.faults twin.old.cabinet)))
        (moment (standing twin.new.outbox.out twin.new.feed.stand (K.state twin.new.cabinet) twin.new.sent.items) (faults failed (N.faults twin.new.outbox.file.disk) (M.faults twin.new.feed.file.disk) (K.faults twin.new.cabinet))) result }
    ensures goes { (source : Option ℕ) (failed : ℕ) → GoesTo twin.old.outbox.catalogue source (digest_of twin.old.feed.file.journal) (passage (M.told twin.old.feed.file.disk) (M.state twin.old.feed.file.disk) (M.state twin.new.feed.file.disk))
        (moment (standing twin.old.outbox.out twin.old.feed.stand (K.state twin.old.cabinet) twin.old.sent.items) (faults failed (N.faults twin.old.outbox.file.disk) (M.faults twin.old.feed.file.disk) (K.faults twin.old.cabinet)))
        (moment (standing twin.new.outbox.out twin.new.feed.stand (K.state twin.new.cabinet) twin.new.sent.items) (faults failed (N.faults twin.new.outbox.file.disk) (M.faults twin.new.feed.file.disk) (K.faults twin.new.cabinet))) }
    ensures ready { IsTwinReady twin.new.outbox.catalogue (standing twin.new.outbox.out twin.new.feed.stand (K.state twin.new.cabinet) twin.new.sent.items) }
    ensures catalogue { twin.new.outbox.catalogue ≡ twin.old.outbox.catalogue }
    ensures posts_told { N.told twin.new.outbox.file.disk ≡ N.told twin.old.outbox.file.disk }
    ensures marks_told { M.told twin.new.feed.file.disk ≡ M.told twin.old.feed.file.disk }
    ensures digest { digest_of twin.new.feed.file.journal ≡ digest_of twin.old.feed.file.journal }
    ensures lasts { Lasting (K.outlasts twin.old.cabinet twin.new.cabinet) (K.state twin.old.cabinet) (K.state twin.new.cabinet) }
    ensures later { O.faults output.old ≤ O.faults output.new }
{
    laws_of_lasting::<K>();
    match twin.post(alloc, cover) {
        Ok(reply) => tell_posted(output, line, reply),
        Err(_) => TwinLineEnd::OutOfMemory,
    }
}

/// Lets the leader send, and tells which place the packet has.
fn run_send<K: Keeper, M: Disk, N: Disk, O: ByteSink>(
    alloc: Global,
    twin: &mut Twin<K, M, N>,
    output: &mut O,
    line: u64,
) -> TwinLineEnd
    requires ready { IsTwinReady twin.old.outbox.catalogue (standing twin.old.outbox.out twin.old.feed.stand (K.state twin.old.cabinet) twin.old.sent.items) }
    ensures runs { (source : Option ℕ) (failed : ℕ) → RunsOrder twin.old.outbox.catalogue source (passage (N.told twin.old.outbox.file.disk) (N.state twin.old.outbox.file.disk) (N.state twin.new.outbox.file.disk)) (Some order.Send) line (record { writes = counts (O.faults output.old) (O.faults output.new); from = O.taken output.old; to = O.taken output.new }) (output.new ≡ output.old)
        (moment (standing twin.old.outbox.out twin.old.feed.stand (K.state twin.old.cabinet) twin.old.sent.items) (faults failed (N.faults twin.old.outbox.file.disk) (M.faults twin.old.feed.file.disk) (K.faults twin.old.cabinet)))
        (moment (standing twin.new.outbox.out twin.new.feed.stand (K.state twin.new.cabinet) twin.new.sent.items) (faults failed (N.faults twin.new.outbox.file.disk) (M.faults twin.new.feed.file.disk) (K.faults twin.new.cabinet))) result }
    ensures goes { (source : Option ℕ) (failed : ℕ) → GoesTo twin.old.outbox.catalogue source (digest_of twin.old.feed.file.journal) (passage (M.told twin.old.feed.file.disk) (M.state twin.old.feed.file.disk) (M.state twin.new.feed.file.disk))
        (moment (standing twin.old.outbox.out twin.old.feed.stand (K.state twin.old.cabinet) twin.old.sent.items) (faults failed (N.faults twin.old.outbox.file.disk) (M.faults twin.old.feed.file.disk) (K.faults twin.old.cabinet)))
        (moment (standing twin.new.outbox.out twin.new.feed.stand (K.state twin.new.cabinet) twin.new.sent.items) (faults failed (N.faults twin.new.outbox.file.disk) (M.faults twin.new.feed.file.disk) (K.faults twin.new.cabinet))) }
    ensures ready { IsTwinReady twin.new.outbox.catalogue (standing twin.new.outbox.out twin.new.feed.stand (K.state twin.new.cabinet) twin.new.sent.items) }
    ensures catalogue { twin.new.outbox.catalogue ≡ twin.old.outbox.catalogue }
    ensures posts_told { N.told twin.new.outbox.file.disk ≡ N.told twin.old.outbox.file.disk }
    ensures marks_told { M.told twin.new.feed.file.disk ≡ M.told twin.old.feed.file.disk }
    ensures digest { digest_of twin.new.feed.file.journal ≡ digest_of twin.old.feed.file.journal }
    ensures lasts { Lasting (K.outlasts twin.old.cabinet twin.new.cabinet) (K.state twin.old.cabinet) (K.state twin.new.cabinet) }
    ensures later { O.faults output.old ≤ O.faults output.new }
{
    laws_of_lasting::<K>();
    match twin.send(alloc) {
        Ok(place) => tell_sent(output, line, place),
        Err(_) => TwinLineEnd::OutOfMemory,
    }
}

/// Carries the packet at a place, and tells what became of it. `Refused` where nothing was sent to that place.
fn run_carry<K: Keeper, M: Disk, N: Disk, O: ByteSink>(
    alloc: Global,
    twin: &mut Twin<K, M, N>,
    output: &mut O,
    line: u64,
    place: u64,
) -> TwinLineEnd
    requires ready { IsTwinReady twin.old.outbox.catalogue (standing twin.old.outbox.out twin.old.feed.stand (K.state twin.old.cabinet) twin.old.sent.items) }
    ensures runs { (source : Option ℕ) (failed : ℕ) → RunsOrder twin.old.outbox.catalogue source (passage (N.told twin.old.outbox.file.disk) (N.state twin.old.outbox.file.disk) (N.state twin.new.outbox.file.disk)) (Some (order.Carry place)) line (record { writes = counts (O.faults output.old) (O.faults output.new); from = O.taken output.old; to = O.taken output.new }) (output.new ≡ output.old)
        (moment (standing twin.old.outbox.out twin.old.feed.stand (K.state twin.old.cabinet) twin.old.sent.items) (faults failed (N.faults twin.old.outbox.file.disk) (M.faults twin.old.feed.file.disk) (K.faults twin.old.cabinet)))
        (moment (standing twin.new.outbox.out twin.new.feed.stand (K.state twin.new.cabinet) twin.new.sent.items) (faults failed (N.faults twin.new.outbox.file.disk) (M.faults twin.new.feed.file.disk) (K.faults twin.new.cabinet))) result }
    ensures goes { (source : Option ℕ) (failed : ℕ) → GoesTo twin.old.outbox.catalogue source (digest_of twin.old.feed.file.journal) (passage (M.told twin.old.feed.file.disk) (M.state twin.old.feed.file.disk) (M.state twin.new.feed.file.disk))
        (moment (standing twin.old.outbox.out twin.old.feed.stand (K.state twin.old.cabinet) twin.old.sent.items) (faults failed (N.faults twin.old.outbox.file.disk) (M.faults twin.old.feed.file.disk) (K.faults twin.old.cabinet)))
        (moment (standing twin.new.outbox.out twin.new.feed.stand (K.state twin.new.cabinet) twin.new.sent.items) (faults failed (N.faults twin.new.outbox.file.disk) (M.faults twin.new.feed.file.disk) (K.faults twin.new.cabinet))) }
    ensures ready { IsTwinReady twin.new.outbox.catalogue (standing twin.new.outbox.out twin.new.feed.stand (K.state twin.new.cabinet) twin.new.sent.items) }
    ensures catalogue { twin.new.outbox.catalogue ≡ twin.old.outbox.catalogue }
    ensures posts_told { N.told twin.new.outbox.file.disk ≡ N.told twin.old.outbox.file.disk }
    ensures marks_told { M.told twin.new.feed.file.disk ≡ M.told twin.old.feed.file.disk }
    ensures digest { digest_of twin.new.feed.file.journal ≡ digest_of twin.old.feed.file.journal }
    ensures lasts { Lasting (K.outlasts twin.old.cabinet twin.new.cabinet) (K.state twin.old.cabinet) (K.state twin.new.cabinet) }
    ensures later { O.faults output.old ≤ O.faults output.new }
{
    match twin.carry(alloc, place) {
        Ok(Some(carried)) => tell_carried(output, line, carried),
        Ok(None) => TwinLineEnd::Refused,
        Err(_) => TwinLineEnd::OutOfMemory,
    }
}

/// Gets a tile at the follower, and tells what became of it.
fn run_get<K: Keeper, M: Disk, N: Disk, S: Source, O: ByteSink>(
    alloc: Global,
    twin: &mut Twin<K, M, N>,
    source: &mut S,
    output: &mut O,
    line: u64,
    address: &Address,
) -> TwinLineEnd
    requires ready { IsTwinReady twin.old.outbox.catalogue (standing twin.old.outbox.out twin.old.feed.stand (K.state twin.old.cabinet) twin.old.sent.items) }
    requires tile { IsTile twin.old.outbox.catalogue address.now }
    ensures runs { RunsOrder twin.old.outbox.catalogue (S.told source.old) (passage (N.told twin.old.outbox.file.disk) (N.state twin.old.outbox.file.disk) (N.state twin.new.outbox.file.disk)) (Some (order.Get address.now)) line (record { writes = counts (O.faults output.old) (O.faults output.new); from = O.taken output.old; to = O.taken output.new }) (output.new ≡ output.old)
        (moment (standing twin.old.outbox.out twin.old.feed.stand (K.state twin.old.cabinet) twin.old.sent.items) (faults (S.faults source.old) (N.faults twin.old.outbox.file.disk) (M.faults twin.old.feed.file.disk) (K.faults twin.old.cabinet)))
        (moment (standing twin.new.outbox.out twin.new.feed.stand (K.state twin.new.cabinet) twin.new.sent.items) (faults (S.faults source.new) (N.faults twin.new.outbox.file.disk) (M.faults twin.new.feed.file.disk) (K.faults twin.new.cabinet))) result }
    ensures goes { GoesTo twin.old.outbox.catalogue (S.told source.old) (digest_of twin.old.feed.file.journal) (passage (M.told twin.old.feed.file.disk) (M.state twin.old.feed.file.disk) (M.state twin.new.feed.file.disk))
        (moment (standing twin.old.outbox.out twin.old.feed.stand (K.state twin.old.cabinet) twin.old.sent.items) (faults (S.faults source.old) (N.faults twin.old.outbox.file.disk) (M.faults twin.old.feed.file.disk) (K.faults twin.old.cabinet)))
        (moment (standing twin.new.outbox.out twin.new.feed.stand (K.state twin.new.cabinet) twin.new.sent.items) (faults (S.faults source.new) (N.faults twin.new.outbox.file.disk) (M.faults twin.new.feed.file.disk) (K.faults twin.new.cabinet))) }
    ensures ready { IsTwinReady twin.new.outbox.catalogue (standing twin.new.outbox.out twin.new.feed.stand (K.state twin.new.cabinet) twin.new.sent.items) }
    ensures catalogue { twin.new.outbox.catalogue ≡ twin.old.outbox.catalogue }
    ensures posts_told { N.told twin.new.outbox.file.disk ≡ N.told twin.old.outbox.file.disk }
    ensures marks_told { M.told twin.new.feed.file.disk ≡ M.told twin.old.feed.file.disk }
    ensures digest { digest_of twin.new.feed.file.journal ≡ digest_of twin.old.feed.file.journal }
    ensures source_told { S.told source.new ≡ S.told source.old }
    ensures lasts { Lasting (K.outlasts twin.old.cabinet twin.new.cabinet) (K.state twin.old.cabinet) (K.state twin.new.cabinet) }
    ensures later { O.faults output.old ≤ O.faults output.new }
{
    match twin.ask(alloc, source, address) {
        Ok(reply) => tell_got(output, line, &reply),
        Err(_) => TwinLineEnd::OutOfMemory,
    }
}

/// Lets happen what was ordered, and tells what became of it. A stop is left to the caller.
fn run_order<K: Keeper, M: Disk, N: Disk, S: Source, O: ByteSink>(
    alloc: Global,
    twin: &mut Twin<K, M, N>,
    source: &mut S,
    output: &mut O,
    line: u64,
    order: TwinOrder,
) -> TwinLineEnd
    requires ready { IsTwinReady twin.old.outbox.catalogue (standing twin.old.outbox.out twin.old.feed.stand (K.state twin.old.cabinet) twin.old.sent.items) }
    requires of { IsOrderOf twin.old.outbox.catalogue order }
    ensures runs { RunsOrder twin.old.outbox.catalogue (S.told source.old) (passage (N.told twin.old.outbox.file.disk) (N.state twin.old.outbox.file.disk) (N.state twin.new.outbox.file.disk)) (Some order) line (record { writes = counts (O.faults output.old) (O.faults output.new); from = O.taken output.old; to = O.taken output.new }) (output.new ≡ output.old)
        (moment (standing twin.old.outbox.out twin.old.feed.stand (K.state twin.old.cabinet) twin.old.sent.items) (faults (S.faults source.old) (N.faults twin.old.outbox.file.disk) (M.faults twin.old.feed.file.disk) (K.faults twin.old.cabinet)))
        (moment (standing twin.new.outbox.out twin.new.feed.stand (K.state twin.new.cabinet) twin.new.sent.items) (faults (S.faults source.new) (N.faults twin.new.outbox.file.disk) (M.faults twin.new.feed.file.disk) (K.faults twin.new.cabinet))) result }
    ensures goes { GoesTo twin.old.outbox.catalogue (S.told source.old) (digest_of twin.old.feed.file.journal) (passage (M.told twin.old.feed.file.disk) (M.state twin.old.feed.file.disk) (M.state twin.new.feed.file.disk))
        (moment (standing twin.old.outbox.out twin.old.feed.stand (K.state twin.old.cabinet) twin.old.sent.items) (faults (S.faults source.old) (N.faults twin.old.outbox.file.disk) (M.faults twin.old.feed.file.disk) (K.faults twin.old.cabinet)))
        (moment (standing twin.new.outbox.out twin.new.feed.stand (K.state twin.new.cabinet) twin.new.sent.items) (faults (S.faults source.new) (N.faults twin.new.outbox.file.disk) (M.faults twin.new.feed.file.disk) (K.faults twin.new.cabinet))) }
    ensures ready { IsTwinReady twin.new.outbox.catalogue (standing twin.new.outbox.out twin.new.feed.stand (K.state twin.new.cabinet) twin.new.sent.items) }
    ensures catalogue { twin.new.outbox.catalogue ≡ twin.old.outbox.catalogue }
    ensures posts_told { N.told twin.new.outbox.file.disk ≡ N.told twin.old.outbox.file.disk }
    ensures marks_told { M.told twin.new.feed.file.disk ≡ M.told twin.old.feed.file.disk }
    ensures digest { digest_of twin.new.feed.file.journal ≡ digest_of twin.old.feed.file.journal }
    ensures source_told { S.told source.new ≡ S.told source.old }
    ensures lasts { Lasting (K.outlasts twin.old.cabinet twin.new.cabinet) (K.state twin.old.cabinet) (K.state twin.new.cabinet) }
    ensures later { O.faults output.old ≤ O.faults output.new }
{
    laws_of_lasting::<K>();
    match order {
        TwinOrder::Post(cover) => run_post(alloc, twin, output, line, &cover),
        TwinOrder::Send => run_send(alloc, twin, output, line),
        TwinOrder::Carry(place) => run_carry(alloc, twin, output, line, place),
        TwinOrder::Stop(side) => TwinLineEnd::Stop(side),
        TwinOrder::Get(address) => run_get(alloc, twin, source, output, line, &address),
    }
}

/// The order that a line gives, of the catalogue that both sides have.
fn order_of<K: Keeper, M: Disk, N: Disk>(
    alloc: Global,
    twin: &Twin<K, M, N>,
    text: &[u8],
) -> Result<TwinOrder, UnreadTwinOrder>
    requires ready { IsTwinReady twin.now.outbox.catalogue (standing twin.now.outbox.out twin.now.feed.stand (K.state twin.now.cabinet) twin.now.sent.items) }
    ensures reads { IsReadAs (order_in twin.now.outbox.catalogue text.now) result }
    ensures of { IfOk result (IsOrderOf twin.now.outbox.catalogue) }
{
    read_order(alloc, twin.cabinet.catalogue(), text)
}

/// Lets happen what a line orders, and tells what became of it. `line` is its number.
pub(crate) fn run_line<K: Keeper, M: Disk, N: Disk, S: Source, O: ByteSink>(
    alloc: Global,
    twin: &mut Twin<K, M, N>,
    source: &mut S,
    output: &mut O,
    line: u64,
    text: &[u8],
) -> TwinLineEnd
    requires ready { IsTwinReady twin.old.outbox.catalogue (standing twin.old.outbox.out twin.old.feed.stand (K.state twin.old.cabinet) twin.old.sent.items) }
    ensures runs { RunsOrder twin.old.outbox.catalogue (S.told source.old) (passage (N.told twin.old.outbox.file.disk) (N.state twin.old.outbox.file.disk) (N.state twin.new.outbox.file.disk)) (order_in twin.old.outbox.catalogue text.now) line (record { writes = counts (O.faults output.old) (O.faults output.new); from = O.taken output.old; to = O.taken output.new }) (output.new ≡ output.old)
        (moment (standing twin.old.outbox.out twin.old.feed.stand (K.state twin.old.cabinet) twin.old.sent.items) (faults (S.faults source.old) (N.faults twin.old.outbox.file.disk) (M.faults twin.old.feed.file.disk) (K.faults twin.old.cabinet)))
        (moment (standing twin.new.outbox.out twin.new.feed.stand (K.state twin.new.cabinet) twin.new.sent.items) (faults (S.faults source.new) (N.faults twin.new.outbox.file.disk) (M.faults twin.new.feed.file.disk) (K.faults twin.new.cabinet))) result }
    ensures goes { GoesTo twin.old.outbox.catalogue (S.told source.old) (digest_of twin.old.feed.file.journal) (passage (M.told twin.old.feed.file.disk) (M.state twin.old.feed.file.disk) (M.state twin.new.feed.file.disk))
        (moment (standing twin.old.outbox.out twin.old.feed.stand (K.state twin.old.cabinet) twin.old.sent.items) (faults (S.faults source.old) (N.faults twin.old.outbox.file.disk) (M.faults twin.old.feed.file.disk) (K.faults twin.old.cabinet)))
        (moment (standing twin.new.outbox.out twin.new.feed.stand (K.state twin.new.cabinet) twin.new.sent.items) (faults (S.faults source.new) (N.faults twin.new.outbox.file.disk) (M.faults twin.new.feed.file.disk) (K.faults twin.new.cabinet))) }
    ensures ready { IsTwinReady twin.new.outbox.catalogue (standing twin.new.outbox.out twin.new.feed.stand (K.state twin.new.cabinet) twin.new.sent.items) }
    ensures catalogue { twin.new.outbox.catalogue ≡ twin.old.outbox.catalogue }
    ensures posts_told { N.told twin.new.outbox.file.disk ≡ N.told twin.old.outbox.file.disk }
    ensures marks_told { M.told twin.new.feed.file.disk ≡ M.told twin.old.feed.file.disk }
    ensures digest { digest_of twin.new.feed.file.journal ≡ digest_of twin.old.feed.file.journal }
    ensures source_told { S.told source.new ≡ S.told source.old }
    ensures lasts { Lasting (K.outlasts twin.old.cabinet twin.new.cabinet) (K.state twin.old.cabinet) (K.state twin.new.cabinet) }
    ensures later { O.faults output.old ≤ O.faults output.new }
{
    laws_of_lasting::<K>();
    match order_of(alloc, twin, text) {
        Ok(order) => run_order(alloc, twin, source, output, line, order),
        Err(UnreadTwinOrder::Refused) => TwinLineEnd::Refused,
        Err(UnreadTwinOrder::OutOfMemory) => TwinLineEnd::OutOfMemory,
    }
}
