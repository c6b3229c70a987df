//! The order that a line gives.
ghost use Rattle.std.specs.List.{starts_with};
ghost use Rattle.std.specs.Prelude.{◌≡◌, IfOk, IsTrue, drop, length, nat_eq};
ghost use Rattle.catalog.specs.Valid.{IsValid};
ghost use Rattle.catalog.specs.declared.catalogue.Catalogue.{Catalogue};
ghost use Rattle.job_forms.specs.Cover.{cover_of};
ghost use Rattle.twin_lines.specs.Orders.{IsOrderOf, IsReadAs, carry_of, get_in, order_in, post_of, tile_of};
ghost use Rattle.wmts_kvp.specs.Reading.{query_reading};

use crate::order::{LinkSide, TwinOrder};
use catalog::Catalogue;
use job_forms::{JobFault, read_cover};
use schedule_text::LINE_LIMIT;
use std::alloc::Global;
use wmts_kvp::{Query, is_number, read_query, short_number};

/// Why a line gives no order.
#[derive(Clone, Copy, PartialEq, Eq)]
pub enum UnreadTwinOrder {
    /// It has none of the forms, or its cover or its query is refused.
    Refused,
    /// Memory ran out.
    OutOfMemory,
}

/// The post of the cover that a text is.
fn read_post(
    alloc: Global,
    catalogue: &Catalogue,
    text: &[u8],
) -> Result<TwinOrder, UnreadTwinOrder>
    requires { IsValid catalogue.now }
    ensures reads { IsReadAs (post_of (cover_of catalogue.now text.now)) result }
    ensures of { IfOk result (IsOrderOf catalogue.now) }
{
    match read_cover(alloc, catalogue, text) {
        Ok(cover) => Ok(TwinOrder::Post(cover)),
        Err(JobFault::OutOfMemory) => Err(UnreadTwinOrder::OutOfMemory),
        Err(_) => Err(UnreadTwinOrder::Refused),
    }
}

/// The carrying of the packet whose place 1 to 18 digits name.
#[tactic(auto, using(wmts_kvp::proofs::Numbers::digits_of_number))]
fn read_carry(digits: &[u8]) -> Result<TwinOrder, UnreadTwinOrder>
    ensures reads { IsReadAs (carry_of digits.now) result }
    ensures of { (c : Catalogue) → IfOk result (IsOrderOf c) }
{
    if digits.len() > 18 {
        return Err(UnreadTwinOrder::Refused);
    }
    if !is_number(digits) {
        return Err(UnreadTwinOrder::Refused);
    }
    Ok(TwinOrder::Carry(short_number(digits)))
}

/// The asking for the tile of a query.
fn read_tile(
    alloc: Global,
    catalogue: &Catalogue,
    query: &[u8],
) -> Result<TwinOrder, UnreadTwinOrder>
    requires { IsValid catalogue.now }
    ensures reads { IsReadAs (tile_of (query_reading catalogue.now query.now)) result }
    ensures of { IfOk result (IsOrderOf catalogue.now) }
{
    match read_query(alloc, catalogue, query) {
        Ok(Query::Tile(address)) => Ok(TwinOrder::Get(address)),
        Ok(_) => Err(UnreadTwinOrder::Refused),
        Err(_) => Err(UnreadTwinOrder::OutOfMemory),
    }
}

/// The asking for the tile of a query that has no blank.
fn read_get(
    alloc: Global,
    catalogue: &Catalogue,
    query: &[u8],
) -> Result<TwinOrder, UnreadTwinOrder>
    requires { IsValid catalogue.now }
    ensures reads { IsReadAs (get_in catalogue.now query.now) result }
    ensures of { IfOk result (IsOrderOf catalogue.now) }
{
    if query.contains(&b' ') {
        return Err(UnreadTwinOrder::Refused);
    }
    read_tile(alloc, catalogue, query)
}

/// What stands behind a word that a line begins with.
fn behind<'a>(line: &'a [u8], word: &[u8]) -> &'a [u8]
    requires { IsTrue (starts_with nat_eq line.now word.now) }
    ensures { result.now ≡ drop (length word.now) line.now }
{
    match line.strip_prefix(word) {
        Some(text) => text,
        None => line,
    }
}

/// The order that a line gives.
#[tactic(auto, unfolding(crate::specs::Orders::order_in))]
pub(crate) fn read_order(
    alloc: Global,
    catalogue: &Catalogue,
    line: &[u8],
) -> Result<TwinOrder, UnreadTwinOrder>
    requires { IsValid catalogue.now }
    ensures reads { IsReadAs (order_in catalogue.now line.now) result }
    ensures of { IfOk result (IsOrderOf catalogue.now) }
{
    if line.len() > LINE_LIMIT {
        return Err(UnreadTwinOrder::Refused);
    }
    if line.starts_with(b"POST ") {
        return read_post(alloc, catalogue, behind(line, b"POST "));
    }
    if line == b"SEND".as_slice() {
        return Ok(TwinOrder::Send);
    }
    if line.starts_with(b"CARRY ") {
        return read_carry(behind(line, b"CARRY "));
    }
    if line == b"STOP L".as_slice() {
        return Ok(TwinOrder::Stop(LinkSide::Leader));
    }
    if line == b"STOP F".as_slice() {
        return Ok(TwinOrder::Stop(LinkSide::Follower));
    }
    if line.starts_with(b"GET /wmts?") {
        return read_get(alloc, catalogue, behind(line, b"GET /wmts?"));
    }
    Err(UnreadTwinOrder::Refused)
}
