//! The table of a sheet: what each seat knows, and the rule that ties it to the words.
//!
//! Word 0 counts the claims, and has the mark of a cancelled job; word 1 counts the places reported done, and in its upper half those of
//! these that were not kept, so that one step counts a place in both; word 2 counts those reported failed.
use crate::standing::SheetStanding;
use atomic_table::TableRule;

/// What a table is made with: how many places and hands there are.
#[derive(Drop)]
pub struct SheetSize {
    pub places: u64,
    pub hands: u64,
}

/// What a seat knows. No value of it is made.
///
/// A seat is `live` until it is joined into another one. A hand's has its number. The first seat has dealt out so many
/// hands, and every other one counts all as dealt. `seen` is how the sheet stood at the seat's last step, and `heard` is
/// what another one told it, which a later load takes in.
pub struct SeatView {
    pub live: bool,
    pub places: u64,
    pub hands: u64,
    pub number: Option<u64>,
    pub dealt: u64,
    pub seen: SheetStanding,
    pub heard: SheetStanding,
}

/// The rule of the table: one standing, which all views fit.
pub struct OneStanding;

impl TableRule<(), SeatView, SheetSize> for OneStanding {
    ghost use Rattle.job_board.specs.Rule.{Kept};
    ghost use Rattle.job_board.specs.Views.{dealer};

    ghost holds = { λ size. Kept size };

    ghost first = { λ size. dealer size 0 };
}
