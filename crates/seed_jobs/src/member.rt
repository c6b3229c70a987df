//! A member of a crew.
use crate::gate::Gate;
use cabinet::Keeper;
use cabinet_chest::CabinetChest;
use job_board::Hand;
use job_places::Tally;
use source_render::Source;
use turnstile::Pass;

/// A worker of a crew, with what it came to.
#[derive(Drop)]
pub struct Member<K: Keeper, S: Source, G: Gate> {
    pub hand: Hand,
    pub pass: Pass<CabinetChest<K>>,
    pub source: S,
    pub gate: G,
    pub tally: Tally,
}
