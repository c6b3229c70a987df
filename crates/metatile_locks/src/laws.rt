//! What holds of all covers and metatiles.
ghost use Rattle.std.specs.Prelude.{◌≡◌};
ghost use Rattle.catalog.specs.Valid.{IsGrid};
ghost use Rattle.catalog.specs.declared.grid.Grid.{Grid};
ghost use Rattle.matrix_geometry.specs.Limits.{IsWithinLimits};
ghost use Rattle.matrix_geometry.specs.declared.matrix.Matrix.{Matrix};
ghost use Rattle.metatile_locks.specs.Reach.{is_reached, reach, reach_at};
ghost use Rattle.metatile_locks.specs.Running.{IsPlanOn, block, hits_in};
ghost use Rattle.metatile_plan.specs.Plan.{IsPlan};
ghost use Rattle.metatile_plan.specs.declared.metatile.Factors.{Factors};
ghost use Rattle.metatile_plan.specs.declared.metatile.MetaKey.{MetaKey};
ghost use Rattle.truncation_list.specs.Covers.{hits};
ghost use Rattle.truncation_list.specs.declared.cover.Cover.{Cover};

/// A cover hits a metatile exactly where the metatile is one that it reaches at its zoom. That holds of any key: where no tile of
/// it lies in the matrix it is neither hit nor reached.
pub fn laws_of_reach()
    ensures matrix { (f : Factors) (m : Matrix) (cover : Cover) (k : MetaKey) → IsPlan f m → IsWithinLimits m → hits cover m (block f m k) ≡ is_reached cover (reach f m cover) k }
    ensures grid { (f : Factors) (grid : Grid) (cover : Cover) (k : MetaKey) → IsPlanOn f grid → IsGrid grid → hits_in f grid cover k ≡ is_reached cover (reach_at f grid cover k.z) k }
{}
