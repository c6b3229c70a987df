//! Which metatiles a cover of the catalogue hits.
ghost use Rattle.std.specs.Prelude.{Some, slice_get, ◌≡◌};
ghost use Rattle.cabinet.specs.Hits.{hits_of};
ghost use Rattle.catalog.specs.Valid.{IsGrid, IsValid};
ghost use Rattle.metatile_locks.specs.Running.{IsPlanOn, hits_in, overtaken};
ghost use Rattle.metatile_plan.specs.declared.metatile.MetaKey.{MetaKey};
ghost use Rattle.raster_field.specs.Blocks.{factors_of};
ghost use Rattle.served_covers.specs.OfCatalogue.{IsCoverOf};

use catalog::{Catalogue, Grid};
use metatile_locks::Locks;
use metatile_plan::Factors;
use truncation_list::Cover;

/// The grid of a cover.
#[tactic(auto, using(catalog::proofs::Found::some_told, catalog::proofs::Found::some_before))]
pub fn grid_of<'a>(catalogue: &'a Catalogue, cover: &Cover) -> &'a Grid
    requires valid { IsValid catalogue.now }
    requires cover { IsCoverOf catalogue.now cover.now }
    ensures grid { slice_get catalogue.now.grids cover.now.grid ≡ Some result.now }
    ensures valid { IsGrid result.now }
{
    catalogue.grid(cover.grid)
}

/// How the metatiles of a cover's layer are gathered.
#[tactic(auto, using(catalog::proofs::Found::some_told))]
pub fn factors_of(catalogue: &Catalogue, cover: &Cover, grid: &Grid) -> Factors
    requires valid { IsValid catalogue.now }
    requires cover { IsCoverOf catalogue.now cover.now }
    requires grid { slice_get catalogue.now.grids cover.now.grid ≡ Some grid.now }
    ensures plan { IsPlanOn result grid.now }
    ensures hits { (m : MetaKey) → hits_in result grid.now cover.now m ≡ hits_of catalogue.now cover.now m }
{
    raster_field::factors_of(catalogue.layer(cover.layer))
}

/// Marks with a truncation's number each running render of which the cover is for a tile.
pub fn overtake(locks: &mut Locks, catalogue: &Catalogue, cover: &Cover, number: u64)
    requires valid { IsValid catalogue.now }
    requires cover { IsCoverOf catalogue.now cover.now }
    ensures { locks.new.renders ≡ overtaken (hits_of catalogue.now cover.now) number locks.old.renders }
{
    let grid = grid_of(catalogue, cover);
    let factors = factors_of(catalogue, cover, grid);
    locks.overtake(&factors, grid, cover, number);
}
