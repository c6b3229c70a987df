//! What the turns of a thread that has a cabinet for itself come to, as the events of a request.
ghost use Rattle.std.specs.Prelude.{Bool, IfErr, List, Option, Result, Some, ℕ, ◌≡◌, ◌≤◌};
ghost use Rattle.base.specs.Causes.{Rose};
ghost use Rattle.cabinet.specs.State.{IsSound, fronted, now};
ghost use Rattle.cabinet_chest.specs.declared.shown.Note.{Note};
ghost use Rattle.cabinet_chest.specs.declared.shown.Shown.{Shown};
ghost use Rattle.cache_access.specs.Alone.{AreSteps, IsAtRest};
ghost use Rattle.cache_access.specs.Gets.{IsGot};
ghost use Rattle.cache_access.specs.Refreshes.{CameTo};
ghost use Rattle.cache_access.specs.declared.fault.GetFault.TheVariants.{SourceFault};
ghost use Rattle.cache_access.specs.declared.fault.GetFault.{GetFault};
ghost use Rattle.cache_access.specs.declared.refreshed.Refreshed.{Refreshed};
ghost use Rattle.cache_core.specs.declared.outcome.Tile.{Tile};
ghost use Rattle.cache_core.specs.declared.outcome.TileOutcome.{TileOutcome};
ghost use Rattle.catalog.specs.LookUp.{IsTile};
ghost use Rattle.catalog.specs.Valid.{IsValid};
ghost use Rattle.matrix_geometry.specs.declared.address.Address.{Address};
ghost use Rattle.metatile_plan.specs.declared.metatile.MetaKey.{MetaKey};
ghost use Rattle.raster_field.specs.Blocks.{IsMeta, first_tile};
ghost use Rattle.tile_requests.specs.Counted.{AreAllCounts, IsCounted};
ghost use Rattle.tile_requests.specs.Events.{BeginsByLine, RefreshEndsAs, RunsTo, ended_by, ended_so};
ghost use Rattle.tile_requests.specs.Immediate.{IsImmediate};
ghost use Rattle.tile_requests.specs.Served.{IsServedAtOnce};
ghost use Rattle.tile_requests.specs.Texts.{usage_text};
ghost use Rattle.tile_requests.specs.declared.outcome.Outcome.{Outcome};
ghost use Rattle.tile_requests.specs.declared.request.Mode.TheVariants.{Gets};
ghost use Rattle.tile_requests.specs.declared.request.Request.{Request};
ghost use Rattle.turnstile.specs.declared.view.Made.{Made};

/// The turns of a get, by a thread that has the cabinet for itself, are the events of the line that gets the tile, under some chance, and
/// those of a refresh the three events of a request for the metatile's first tile: no render runs before them. What is answered
/// without a render is answered so in one step.
pub fn laws_of_lone_threads()
    ensures gets { (told : Option ℕ) (x y : Shown) (a : Address) (before after : ℕ) (gained : List (Made Note)) (result : Result Tile GetFault)
        → IsTile x.state.catalogue a → IsAtRest x.state → AreSteps x.state.catalogue x gained y
        → IsGot x.state.catalogue (IsSound x.state × (told ≡ Some x.state.catalogue.source)) a (fronted (now x.state)) gained result
        → before ≤ after → IfErr result (λ e. e ≡ SourceFault → Rose before after) → (told ≡ Some x.state.catalogue.source → IsSound x.state → IsSound y.state)
        → BeginsByLine told before after x.faults y.faults x.state a Gets (ended_so (ended_by result)) y.state }
    ensures refreshes { (told : Option ℕ) (x y : Shown) (m : MetaKey) (force : Bool) (before after : ℕ) (gained : List (Made Note)) (result : Result Refreshed GetFault)
        → IsValid x.state.catalogue → IsMeta x.state.catalogue m → IsAtRest x.state → AreSteps x.state.catalogue x gained y
        → CameTo x.state.catalogue (IsSound x.state × (told ≡ Some x.state.catalogue.source)) m force (fronted (now x.state)) gained result
        → before ≤ after → IfErr result (λ e. e ≡ SourceFault → Rose before after)
        → (o : TileOutcome) × RunsTo before after x.faults y.faults x.state (first_tile x.state.catalogue m) force o y.state × RefreshEndsAs result o }
    ensures later { (x y : Shown) (gained : List (Made Note)) → AreSteps x.state.catalogue x gained y → x.faults ≤ y.faults }
    ensures usage { (x y : Shown) (gained : List (Made Note)) (text : List ℕ) → AreSteps x.state.catalogue x gained y → IsCounted x.state.catalogue gained text → (text ≡ usage_text x.state) × (y.state ≡ x.state) }
    ensures counts { (x y : Shown) (gained : List (Made Note)) → AreSteps x.state.catalogue x gained y → AreAllCounts gained → y.state ≡ x.state }
    ensures at_once { (x y : Shown) (gained : List (Made Note)) (r : Request) (o : Outcome)
        → AreSteps x.state.catalogue x gained y → IsServedAtOnce x.state.catalogue r gained o → IsImmediate x.faults y.faults x.state r o y.state }
{}
