//! What holds of all composites.
ghost use Rattle.std.specs.Prelude.{◌≡◌, List, Some, ℕ};
ghost use Rattle.catalog.specs.LookUp.{matrix_in};
ghost use Rattle.catalog.specs.declared.catalogue.Catalogue.{Catalogue};
ghost use Rattle.layer_recipes.specs.Composite.{composite, laid_over, told_parts};
ghost use Rattle.layer_recipes.specs.declared.place.TilePlace.{TilePlace};
ghost use Rattle.layer_recipes.specs.declared.recipe.Part.{Part};
ghost use Rattle.matrix_geometry.specs.declared.matrix.Matrix.{Matrix};

/// Where each part's text is its encoded tile in the picture of its number, the text that they are laid to is the composite.
pub fn laws_of_composites()
    ensures { (c : Catalogue) (place : TilePlace) (m : Matrix) (parts : List Part) (numbers : List ℕ) → matrix_in c place.grid place.z ≡ Some m → laid_over m (told_parts c place parts numbers) ≡ composite c place parts numbers }
{}
