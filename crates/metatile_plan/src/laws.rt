//! What holds of all metatiles and their blobs.
ghost use Rattle.std.specs.Prelude.{IsTrue, ℕ, ◌+◌, ◌/◌, ◌<◌, ◌≡◌, ◌↔◌};
ghost use Rattle.matrix_geometry.specs.Limits.{IsWithinLimits};
ghost use Rattle.matrix_geometry.specs.Ranges.{is_in_range};
ghost use Rattle.matrix_geometry.specs.declared.address.Address.{Address};
ghost use Rattle.matrix_geometry.specs.declared.boxes.Range.{Range};
ghost use Rattle.matrix_geometry.specs.declared.matrix.Matrix.{Matrix};
ghost use Rattle.metatile_plan.specs.Plan.{IsBlockOf, IsIn, IsMetaIn, IsPlan, IsWindowOn, meta_of, tiles_of, window_of};
ghost use Rattle.metatile_plan.specs.Texts.{blob_len, span_of};
ghost use Rattle.metatile_plan.specs.declared.metatile.Factors.{Factors};
ghost use Rattle.metatile_plan.specs.declared.metatile.MetaKey.{MetaKey};

/// A tile of the matrix lies in the block of its metatile, of which the matrix then has some tile; and a tile in the block
/// of a metatile is one of the matrix, and its metatile is that one.
pub fn laws_of_blocks()
    ensures in_range { (r : Range) (row col : ℕ) → IsTrue (is_in_range r row col) ↔ IsIn r row col }
    ensures meta { (f : Factors) (m : Matrix) (a : Address) → IsPlan f m → a.row < m.rows → a.col < m.cols → IsMetaIn f m (meta_of f a) }
    ensures tile { (f : Factors) (m : Matrix) (a : Address) → IsPlan f m → a.row < m.rows → a.col < m.cols → IsIn (tiles_of f m (meta_of f a)) a.row a.col }
    ensures block { (f : Factors) (m : Matrix) (k : MetaKey) → IsPlan f m → IsMetaIn f m k → IsBlockOf f m (tiles_of f m k) }
    ensures row { (f : Factors) (m : Matrix) (k : MetaKey) (row col : ℕ) → IsPlan f m → IsMetaIn f m k → IsIn (tiles_of f m k) row col → (row < m.rows) × (row / f.y ≡ k.row) }
    ensures col { (f : Factors) (m : Matrix) (k : MetaKey) (row col : ℕ) → IsPlan f m → IsMetaIn f m k → IsIn (tiles_of f m k) row col → (col < m.cols) × (col / f.x ≡ k.col) }
{}

/// The window of a metatile has the pixels of its tiles, and lies within the matrix.
pub fn laws_of_windows()
    ensures { (f : Factors) (m : Matrix) (k : MetaKey) → IsWithinLimits m → IsPlan f m → IsMetaIn f m k → IsWindowOn m (tiles_of f m k) (window_of f m k) }
{}

/// The encoded tiles of a block stand in its blob row by row and without a gap: the first begins at 0, each further one
/// where the one before it ends, and the last one ends where the blob does.
pub fn laws_of_spans()
    ensures first { (f : Factors) (m : Matrix) (k : MetaKey) → (span_of f m k (tiles_of f m k).row_min (tiles_of f m k).col_min).start ≡ 0 }
    ensures right { (f : Factors) (m : Matrix) (k : MetaKey) (row col : ℕ) → IsIn (tiles_of f m k) row col → (span_of f m k row (col + 1)).start ≡ (span_of f m k row col).start + (span_of f m k row col).length }
    ensures down { (f : Factors) (m : Matrix) (k : MetaKey) (row : ℕ) → IsIn (tiles_of f m k) row (tiles_of f m k).col_max → (span_of f m k (row + 1) (tiles_of f m k).col_min).start ≡ (span_of f m k row (tiles_of f m k).col_max).start + (span_of f m k row (tiles_of f m k).col_max).length }
    ensures last { (f : Factors) (m : Matrix) (k : MetaKey) → IsIn (tiles_of f m k) (tiles_of f m k).row_max (tiles_of f m k).col_max → (span_of f m k (tiles_of f m k).row_max (tiles_of f m k).col_max).start + (span_of f m k (tiles_of f m k).row_max (tiles_of f m k).col_max).length ≡ blob_len f m k }
{}
