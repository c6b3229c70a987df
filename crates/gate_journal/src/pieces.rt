//! The slots of a half that is to hold some records, as they are written: a piece of them at a time.
ghost use Rattle.std.specs.Prelude.{◌≡◌, ◌+◌, ◌*◌, ◌<◌, ◌≤◌, ◌^◌, ℕ, length};
ghost use Rattle.disk_model.specs.Content.{bytes_at};
ghost use Rattle.gate_journal.specs.Sound.{slot_of};

/// A slot of a half that is to hold these bodies.
#[tactic(auto, using(crate::proofs::Filling::slot_opened, crate::proofs::Filling::slot_past))]
fn filled_slot(bodies: &[[u8; 63]], k: u64) -> [u8; 64]
    ensures { result ≡ slot_of bodies.now k }
{
    let mut slot = [0; 64];
    let k = k as usize;
    if k < bodies.len() {
        slot[..63].copy_from_slice(&bodies[k]);
        slot[63] = 1;
    }
    slot
}

/// Puts slots of a half that is to hold these bodies into a piece, one behind the other: so many, from this one on.
#[tactic(auto, using(crate::proofs::Filling::piece_more))]
pub(crate) fn fill_piece(bodies: &[[u8; 63]], first: u64, count: u64, piece: &mut [u8])
    requires size { length piece.old ≡ 64 * count }
    requires limit { first + count ≤ 2 ^ 40 }
    ensures { (k : ℕ) → k < count → bytes_at piece.new (64 * k) 64 ≡ slot_of bodies.now (first + k) }
{
    for k in 0..count {
        let at = 64 * k as usize;
        piece[at..at + 64].copy_from_slice(&filled_slot(bodies, first + k));
    }
}
