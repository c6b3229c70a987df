//! What holds of all spellings.
ghost use Rattle.std.specs.Prelude.{◌≡◌, length};
ghost use Rattle.record_text.specs.Fits.{Fits};
ghost use Rattle.record_text.specs.Old.{IsOld, old_spelling};
ghost use Rattle.record_text.specs.Spelling.{spelling};
ghost use Rattle.record_text.specs.declared.entries.Record.{Record};

/// Of records whose numbers fit their fields: no two share a spelling, and each spelling has 63 bytes. A record of version 1
/// is spelled alike in both versions.
pub fn laws_of_spellings()
    ensures distinct { (a b : Record) → Fits a → Fits b → spelling a ≡ spelling b → a ≡ b }
    ensures size { (entry : Record) → Fits entry → length (spelling entry) ≡ 63 }
    ensures old { (entry : Record) → Fits entry → IsOld entry → spelling entry ≡ old_spelling entry }
{}
