//! A law of what is replaced, proved as the contract of a function that does nothing.

ghost use Rattle.std.specs.Prelude.{◌≡◌, ◌+◌, ℕ, Bool, List};
ghost use Rattle.utf16_units.specs.Split.{lossy_text};
ghost use Rattle.utf8_bytes.specs.Split.{lossy_text as utf8_lossy_text};
ghost use Rattle.utf16_transcode.specs.Replaced.{ill_formed_count, ill_formed_utf8_count, marks, own_marks, utf8_own_marks};

/// The lossy text of any bytes has a U+FFFD for each ill-formed sequence, and those that the bytes
/// have themselves.
pub fn marks_are_counted()
    ensures utf16 { (big : Bool) (bytes : List ℕ) → marks (lossy_text big bytes)
        ≡ own_marks big bytes + ill_formed_count big bytes }
    ensures utf8 { (bytes : List ℕ) → marks (utf8_lossy_text bytes)
        ≡ utf8_own_marks bytes + ill_formed_utf8_count bytes }
{}
