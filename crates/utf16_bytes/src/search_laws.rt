//! The laws of occurrences, each proved as the contract of a function that does nothing.
//!
//! The body of a function cites a law by a call of its function, a proof file by the lemma in the
//! module `Rattle.utf16_bytes.proofs.OccurrenceLemmas`.

ghost use Rattle.utf16_bytes.specs.SearchLaws.{OccurrenceInText, TextAroundPart, UnitsCutNoPair};

/// The encoding of a part occurs in the encoding of a text exactly where the part occurs in the
/// text, as a list of characters.
pub fn occurrence_in_text()
    ensures { OccurrenceInText }
{}

/// If a part occurs at an offset, the text is the characters before it, the part, and the
/// characters after it.
pub fn text_around()
    ensures { TextAroundPart }
{}

/// If the part is not empty, its encoding occurs at each even offset at which its bytes are: in
/// well-formed text they cut no surrogate pair.
pub fn units_cut_no_pair()
    ensures { UnitsCutNoPair }
{}
