//! The laws of boundaries, each proved as the contract of a function that does nothing.
//!
//! The body of a function cites a law by a call of its function, a proof file by the lemma of that
//! name in the module `Rattle.utf8_bytes.proofs.CutLawProofs`.

ghost use Rattle.utf8_bytes.specs.CutLaws.{CutText, CutsText, TextBoundaries};

/// The lossy text of any bytes is the text of the bytes before a boundary, followed by the text of
/// the bytes after it: each part can be decoded by itself.
pub fn cut_text()
    ensures { CutText }
{}

/// The lossy text of any bytes is the texts of their parts between ascending boundaries, one after
/// another.
pub fn cuts_text()
    ensures { CutsText }
{}

/// In well-formed UTF-8 the boundaries are the same as for `str::is_char_boundary`.
pub fn text_boundaries()
    ensures { TextBoundaries }
{}
