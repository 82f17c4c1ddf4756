//! The laws of boundaries, each proved as the contract of a function that does nothing.
//!
//! The body of a function cites a law by a call of its function, a proof file by the lemma of that
//! name in the modules `CutLemmas` and `PartsLemmas` of `Rattle.utf16_bytes.proofs`.

ghost use Rattle.utf16_bytes.specs.CutLaws.{CutText, CutsText};

/// The lossy text of any bytes is the text of the bytes before a boundary, followed by the text of
/// the bytes after it: each part can be decoded by itself.
pub fn cut_text()
    ensures { CutText }
{}

/// The lossy text of any bytes is the texts of their parts between ascending boundaries, one after
/// another, for any number of parts.
pub fn cuts_text()
    ensures { CutsText }
{}
