//! The laws of WTF-8, each proved as the contract of a function that does nothing.
//!
//! The body of a function cites a law by a call of its function, a proof file by the lemma of that
//! name in the module `Rattle.utf16_wtf8.proofs.LawProofs`. The statements are in
//! `specs/Laws.antt`. They depend only on the definitions, and hold for all code units.
#![tactic(auto, using(crate::proofs::LawProofs::laws))]

ghost use Rattle.utf16_wtf8.specs.Laws.{BackAndThere, Concatenates, CutAnywhere, LenIsFew, LenIsMaximal, NoneIfTruncated, PairHasThree, RestIsWtf8, ReturnsToWtf8, ThereAndBack, TruncatedHasNone, UnitsAreUnique, UnitsAreWtf8, Utf8IfWellFormed, Wtf8HasUnits};

/// The code units of the code points of any code units are these units: nothing is lost.
pub fn there_and_back()
    ensures { ThereAndBack }
{}

/// The code points of the code units of any code points are these points, if no leading surrogate
/// is directly followed by a trailing one.
pub fn back_and_there()
    ensures { BackAndThere }
{}

/// The WTF-8 of any code units is WTF-8.
pub fn units_are_wtf8()
    ensures { UnitsAreWtf8 }
{}

/// Every WTF-8 is the WTF-8 of some code units.
pub fn wtf8_has_units()
    ensures { Wtf8HasUnits }
{}

/// Different code units have different WTF-8.
pub fn units_are_unique()
    ensures { UnitsAreUnique }
{}

/// The WTF-8 of code units is UTF-8 exactly if the units are well-formed UTF-16.
pub fn utf8_if_well_formed()
    ensures { Utf8IfWellFormed }
{}

/// The code points of a stream of UTF-16 cut in two are those that the first chunk decides, and
/// then the points of its tail and the second chunk. So they do not depend on where a stream is
/// cut.
pub fn cut_anywhere()
    ensures { CutAnywhere }
{}

/// The UTF-16 that `from_wtf8` writes for WTF-8 has that WTF-8, so `to_wtf8` writes it again.
pub fn returns_to_wtf8()
    ensures { ReturnsToWtf8 }
{}

/// WTF-8 followed by WTF-8 is WTF-8, unless a leading surrogate at the end of the first and a
/// trailing one at the start of the second make a pair.
pub fn concatenates()
    ensures { Concatenates }
{}

/// If WTF-8 begins with WTF-8, the rest is WTF-8 too.
pub fn rest_is_wtf8()
    ensures { RestIsWtf8 }
{}

/// If no code point begins the bytes, the ill-formed sequence is as long as the
/// Standard's maximal subpart of an ill-formed subsequence, unless the bytes end before it is
/// decided.
pub fn len_is_maximal()
    ensures { LenIsMaximal }
{}

/// If no code point begins the bytes, more bytes may complete them exactly if all of them are the
/// beginning of one code point.
pub fn none_if_truncated()
    ensures { NoneIfTruncated }
{}

/// The ill-formed sequence at a trailing surrogate after a leading one is its three bytes.
pub fn pair_has_three()
    ensures { PairHasThree }
{}

/// An ill-formed sequence has one to three bytes, and no more than there are.
pub fn len_is_few()
    ensures { LenIsFew }
{}

/// The beginning of a code point is incomplete and not ill-formed, even if it is the beginning of a
/// trailing surrogate after a leading one.
pub fn truncated_has_none()
    ensures { TruncatedHasNone }
{}
