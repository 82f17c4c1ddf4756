//! The laws of UTF-16 that users of the format rely on, each proved as the contract of a function
//! that does nothing.
//!
//! The body of a function cites a law by a call of its function, a proof file by the lemma of that
//! name in the module `Rattle.utf16_units.proofs.LawProofs`. The statements are in
//! `specs/Laws.antt`. They depend only on the definitions, and hold for all texts, all bytes and
//! both byte orders.
#![tactic(auto, using(crate::proofs::LawProofs::laws))]

ghost use Rattle.std.specs.Prelude.{◌<◌, All};
ghost use Rattle.utf16_units.specs.Laws.{BeforeFollows, BeforeTotal, BoundaryCuts, CutAnywhere, EncodedText, FoundAligned, FoundExactly, InsertThenRemove, ItemsStay, JoinedText, MoreAfter, NoneContinues, RecipeIsSplit, ResumesIsSplit, ShownWithin, SplitExists, SplitExtends, SplitThenPush, SplitUnique, SwappedOrders, TextIsShown, TwoNeverContinues, UniqueText, Utf8Back};

/// Two texts with equal encodings in one byte order are equal.
pub fn unique_text()
    ensures { UniqueText }
{}

/// The encoding of two texts concatenated is the concatenation of their encodings.
pub fn joined_text()
    ensures { JoinedText }
{}

/// If the encoding of a text that is not empty occurs in a text's bytes at an even offset, both
/// ends of the occurrence are boundaries.
pub fn found_aligned()
    ensures { FoundAligned }
{}

/// The encodings of a text in the two byte orders differ exactly by swapping the two bytes of each
/// code unit.
pub fn swapped_orders()
    ensures { SwappedOrders }
{}

/// Inserting a character at a boundary and then removing the character at that boundary gives that
/// character and the original text.
pub fn insert_then_remove()
    ensures { InsertThenRemove }
{}

/// Splitting off the part from a boundary on and then appending it gives the original text.
pub fn split_then_push()
    ensures { SplitThenPush }
{}

/// The characters decoded from a text's UTF-8 are the text.
pub fn utf8_back()
    ensures { Utf8Back }
{}

/// Bytes whose error has length 2 are not a prefix of any text.
pub fn two_never_continues()
    ensures { TwoNeverContinues }
{}

/// Bytes whose error has no length are a prefix of a text: in little endian always; in big endian
/// exactly if the bytes after the longest valid prefix are neither one byte 0xDC to 0xDF nor a
/// leading surrogate and one byte outside 0xDC to 0xDF.
pub fn none_continues()
    ensures { NoneContinues }
{}

/// Any bytes decompose into characters, unpaired surrogates and a tail that more bytes could
/// change. The computed decomposition, the split, is such a decomposition.
pub fn split_exists()
    ensures { SplitExists }
{}

/// Bytes decompose in one way only.
pub fn split_unique()
    ensures { SplitUnique }
{}

/// If more bytes follow, the items of the decomposition stay, and the tail followed by these bytes
/// gives the others: a stream can be decoded in chunks, keeping no more of a chunk than its tail.
pub fn split_extends()
    ensures { SplitExtends }
{}

/// A reader that resumes decoding with `valid_up_to` and `error_len` gets the text of the
/// decomposition, with one U+FFFD (replacement character) for each unpaired surrogate, and what it
/// keeps is the tail.
pub fn recipe_is_split()
    ensures { RecipeIsSplit }
{}

/// A reader that resumes in this way over the chunks of a stream, however it is cut, gets the text
/// of the decomposition of the joined chunks, with one U+FFFD for each unpaired surrogate. What it
/// keeps at the end is the tail.
pub fn resumes_is_split()
    ensures { ResumesIsSplit }
{}

/// The lossy text of well-formed bytes is the text that they encode, and their tail is empty.
pub fn text_is_shown()
    ensures { TextIsShown }
{}

/// Decoded items never change when more bytes follow.
pub fn items_stay()
    ensures { ItemsStay }
{}

/// The text of a stream cut in two is the text of the first chunk, followed by the text of its tail
/// and the second chunk. So the text does not depend on where a stream is cut.
pub fn cut_anywhere()
    ensures { CutAnywhere }
{}

/// n bytes have at most n / 2 items, which take at most 3 n / 2 bytes in UTF-8. With U+FFFD for an
/// incomplete end they take at most (3 n + 3) / 2.
pub fn shown_within()
    ensures { ShownWithin }
{}

/// Of two texts exactly one holds: the first is before the second, they are equal, or the second is
/// before the first.
pub fn before_total()
    ensures { BeforeTotal }
{}

/// If one text is before a second, and the second is before a third, the first is before the third.
pub fn before_follows()
    ensures { BeforeFollows }
{}

/// The start and the end of a text are boundaries, and the substring between them is the text. A
/// boundary is at most the size; the substrings before and after it have the sizes that it gives,
/// and joined they are the text.
pub fn boundary_cuts()
    ensures { BoundaryCuts }
{}

/// If more is appended to a text, its boundaries and the substrings between them stay, and what was
/// appended is the substring after them.
pub fn more_after()
    ensures { MoreAfter }
{}

/// A text that is not empty occurs in another exactly at the even offsets at which its bytes occur
/// in the other's bytes.
pub fn found_exactly()
    ensures { FoundExactly }
{}

/// Bytes that encode a text are well formed, decode to that text, and are as long as its size.
pub fn encoded_text()
    ensures { EncodedText }
{}

/// Bytes are below 256, as the type of their slice says.
#[inline(always)]
pub fn are_bytes(bytes: &[u8])
    ensures { All (λ b. b < 256) bytes.now }
{}
