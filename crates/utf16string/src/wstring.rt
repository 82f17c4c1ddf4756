//! An owned UTF-16 string.

mod ascii;
mod byte_order;
mod capacity;
mod cmp;
mod copies;
mod cuts;
mod extends;
mod inserts;
mod overwrites;
mod ranges;
mod repeats;
mod replaces;
mod retains;
mod utf8;
mod writes;

ghost use Rattle.std.specs.Prelude.{◌≡◌, ◌==◌, ◌↔◌, ℕ, [], length, IsTrue, IsOk, IfOk, IfErr, IsSome, IfSome, Some, All, ◌<◌, ◌≤◌, ◌^◌, List, chars, nat_eq, encode_utf8_all, string_bytes, true, false};
ghost use Rattle.std.specs.Cmp.{on_equiv, on_per, partial_equiv_from_equiv};
ghost use Rattle.std.specs.Cmp.Lexicographic.{nat_list_eq_equiv, pointwise};
ghost use Rattle.std.specs.Cmp.Rules.{hashing};
ghost use Rattle.std.specs.Iterator.{YieldsFirst, YieldsLast};
ghost use Rattle.std.specs.Iterator.Runs.{YieldsInOrder, YieldsInReverse};
ghost use Rattle.std.proofs.Common.{rules};
ghost use Rattle.utf16_units.specs.Boundary.{IsBoundary};
ghost use Rattle.utf16_units.specs.Encoding.{Encodes, IsUtf16, is_utf16, size};
ghost use Rattle.utf16_units.specs.Utf16Error.{IsErrorOf};
ghost use Rattle.utf16_str.specs.Offsets.{IsCharAt, char_offsets};
ghost use Rattle.utf16_str.specs.WStr.{wstr_bytes, wstr_text};
ghost use Rattle.utf16_str.specs.Window.{IsRangeOf, range_bytes, range_text};

use std::alloc::{AllocError, Allocator, Global};
use std::fmt;
use std::hash::{Hash, Hasher};
use std::marker::PhantomData;
use utf16_str::{SliceIndex, WStr, WStrCharIndices, WStrChars};
use utf16_units::{BigEndian, LittleEndian, Utf16Error, Utf16Order, validate_raw_utf16};

/// An owned UTF-16 string in the byte order `E`, in memory of the allocator `A`. It is always well
/// formed. Lengths, offsets and capacities count bytes. A capacity larger than a vector can have
/// counts as a failed allocation.
#[derive(Drop)]
pub struct WString<E: Utf16Order, A: Allocator = Global> {
    raw: Vec<u8, A>,
    order: PhantomData<E>,
    ghost well_formed: { is_utf16 E.BIG raw.items ≡ true },
}

impl<E: Utf16Order, A: Allocator> WString<E, A> {
    ghost use Rattle.utf16string.specs.WString.{wstring_bytes, wstring_capacity, wstring_text, wstring_vec};

    /// Returns an empty string, which keeps the allocator for later.
    ///
    /// # Complexity
    ///
    /// Allocates nothing.
    #[inline]
    pub fn new(alloc: A) -> Self
        ensures text { wstring_text result ≡ [] }
        ensures bytes { wstring_bytes result ≡ [] }
        ensures capacity { wstring_capacity result ≡ 0 }
    {
        Self::from_utf16_unchecked(Vec::new(alloc))
    }

    /// Returns an empty string with a capacity of at least `capacity` bytes.
    ///
    /// # Errors
    ///
    /// `AllocError`, if allocation fails. It does not fail, and allocates nothing, if `capacity` is
    /// 0.
    #[inline]
    pub fn with_capacity(alloc: A, capacity: usize) -> Result<Self, AllocError>
        ensures text { IfOk result (λ s. wstring_text s ≡ []) }
        ensures bytes { IfOk result (λ s. wstring_bytes s ≡ []) }
        ensures reserved { IfOk result (λ s. capacity ≤ wstring_capacity s) }
        ensures nothing { capacity ≡ 0 → IsOk result }
        ensures empty { capacity ≡ 0 → IfOk result (λ s. wstring_capacity s ≡ 0) }
    {
        let buf = Vec::with_capacity(alloc, capacity)?;
        Ok(Self::from_utf16_unchecked(buf))
    }

    /// Converts a vector of bytes to a string if the bytes are well formed in byte order `E`.
    ///
    /// # Errors
    ///
    /// [`Utf16Error`], if the bytes are ill-formed: the length of the longest valid prefix and what
    /// follows it. The vector is dropped.
    ///
    /// # Complexity
    ///
    /// One pass over the bytes. Copies nothing.
    #[inline]
    pub fn from_utf16(buf: Vec<u8, A>) -> Result<Self, Utf16Error>
        ensures ok { IsOk result ↔ IsUtf16 E.BIG buf.items }
        ensures vec { IfOk result (λ s. wstring_vec s ≡ buf) }
        ensures encoding { IfOk result (λ s. Encodes E.BIG (wstring_text s) buf.items) }
        ensures error { IfErr result (IsErrorOf E.BIG buf.items) }
    {
        validate_raw_utf16::<E>(&buf)?;
        Ok(Self::from_utf16_unchecked(buf))
    }

    /// Converts a vector of bytes to a string without validation.
    ///
    /// # Precondition
    ///
    /// The bytes are well formed in byte order `E` (check with `WStr::from_utf16`).
    #[inline]
    pub fn from_utf16_unchecked(buf: Vec<u8, A>) -> Self
        requires { IsUtf16 E.BIG buf.items }
        ensures vec { wstring_vec result ≡ buf }
        ensures encoding { Encodes E.BIG (wstring_text result) buf.items }
    {
        WString {
            raw: buf,
            order: PhantomData,
        }
    }

    /// Returns the bytes, which encode the text, in the vector of the string.
    #[inline]
    pub fn into_bytes(self) -> Vec<u8, A>
        ensures vec { result ≡ wstring_vec self }
        ensures encoding { Encodes E.BIG (wstring_text self) result.items }
    {
        self.raw
    }

    /// Returns a view of the whole text.
    #[inline]
    pub fn as_wstr(&self) -> WStr<'_, E>
        ensures bytes { wstr_bytes result ≡ wstring_bytes self.now }
        ensures text { wstr_text result ≡ wstring_text self.now }
    {
        WStr::from_utf16_unchecked(&self.raw)
    }

    /// Returns the capacity: how many bytes the string can hold without allocation, including the
    /// bytes of the text.
    #[inline]
    pub fn capacity(&self) -> usize
        ensures capacity { result ≡ wstring_capacity self.now }
        ensures held { length (wstring_bytes self.now) ≤ result }
    {
        self.raw.capacity()
    }

    /// Returns the length of the text in bytes, which is a character boundary.
    #[inline]
    pub fn len(&self) -> usize
        ensures bytes { result ≡ length (wstring_bytes self.now) }
        ensures size { result ≡ size (wstring_text self.now) }
        ensures boundary { IsBoundary (wstring_text self.now) result }
    {
        self.as_wstr().len()
    }

    /// Returns whether the text is empty.
    #[inline]
    pub fn is_empty(&self) -> bool
        ensures empty { IsTrue result ↔ (wstring_text self.now ≡ []) }
        ensures value { result ≡ (length (wstring_text self.now) == 0) }
    {
        self.as_wstr().is_empty()
    }

    /// Returns the bytes, which encode the text.
    #[inline]
    pub fn as_bytes(&self) -> &[u8]
        ensures bytes { result.now ≡ wstring_bytes self.now }
        ensures encoding { Encodes E.BIG (wstring_text self.now) result.now }
    {
        self.as_wstr().as_bytes()
    }

    /// Returns whether a byte offset is a character boundary: the start, the end, or an offset
    /// between two characters. Any offset is allowed.
    #[inline]
    pub fn is_char_boundary(&self, index: usize) -> bool
        ensures { IsTrue result ↔ IsBoundary (wstring_text self.now) index }
    {
        self.as_wstr().is_char_boundary(index)
    }

    /// Returns the substring at a range of byte offsets, or `None` if its start is after its end,
    /// or an end is not a character boundary.
    #[inline]
    pub fn get<I: SliceIndex<E>>(&self, index: I) -> Option<WStr<'_, E>>
        ensures some { IsSome result ↔ IsRangeOf E.BIG (wstring_bytes self.now) (I.window index) }
        ensures part { IfSome result (λ part.
            wstr_text part ≡ range_text E.BIG (wstring_bytes self.now) (I.window index)) }
        ensures bytes { IfSome result (λ part.
            wstr_bytes part ≡ range_bytes (wstring_bytes self.now) (I.window index)) }
    {
        self.as_wstr().get(index)
    }

    /// Returns the substring at a range of byte offsets.
    ///
    /// # Precondition
    ///
    /// The start is at most the end, and both are character boundaries (check with `get`).
    #[inline]
    pub fn get_unchecked<I: SliceIndex<E>>(&self, index: I) -> WStr<'_, E>
        requires { IsRangeOf E.BIG (wstring_bytes self.now) (I.window index) }
        ensures text { wstr_text result ≡ range_text E.BIG (wstring_bytes self.now)
            (I.window index) }
        ensures bytes { wstr_bytes result ≡ range_bytes (wstring_bytes self.now) (I.window index) }
    {
        self.as_wstr().get_unchecked(index)
    }

    /// Returns the substring at a range of byte offsets. This replaces `s[a..b]`.
    ///
    /// # Precondition
    ///
    /// The start is at most the end, and both are character boundaries (check with `get`).
    #[inline]
    pub fn index<I: SliceIndex<E>>(&self, index: I) -> WStr<'_, E>
        requires { IsRangeOf E.BIG (wstring_bytes self.now) (I.window index) }
        ensures text { wstr_text result ≡ range_text E.BIG (wstring_bytes self.now)
            (I.window index) }
        ensures bytes { wstr_bytes result ≡ range_bytes (wstring_bytes self.now) (I.window index) }
    {
        self.as_wstr().index(index)
    }

    /// Returns an iterator over the characters, in order. The clauses of `WStr::chars` hold here as
    /// well.
    #[inline]
    pub fn chars(&self) -> WStrChars<'_, E>
        ensures text { result ≡ wstring_text self.now }
        ensures bound { length result < 2 ^ 64 }
        ensures runs { YieldsInOrder (YieldsFirst (λ (rest : List ℕ). rest)) (λ rest. rest) }
        ensures runs_back { YieldsInReverse (YieldsLast (λ (rest : List ℕ). rest)) (λ rest. rest) }
    {
        self.as_wstr().chars()
    }

    /// Returns an iterator over the characters, in order, each with its byte offset. The clauses of
    /// `WStr::char_indices` hold here as well.
    #[inline]
    pub fn char_indices(&self) -> WStrCharIndices<'_, E>
        ensures text { result ≡ char_offsets 0 (wstring_text self.now) }
        ensures offsets { All (IsCharAt (wstring_text self.now)) result }
        ensures bound { length result < 2 ^ 64 }
        ensures runs { YieldsInOrder (YieldsFirst (λ (rest : List (ℕ × ℕ)). rest)) (λ rest. rest) }
        ensures runs_back { YieldsInReverse (YieldsLast (λ (rest : List (ℕ × ℕ)). rest))
            (λ rest. rest) }
    {
        self.as_wstr().char_indices()
    }

    /// Returns whether all characters are ASCII, below U+0080.
    #[inline]
    pub fn is_ascii(&self) -> bool
        ensures { IsTrue result ↔ All (λ c. c < 0x80) (wstring_text self.now) }
    {
        self.as_wstr().is_ascii()
    }

    /// Returns a new `String` with the same characters, in UTF-8.
    ///
    /// # Errors
    ///
    /// `AllocError`, if allocation fails. It does not fail for the empty text.
    ///
    /// # Complexity
    ///
    /// Allocates once, for as many bytes as the characters take, but at least eight, and not at all
    /// for the empty text.
    #[inline]
    pub fn to_utf8<B: Allocator>(&self, alloc: B) -> Result<String<B>, AllocError>
        ensures text { IfOk result (λ s.
            string_bytes s ≡ encode_utf8_all (wstring_text self.now)) }
        ensures nothing { wstring_text self.now ≡ [] → IsOk result }
    {
        self.as_wstr().to_utf8(alloc)
    }
}

impl<A: Allocator> WString<LittleEndian, A> {
    ghost use Rattle.utf16string.specs.WString.{wstring_text, wstring_vec};

    /// Converts a vector of little-endian bytes, like `from_utf16`.
    #[inline]
    pub fn from_utf16le(buf: Vec<u8, A>) -> Result<Self, Utf16Error>
        ensures ok { IsOk result ↔ IsUtf16 false buf.items }
        ensures vec { IfOk result (λ s. wstring_vec s ≡ buf) }
        ensures encoding { IfOk result (λ s. Encodes false (wstring_text s) buf.items) }
        ensures error { IfErr result (IsErrorOf false buf.items) }
    {
        WString::<LittleEndian, A>::from_utf16(buf)
    }

    /// Converts a vector of little-endian bytes without validation, like `from_utf16_unchecked`.
    #[inline]
    pub fn from_utf16le_unchecked(buf: Vec<u8, A>) -> Self
        requires { IsUtf16 false buf.items }
        ensures vec { wstring_vec result ≡ buf }
        ensures encoding { Encodes false (wstring_text result) buf.items }
    {
        WString::<LittleEndian, A>::from_utf16_unchecked(buf)
    }
}

impl<A: Allocator> WString<BigEndian, A> {
    ghost use Rattle.utf16string.specs.WString.{wstring_text, wstring_vec};

    /// Converts a vector of big-endian bytes, like `from_utf16`.
    #[inline]
    pub fn from_utf16be(buf: Vec<u8, A>) -> Result<Self, Utf16Error>
        ensures ok { IsOk result ↔ IsUtf16 true buf.items }
        ensures vec { IfOk result (λ s. wstring_vec s ≡ buf) }
        ensures encoding { IfOk result (λ s. Encodes true (wstring_text s) buf.items) }
        ensures error { IfErr result (IsErrorOf true buf.items) }
    {
        WString::<BigEndian, A>::from_utf16(buf)
    }

    /// Converts a vector of big-endian bytes without validation, like `from_utf16_unchecked`.
    #[inline]
    pub fn from_utf16be_unchecked(buf: Vec<u8, A>) -> Self
        requires { IsUtf16 true buf.items }
        ensures vec { wstring_vec result ≡ buf }
        ensures encoding { Encodes true (wstring_text result) buf.items }
    {
        WString::<BigEndian, A>::from_utf16_unchecked(buf)
    }
}

impl<E: Utf16Order, A: Allocator> fmt::Display for WString<E, A> {
    ghost use Rattle.utf16string.specs.WString.{wstring_text};

    ghost output = { λ s. Some (encode_utf8_all (wstring_text s)) };

    // Width, fill and precision are ignored.
    ghost styled_output = { λ s _. Some (encode_utf8_all (wstring_text s)) };

    fn fmt<W: fmt::Write>(&self, f: &mut fmt::Formatter<W>) -> fmt::Result {
        fmt::Display::fmt(&self.as_wstr(), f)
    }
}

impl<E: Utf16Order, A: Allocator> fmt::Debug for WString<E, A> {
    fn fmt<W: fmt::Write>(&self, f: &mut fmt::Formatter<W>) -> fmt::Result {
        f.debug_struct("WString")
            .field("raw", &self.as_bytes())
            .finish()
    }
}

impl<E: Utf16Order, A: Allocator> PartialEq for WString<E, A> {
    ghost use Rattle.utf16string.specs.WString.{wstring_bytes, wstring_text};

    ghost eq = { λ x y. pointwise nat_eq (wstring_bytes x) (wstring_bytes y) };

    ghost laws = { on_per wstring_bytes (partial_equiv_from_equiv nat_list_eq_equiv) };

    #[inline]
    fn eq(&self, other: &Self) -> bool
        ensures bytes { result ≡ pointwise nat_eq (wstring_bytes self.now)
            (wstring_bytes other.now) }
        ensures texts { IsTrue result ↔ (wstring_text self.now ≡ wstring_text other.now) }
    {
        self.as_wstr() == other.as_wstr()
    }
}

impl<E: Utf16Order, A: Allocator> Eq for WString<E, A> {
    ghost use Rattle.utf16string.specs.WString.{wstring_bytes};

    ghost laws = { on_equiv wstring_bytes nat_list_eq_equiv };
}

impl<E: Utf16Order, A: Allocator> Hash for WString<E, A> {
    ghost use Rattle.utf16_str.specs.Hash.{hash_writes};
    ghost use Rattle.utf16string.specs.WString.{wstring_bytes};

    ghost hash_input = { λ s. hash_writes (wstring_bytes s) };

    ghost respects_eq = { Prim.search (hashing, rules) };

    #[inline]
    fn hash<H: Hasher>(&self, state: &mut H) {
        self.as_wstr().hash(state);
    }
}
