//! What a search looks for.

ghost use Rattle.std.specs.Prelude.{◌≡◌, ◌↔◌, ◌++◌, All, IfSome, IsSome, List, ℕ};
ghost use Rattle.std.specs.Char.{IsScalar};
ghost use Rattle.utf16_units.specs.Encoding.{IsUtf16, encode, size};
ghost use Rattle.utf16_bytes.specs.Occurrence.{IsFirst, IsLast, IsOccurrence};

use utf16_units::Utf16Order;

/// What a search looks for, and what a text may begin or end with: a text in the same byte order,
/// or a character.
pub trait Pattern<E: Utf16Order>: Copy {
    // The characters that are looked for.
    ghost part: { Self → List ℕ };

    /// Returns the length of the pattern's encoding.
    fn encoded_len(self) -> usize
        ensures { result ≡ size (part self) };

    /// Returns the least offset at which the pattern's encoding occurs in bytes of UTF-16.
    fn first_in(self, bytes: &[u8]) -> Option<usize>
        ensures scalars { All IsScalar (part self) }
        ensures first { IsFirst (IsOccurrence E.BIG bytes.now (encode E.BIG (part self))) result };

    /// Returns what `first_in` returns, for bytes in which the pattern occurs early: a search that
    /// starts quickly.
    ///
    /// # Precondition
    ///
    /// `bytes` are well-formed UTF-16 in the byte order `E` (check with
    /// `utf16_units::validate_raw_utf16`).
    fn next_in(self, bytes: &[u8]) -> Option<usize>
        requires { IsUtf16 E.BIG bytes.now }
        ensures scalars { All IsScalar (part self) }
        ensures first { IsFirst (IsOccurrence E.BIG bytes.now (encode E.BIG (part self))) result };

    /// Returns the greatest offset at which the pattern's encoding occurs in bytes of UTF-16.
    fn last_in(self, bytes: &[u8]) -> Option<usize>
        ensures scalars { All IsScalar (part self) }
        ensures last { IsLast (IsOccurrence E.BIG bytes.now (encode E.BIG (part self))) result };

    /// Returns the length of the pattern's encoding, or `None` if bytes of UTF-16 do not begin with
    /// it.
    fn prefix_len(self, bytes: &[u8]) -> Option<usize>
        ensures scalars { All IsScalar (part self) }
        ensures some { IsSome result ↔ ((rest : List ℕ)
            × (bytes.now ≡ encode E.BIG (part self) ++ rest)) }
        ensures len { IfSome result (λ len. len ≡ size (part self)) };

    /// Returns the length of the pattern's encoding, or `None` if bytes of UTF-16 do not end with
    /// it.
    fn suffix_len(self, bytes: &[u8]) -> Option<usize>
        ensures scalars { All IsScalar (part self) }
        ensures some { IsSome result ↔ ((front : List ℕ)
            × (bytes.now ≡ front ++ encode E.BIG (part self))) }
        ensures len { IfSome result (λ len. len ≡ size (part self)) };
}
