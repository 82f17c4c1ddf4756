//! Comparison of strings by scalar values, character by character, like `String`. In both byte
//! orders the result can differ from a comparison of the bytes or of the code units.

ghost use Rattle.std.specs.Prelude.{◌≡◌, ◌↔◌, Some};
ghost use Rattle.std.specs.Cmp.{on_total, po};
ghost use Rattle.std.specs.Cmp.Lexicographic.{nat_list_cmp_total, slice_cmp};
ghost use Rattle.std.specs.Ordering.{nat_cmp};
ghost use Rattle.std.specs.declared.cmp.Ordering.TheVariants.{Equal, Greater, Less};
ghost use Rattle.std.proofs.Common.{refl};
ghost use Rattle.utf16_units.specs.TextOrder.{IsBefore};
ghost use Rattle.utf16_units.proofs.TextOrderTies.{same_ties};

use crate::WString;
use std::alloc::Allocator;
use std::cmp::Ordering;
use utf16_units::Utf16Order;

impl<E: Utf16Order, A: Allocator> PartialOrd for WString<E, A> {
    ghost use Rattle.utf16string.specs.WString.{wstring_bytes, wstring_text};

    ghost partial_cmp = { λ x y. Some (slice_cmp nat_cmp (wstring_text x) (wstring_text y)) };

    ghost laws = { po (on_total wstring_text nat_list_cmp_total)
        (λ x y. same_ties E.BIG (wstring_bytes x) (wstring_bytes y) x.well_formed y.well_formed) };

    #[inline]
    fn partial_cmp(&self, other: &Self) -> Option<Ordering> {
        Some(self.cmp(other))
    }
}

impl<E: Utf16Order, A: Allocator> Ord for WString<E, A> {
    ghost use Rattle.utf16string.specs.WString.{wstring_bytes, wstring_text};

    ghost cmp = { λ x y. slice_cmp nat_cmp (wstring_text x) (wstring_text y) };

    ghost total = { on_total wstring_text nat_list_cmp_total };

    ghost matches_partial_cmp = { λ x y. refl };

    ghost matches_eq = { λ x y. same_ties E.BIG (wstring_bytes x) (wstring_bytes y) x.well_formed
        y.well_formed };

    #[inline]
    fn cmp(&self, other: &Self) -> Ordering
        ensures cmp { result ≡ slice_cmp nat_cmp (wstring_text self.now) (wstring_text other.now) }
        ensures less { result ≡ Less ↔ IsBefore (wstring_text self.now) (wstring_text other.now) }
        ensures equal { result ≡ Equal ↔ (wstring_text self.now ≡ wstring_text other.now) }
        ensures greater { result ≡ Greater
            ↔ IsBefore (wstring_text other.now) (wstring_text self.now) }
    {
        self.as_wstr().cmp(&other.as_wstr())
    }
}
