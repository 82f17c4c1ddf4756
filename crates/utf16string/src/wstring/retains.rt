//! The characters of a string that a predicate keeps.

ghost use Rattle.std.specs.Prelude.{◌≡◌};
ghost use Rattle.utf16string.specs.Retain.{IsAskable, Retains, RetainsTo};

use crate::WString;
use crate::retain::retain_in_place;
use std::alloc::Allocator;
use utf16_units::Utf16Order;

impl<E: Utf16Order, A: Allocator> WString<E, A> {
    ghost use Rattle.utf16string.specs.WString.{wstring_capacity, wstring_text};

    /// Keeps the characters for which the predicate returns `true`, in order, and removes the
    /// others. The predicate is called once for each character, from first to last, and keeps its
    /// state from call to call.
    ///
    /// # Precondition
    ///
    /// The predicate may be called on each character in turn. For a closure that may be called on
    /// anything, this is proved automatically. For other predicates, such as a counter that must
    /// not overflow, the lemma `IsAskable-by` of `proofs/Predicates.antt` takes a fact that each
    /// call preserves.
    ///
    /// # Complexity
    ///
    /// Linear time, in place. Moves nothing before the first character that is removed. Allocates
    /// nothing, and the capacity stays.
    #[inline]
    pub fn retain<F: FnMut(char) -> bool>(&mut self, f: F)
        requires { IsAskable F.FnMut f (wstring_text self.old) }
        ensures text { Retains F.FnMut f (wstring_text self.old) (wstring_text self.new) }
        ensures capacity { wstring_capacity self.new ≡ wstring_capacity self.old }
    {
        let mut f = f;
        self.retain_by(&mut f);
    }

    /// Does the same as `retain`, with a predicate that you keep, so that you can read its state
    /// afterwards.
    pub fn retain_by<F: FnMut(char) -> bool>(&mut self, f: &mut F)
        requires { IsAskable F.FnMut f.old (wstring_text self.old) }
        ensures text { RetainsTo F.FnMut f.old (wstring_text self.old) (wstring_text self.new)
            f.new }
        ensures capacity { wstring_capacity self.new ≡ wstring_capacity self.old }
    {
        let kept = retain_in_place::<E, F>(self.raw.as_mut_slice(), f);
        self.raw.truncate(kept);
    }
}
