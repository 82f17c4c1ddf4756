//! Texts compared without the case of ASCII letters.

ghost use Rattle.std.specs.Prelude.{◌≡◌, ◌↔◌, IsTrue, map};
ghost use Rattle.std.specs.Char.{to_ascii_lowercase};
ghost use Rattle.utf16_str.specs.WStr.{wstr_text};

use crate::WStr;
use utf16_units::Utf16Order;

impl<'a, E: Utf16Order> WStr<'a, E> {
    /// Returns `true` if the texts are the same in ASCII lower case. Other characters are compared
    /// as they are.
    ///
    /// # Complexity
    ///
    /// One pass over both, up to the first character that differs, in constant memory.
    ///
    /// # Source
    ///
    /// `str::eq_ignore_ascii_case`.
    pub fn eq_ignore_ascii_case(&self, other: WStr<E>) -> bool
        ensures { IsTrue result ↔ (map to_ascii_lowercase (wstr_text self.now)
            ≡ map to_ascii_lowercase (wstr_text other.entry)) }
    {
        let mut theirs = other.chars();
        for c in self.chars() {
            let Some(d) = theirs.next() else {
                return false;
            };
            if !c.eq_ignore_ascii_case(&d) {
                return false;
            }
        }
        theirs.next().is_none()
    }
}
