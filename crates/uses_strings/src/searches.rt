//! A search for one text in another, by their bytes.

ghost use Rattle.std.specs.Prelude.{◌≡◌, ◌≢◌, [], IfSome, None};
ghost use Rattle.utf16_units.specs.Boundary.{IsAbsentBefore, OccursIn};
ghost use Rattle.utf16_units.specs.Encoding.{size};
ghost use Rattle.utf16string.specs.WStr.{wstr_text};

use crate::laws::occurs_at;
use utf16string::{Utf16Order, WStr};

/// Returns the offset in bytes of the first occurrence of a part in a text, or `None` if it does
/// not occur.
///
/// # Precondition
///
/// The part is not empty (check with `is_empty`).
#[tactic(auto, using(utf16_units::proofs::Rules::searches))]
pub fn first_place<E: Utf16Order>(text: WStr<E>, part: WStr<E>) -> Option<usize>
    requires { wstr_text part ≢ [] }
    ensures found { IfSome result (λ at.
        OccursIn (wstr_text text.entry) at (wstr_text part.entry)) }
    ensures first { IfSome result (λ at.
        IsAbsentBefore (wstr_text text.entry) at (wstr_text part.entry)) }
    ensures none { result ≡ None → IsAbsentBefore (wstr_text text.entry)
        (size (wstr_text text.entry)) (wstr_text part.entry) }
{
    let bytes = text.as_bytes();
    let mut at = 0;
    while at < bytes.len() {
        if occurs_at(bytes, at, part.as_bytes()) {
            return Some(at);
        }
        at += 2;
    }
    None
}
