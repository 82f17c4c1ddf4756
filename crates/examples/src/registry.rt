//! Lines of a registry export: `"name"="value"`.

ghost use Rattle.std.specs.Prelude.{◌≡◌, ◌↔◌, [], ◌∷◌, ℕ, List, IfNone, IfSome, IsTrue};
ghost use Rattle.examples.specs.Registry.{IsLine};
ghost use Rattle.utf16string.specs.WStr.{wstr_text};

use utf16string::{Utf16Order, WStr};

/// Returns the name and the value of a line, or `None` if the line has another form. Neither
/// contains a quote. Copies nothing.
pub fn entry<'a, E: Utf16Order>(line: WStr<'a, E>) -> Option<(WStr<'a, E>, WStr<'a, E>)>
    ensures some { IfSome result (λ entry.
        IsLine (wstr_text line.entry) (wstr_text entry.0) (wstr_text entry.1)) }
    ensures none { IfNone result ((name value : List ℕ)
        → ¬ (IsLine (wstr_text line.entry) name value)) }
{
    let mut parts = line.split('"');
    let before = parts.next()?;
    let name = parts.next()?;
    let equals = parts.next()?;
    let value = parts.next()?;
    let after = parts.next()?;
    if parts.next().is_some() {
        return None;
    }
    if before.is_empty() && is_equals_sign(equals) && after.is_empty() {
        Some((name, value))
    } else {
        None
    }
}

fn is_equals_sign<E: Utf16Order>(text: WStr<E>) -> bool
    ensures { IsTrue result ↔ (wstr_text text.entry ≡ 0x3D ∷ []) }
{
    text.strip_prefix('=').is_some_and(|rest| rest.is_empty())
}
