//! Tables whose keys are strings.

ghost use Rattle.std.specs.Prelude.{◌≡◌, ◌↔◌, IfOk, IsTrue, Some};
ghost use Rattle.std.specs.Cmp.Lexicographic.{slice_cmp};
ghost use Rattle.std.specs.List.{Any, list_any};
ghost use Rattle.std.specs.Ordering.{is_eq, nat_cmp};
ghost use Rattle.utf16string.specs.WString.{wstring_text};

use std::alloc::AllocError;
use std::collections::{BTreeMap, BTreeSet};
use utf16string::{Utf16Order, WString};

/// Inserts a value with a copy of a name as its key, and reads it back with the name.
pub fn write_and_read<E: Utf16Order>(
    table: &mut BTreeMap<WString<E>, u32>,
    name: &WString<E>,
    value: u32,
) -> Result<Option<u32>, AllocError>
    ensures { IfOk result (λ read. read ≡ Some value) }
{
    let key = name.clone()?;
    if table.insert(key, value).is_err() {
        return Err(AllocError);
    }
    Ok(table.get(name).copied())
}

/// Returns whether a set has a string that is equal to a name. The contract uses std's terms.
pub fn is_in<E: Utf16Order>(known: &BTreeSet<WString<E>>, name: &WString<E>) -> bool
    ensures { result ≡ list_any
        (λ key. is_eq (slice_cmp nat_cmp (wstring_text name.now) (wstring_text key)))
        known.now.keys }
{
    known.contains(name)
}

/// Returns whether a set has a string with this text.
pub fn is_known<E: Utf16Order>(known: &BTreeSet<WString<E>>, name: &WString<E>) -> bool
    ensures { IsTrue result ↔ Any (λ key. wstring_text key ≡ wstring_text name.now)
        known.now.keys }
{
    is_in(known, name)
}
