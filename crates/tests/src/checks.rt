//! Assertions that the tests share, and functions that make views and strings.

ghost use Rattle.std.specs.Prelude.{IsTrue};

use std::fmt::Debug;
use std::process::Abort;
use utf16string::{Utf16Order, WStr, WString};

/// Asserts that the value found is the expected one.
pub fn equal<T: PartialEq + Debug + Drop>(rt: &impl Abort, found: T, wanted: T) {
    assert_eq!(rt; found, wanted);
}

/// Asserts that a claim holds.
pub fn holds(rt: &impl Abort, is: bool)
    ensures { IsTrue is }
{
    assert!(rt; is);
}

/// Returns a view of these bytes, which are text.
pub fn view<'a, E: Utf16Order>(rt: &impl Abort, raw: &'a [u8]) -> WStr<'a, E> {
    WStr::from_utf16(raw).expect(rt, "text")
}

/// Returns a string of these bytes, which are text, with no spare capacity.
pub fn string<E: Utf16Order>(rt: &(impl Abort + AllocGlobal), raw: &[u8]) -> WString<E> {
    let bytes = raw.to_vec(rt.alloc()).expect(rt, "memory");
    WString::from_utf16(bytes).expect(rt, "text")
}

/// Returns a string of this text, with no spare capacity.
pub fn encoded<E: Utf16Order>(rt: &(impl Abort + AllocGlobal), text: &str) -> WString<E> {
    WString::from_str(rt.alloc(), text).expect(rt, "memory")
}
