//! A range type that a user defines, which no case can express.

use crate::checks::{equal, view};
use std::process::Abort;
use tests_support::texts::PXG;
use uses_strings::ranges::{Field, part_to_utf8};
use utf16string::LE;

// Checks the substring of a field, in UTF-8.
fn part_is(rt: &(impl Abort + AllocGlobal), raw: &[u8], field: Field, wanted: Option<&str>) {
    match part_to_utf8(rt.alloc(), view::<LE>(rt, raw), field).expect(rt, "memory") {
        Some(part) => equal(rt, Some(part.as_str()), wanted),
        None => equal(rt, None, wanted),
    }
}

// A bug that it would catch: the built code does not call the user's method of the trait.
#[test]
fn a_range_of_a_users_own(rt: HostRuntime) {
    part_is(&rt, &PXG, Field { start: 4, len: 2 }, Some("x"));
    part_is(&rt, &PXG, Field { start: 4, len: 3 }, None);
    let (start, len) = (4, usize::MAX);
    part_is(&rt, &PXG, Field { start, len }, None);
}
