//! Several texts appended, or collected into a string.

use crate::strings::held::{Heap, made};
use std::alloc::AllocError;
use tests_support::{Run, Trouble};
use utf16string::{Utf16Order, WStr, WString};

// Views of texts in UTF-16.
fn views_of<'p, E: Utf16Order>(run: &mut Run, pieces: &'p [Vec<u8>]) -> Vec<WStr<'p, E>> {
    let mut views = Vec::new(run.alloc);
    for piece in pieces {
        let added = match WStr::from_utf16(piece.as_slice()) {
            Ok(view) => views.push(view).is_ok(),
            Err(_) => false,
        };
        if !added {
            run.refuse(Trouble::Value);
        }
    }
    views
}

// Texts in UTF-8.
fn strs_of<'p>(run: &mut Run, pieces: &'p [Vec<u8>]) -> Vec<&'p str> {
    let mut strs = Vec::new(run.alloc);
    for piece in pieces {
        let added = match str::from_utf8(piece.as_slice()) {
            Ok(text) => strs.push(text).is_ok(),
            Err(_) => false,
        };
        if !added {
            run.refuse(Trouble::Value);
        }
    }
    strs
}

/// Appends views.
pub fn views<E: Utf16Order>(
    run: &mut Run,
    string: &mut WString<E, Heap>,
) -> Result<(), AllocError> {
    let pieces = run.pieces();
    let views = views_of::<E>(run, &pieces);
    Extend::extend(string, views)
}

/// Appends texts in UTF-8.
pub fn strs<E: Utf16Order>(run: &mut Run, string: &mut WString<E, Heap>) -> Result<(), AllocError> {
    let pieces = run.pieces();
    let strs = strs_of(run, &pieces);
    Extend::extend(string, strs)
}

/// Collects views into a string.
pub fn from_views<E: Utf16Order>(run: &mut Run) {
    let pieces = run.pieces();
    let views = views_of::<E>(run, &pieces);
    run.begin();
    let found: Result<WString<E, Heap>, AllocError> = views.into_iter().collect(run.heap);
    made(run, found);
}

/// Collects texts in UTF-8 into a string.
pub fn from_strs<E: Utf16Order>(run: &mut Run) {
    let pieces = run.pieces();
    let strs = strs_of(run, &pieces);
    run.begin();
    let found: Result<WString<E, Heap>, AllocError> = strs.into_iter().collect(run.heap);
    made(run, found);
}
