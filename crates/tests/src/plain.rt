//! The plain decoder of `tests_support`, with which the tests of streams compare results.

use std::process::Abort;
use std::test::Fail;
use tests_support::plain::to_utf8_lossy;
use tests_support::texts::{characters, faults};

fn is(rt: &(impl Abort + AllocGlobal), big: bool, bytes: &[u8], wanted: &[u8]) -> Result<(), Fail> {
    let mut text = String::new(rt.alloc());
    to_utf8_lossy(big, bytes, &mut text)?;
    assert_eq!(rt; text.as_bytes(), wanted);
    Ok(())
}

// A bug that no clause excludes: the tests' own decoder, which has no contract, has the same bug as
// the library's.
#[test]
fn known_bytes_have_their_texts(rt: HostRuntime) -> Result<(), Fail> {
    for (_, little, big, utf8) in &characters() {
        is(&rt, false, little, utf8)?;
        is(&rt, true, big, utf8)?;
    }
    for (big, bytes, .., text) in &faults() {
        is(&rt, *big, bytes, text.as_bytes())?;
    }
    Ok(())
}
