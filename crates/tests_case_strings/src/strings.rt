//! The calls of `WString`, as cases name them. The strings are made over an allocator that fails as
//! the case says, and counts.
mod compared;
mod cut;
mod grown;
mod held;
mod joined;
pub mod made;
mod parts;
mod ranged;
mod read;
mod replaced;
mod retained;
mod taken;

pub use crate::strings::held::{Heap, left, part, string};
use tests_support::Run;
use utf16string::Utf16Order;

/// Makes a call on a string, which is the first value. If the call changes the string, adds the
/// string that it leaves. The name has no `WString::`.
pub fn call<E: Utf16Order>(run: &mut Run, name: &str) -> bool {
    let mut string = string::<E>(run);
    run.begin();
    if read::call(run, &string, name)
        || replaced::call(run, &string, name)
        || compared::call(run, &string, name)
    {
        return true;
    }
    let is_known = grown::call(run, &mut string, name)
        || cut::call(run, &mut string, name)
        || taken::call(run, &mut string, name);
    left(run, &string);
    is_known
}
