//! Tests whether bytes are a text, sixteen at a time.

ghost use Rattle.std.specs.Prelude.{◌≤◌, ◌↔◌, IsTrue, length};
ghost use Rattle.std.specs.Str.{IsUtf8};

use crate::lanes::{each, greater};
use crate::limits::are_below;
use crate::read::{read_sixteen, whole_len};
use crate::short::is_short_text;

/// Returns whether at least eight bytes are well formed. From 64 bytes on a validator of blocks is
/// faster.
///
/// # Complexity
///
/// One pass over all bytes.
pub fn is_text(bytes: &[u8]) -> bool
    requires { 8 ≤ length bytes.now }
    ensures { IsTrue result ↔ IsUtf8 bytes.now }
{
    if bytes.len() <= 16 {
        return is_short_text(bytes);
    }
    let mut faults = each(0);
    let mut read = 0;
    while bytes.len() - read >= 16 {
        faults = greater(faults, read_sixteen::<4>(bytes, read).faults);
        read += 16;
    }
    // The last sixteen bytes, some of which were read before.
    faults = greater(faults, read_sixteen::<4>(bytes, bytes.len() - 16).faults);
    whole_len(bytes) == bytes.len() && are_below(faults, 1)
}
