//! Latin-1 and UTF-16.

ghost use Rattle.std.specs.Prelude.{◌≡◌, ◌≢◌, ◌-◌, ◌*◌, ◌/◌, ◌≤◌, drop, if◌then◌else◌, length, min, nat_le, take};
ghost use Rattle.utf16_units.specs.Encoding.{Encodes};
ghost use Rattle.utf16_transcode.specs.declared.progress.Stop.TheVariants.{Done, NoSpace};
ghost use Rattle.utf16_fixed.specs.StopsLatin1.{StopsLatin1};
ghost use Rattle.utf16_fixed.specs.declared.latin1_stop.Latin1Stop.TheVariants as latin1;
ghost use Rattle.dethrux.specs.Numbers.{AreLatin1Numbers, AreNumbers, is_big, latin1_stop_of, stop_of};

use crate::byte_order::in_order;
use crate::results::{Progress, progress_of};
use utf16_fixed::{Latin1Stop, from_latin1, to_latin1};

const NOT_LATIN1: u32 = 4;

/// Converts UTF-16 to Latin-1, up to the first ill-formed sequence or the first character above
/// U+00FF, or as far as the buffer has space. With status 3 the buffer is full: call again with the
/// rest. With status 4 a character above U+00FF follows, whether the buffer is full or not. The
/// bytes after the written ones are unchanged. In time linear in what is read.
#[unsafe(no_mangle)]
pub extern "C" fn dethrux_to_latin1(byte_order: u32, utf16: &[u8], to: &mut [u8]) -> Progress
    ensures read { result.read ≡ 2 * result.written }
    ensures within { result.read ≤ length utf16.now }
    ensures fits { result.written ≤ length to.new }
    ensures encoding { Encodes (is_big byte_order) (take result.written to.new)
        (take result.read utf16.now) }
    ensures rest { drop result.written to.new ≡ drop result.written to.old }
    ensures stop { StopsLatin1 (is_big byte_order) utf16.now result.read
        (length to.new - result.written) (latin1_stop_of result) }
    ensures succeeds { length utf16.now / 2 ≤ length to.old
        → latin1_stop_of result ≢ latin1.NoSpace }
    ensures numbers { AreLatin1Numbers result.status result.error_len }
{
    latin1_progress(in_order!(byte_order, to_latin1(utf16, to)))
}

// What C gets as the result of a conversion to Latin-1.
#[inline(always)]
fn latin1_progress(progress: utf16_fixed::Progress<Latin1Stop>) -> Progress
    ensures read { result.read ≡ progress.read }
    ensures written { result.written ≡ progress.written }
    ensures stop { latin1_stop_of result ≡ progress.stop }
    ensures numbers { AreLatin1Numbers result.status result.error_len }
{
    let (status, error_len) = match progress.stop {
        Latin1Stop::Done => (0, 0),
        Latin1Stop::IllFormed(len) => (1, len as u32),
        Latin1Stop::Incomplete => (2, 0),
        Latin1Stop::NoSpace => (3, 0),
        Latin1Stop::NotLatin1 => (NOT_LATIN1, 0),
    };
    Progress {
        read: progress.read,
        written: progress.written,
        status,
        error_len,
    }
}

/// Converts Latin-1 to UTF-16, as far as it fits. The status is 0, or 3 if fewer than two bytes are
/// left: call again with the rest. The bytes after the written ones are unchanged. In time linear
/// in what is read.
#[unsafe(no_mangle)]
pub extern "C" fn dethrux_from_latin1(byte_order: u32, latin1: &[u8], to: &mut [u8]) -> Progress
    ensures read { result.read ≡ min (length latin1.now) (length to.old / 2) }
    ensures written { result.written ≡ 2 * result.read }
    ensures encoding { Encodes (is_big byte_order) (take result.read latin1.now)
        (take result.written to.new) }
    ensures rest { drop result.written to.new ≡ drop result.written to.old }
    ensures stop { stop_of result
        ≡ if nat_le (length latin1.now) (length to.old / 2) then Done else NoSpace }
    ensures numbers { AreNumbers result.status result.error_len }
{
    progress_of(in_order!(byte_order, from_latin1(latin1, to)))
}
