//! The results that C gets, and the numbers in them.

ghost use Rattle.std.specs.Prelude.{◌≡◌};
ghost use Rattle.dethrux.specs.Numbers.{AreNumbers, stop_of, stop_of_status, validity_stop, validity_up_to};

use utf16_transcode::Stop;
use utf16_units::Utf16Error;

pub(crate) const DONE: u32 = 0;

pub(crate) const ILL_FORMED: u32 = 1;

const INCOMPLETE: u32 = 2;

const NO_SPACE: u32 = 3;

/// How far a call came: `dethrux_progress` of the header.
#[repr(C)]
#[derive(Clone, Copy)]
pub struct Progress {
    /// How many bytes of the input were read: whole characters, and in a lossy call the ill-formed
    /// sequences among them. A call that feeds a stream also reads the bytes that it keeps.
    pub read: usize,
    /// How many bytes were written to the start of the buffer. Those after them have no meaning.
    pub written: usize,
    /// Why the call read no more: 0 all was read, 1 an ill-formed sequence follows, 2 the input
    /// ends inside a character, 3 the next character does not fit.
    pub status: u32,
    /// The length in bytes of the ill-formed sequence with status 1, and 0 with any other.
    pub error_len: u32,
}

/// The longest well-formed prefix: `dethrux_validity` of the header.
#[repr(C)]
#[derive(Clone, Copy)]
pub struct Validity {
    /// The length of the longest well-formed prefix in bytes.
    pub valid_up_to: usize,
    /// What follows it: 0 nothing, 1 an ill-formed sequence, 2 an incomplete character.
    pub status: u32,
    /// The length in bytes of the ill-formed sequence with status 1, and 0 with any other.
    pub error_len: u32,
}

/// The BOM of a stream, and its byte order: `dethrux_bom` of the header.
#[repr(C)]
#[derive(Clone, Copy)]
pub struct Bom {
    /// The length of the BOM in bytes: 2, or 0 if there is none.
    pub len: usize,
    /// 0 little endian, 1 big endian.
    pub byte_order: u32,
    /// 0 there is no BOM, 1 there is one, 2 fewer than two bytes have come.
    pub status: u32,
}

// What C gets as the result of a call of the library.
#[inline(always)]
pub(crate) fn progress_of(progress: utf16_transcode::Progress) -> Progress
    ensures read { result.read ≡ progress.read }
    ensures written { result.written ≡ progress.written }
    ensures stop { stop_of result ≡ progress.stop }
    ensures numbers { AreNumbers result.status result.error_len }
{
    let (status, error_len) = status_of(progress.stop);
    Progress {
        read: progress.read,
        written: progress.written,
        status,
        error_len,
    }
}

// The numbers of a reason.
#[inline(always)]
pub(crate) fn status_of(stop: Stop) -> (u32, u32)
    ensures stop { stop_of_status result.0 result.1 ≡ stop }
    ensures numbers { AreNumbers result.0 result.1 }
{
    match stop {
        Stop::Done => (DONE, 0),
        Stop::IllFormed(len) => (ILL_FORMED, len as u32),
        Stop::Incomplete => (INCOMPLETE, 0),
        Stop::NoSpace => (NO_SPACE, 0),
    }
}

// What C gets as the validator's result for `len` bytes.
#[inline(always)]
pub(crate) fn validity_of(len: usize, tested: Result<(), Utf16Error>) -> Validity
    ensures valid_up_to { result.valid_up_to ≡ validity_up_to len tested }
    ensures stop { stop_of_status result.status result.error_len ≡ validity_stop tested }
    ensures numbers { AreNumbers result.status result.error_len }
{
    let Err(error) = tested else {
        return Validity {
            valid_up_to: len,
            status: DONE,
            error_len: 0,
        };
    };
    let (status, error_len) = match error.error_len() {
        Some(len) => (ILL_FORMED, len as u32),
        None => (INCOMPLETE, 0),
    };
    Validity {
        valid_up_to: error.valid_up_to(),
        status,
        error_len,
    }
}
