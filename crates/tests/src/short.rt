//! Every string of at most four of eight chosen bytes, cut in every way. The stream decoder and the
//! plain loop that follows the error's fields return and keep what the tests' own decoder does.

use crate::checks::equal;
use std::process::Abort;
use tests_support::plain::decode;
use uses_buffers::headline::{resume, resumed};
use utf16_tools::{Lossy, decode_pieces};
use utf16string::{BE, LE, Utf16Order};

// Zero, a letter, the first and the last high byte of a leading and of a trailing surrogate, and
// high bytes after them.
const TELLING: [u8; 8] = [0x00, 0x41, 0xD8, 0xDB, 0xDC, 0xDF, 0xE0, 0xFF];

// Returns the byte string of that length and number: the digits of the number to the base eight.
fn telling(rt: &(impl Abort + AllocGlobal), len: u32, number: usize) -> Vec<u8> {
    let mut bytes = Vec::new(rt.alloc());
    let mut number = number;
    for _ in 0..len {
        bytes.push(TELLING[number % 8]).expect(rt, "memory");
        number /= 8;
    }
    bytes
}

// Returns the bytes cut after each one whose bit is set; the bit of the first byte is the lowest.
fn cut(rt: &(impl Abort + AllocGlobal), bytes: &[u8], cuts: u64) -> Vec<Vec<u8>> {
    let mut pieces = Vec::new(rt.alloc());
    let mut piece = Vec::new(rt.alloc());
    let mut cuts = cuts;
    for byte in bytes {
        piece.push(*byte).expect(rt, "memory");
        if cuts % 2 == 1 {
            pieces.push(piece).expect(rt, "memory");
            piece = Vec::new(rt.alloc());
        }
        cuts /= 2;
    }
    pieces.push(piece).expect(rt, "memory");
    pieces
}

// Returns two to the power of the number of bytes: the number of ways to cut or not to cut after
// each of them.
fn ways(bytes: &[u8]) -> u64 {
    let mut ways: u64 = 1;
    for _ in bytes {
        ways = ways.saturating_mul(2);
    }
    ways
}

// Checks the plain loop over the chunks, with the bytes that it kept before each.
fn collect_by_loop<E: Utf16Order>(
    rt: &(impl Abort + AllocGlobal),
    pieces: &[Vec<u8>],
    wanted: &str,
    kept: &[u8],
) {
    let mut text = String::new(rt.alloc());
    let mut rest = Vec::new(rt.alloc());
    for piece in pieces {
        rest.extend_from_slice(piece).expect(rt, "memory");
        let left = resume::<E, _>(&rest, &mut text).expect(rt, "memory");
        rest = left.to_vec(rt.alloc()).expect(rt, "memory");
    }
    equal(rt, (text.as_str(), rest.as_slice()), (wanted, kept));
}

// Checks a decoder that is fed the chunks, and its whole text with U+FFFD for pending bytes.
fn fed<E: Utf16Order>(
    rt: &(impl Abort + AllocGlobal),
    pieces: &[Vec<u8>],
    wanted: &str,
    kept: &[u8],
) {
    let mut text = String::new(rt.alloc());
    let mut decoder = Lossy::<E>::new();
    for piece in pieces {
        let answer = decoder.feed(rt.alloc(), piece).expect(rt, "memory");
        text.push_str(answer.as_str()).expect(rt, "memory");
    }
    equal(rt, (text.as_str(), decoder.pending()), (wanted, kept));
    if let Some(replacement) = decoder.finish() {
        text.push(replacement).expect(rt, "memory");
    }
    let whole = decode_pieces::<E, _, _>(rt.alloc(), pieces).expect(rt, "memory");
    equal(rt, whole.as_str(), text.as_str());
    let loops = resumed::<E, _, _, _>(rt.alloc(), rt.alloc(), pieces).expect(rt, "memory");
    equal(rt, loops.as_str(), text.as_str());
}

fn at_every_chunking<E: Utf16Order>(rt: &(impl Abort + AllocGlobal), bytes: &[u8]) {
    let mut wanted = String::new(rt.alloc());
    let tail = decode(E::BIG, bytes, &mut wanted).expect(rt, "memory");
    let kept = bytes
        .get(bytes.len().saturating_sub(tail)..)
        .expect(rt, "an end");
    for cuts in 0..ways(bytes).div_ceil(2) {
        let pieces = cut(rt, bytes, cuts);
        collect_by_loop::<E>(rt, &pieces, wanted.as_str(), kept);
        fed::<E>(rt, &pieces, wanted.as_str(), kept);
    }
}

// A bug that no clause excludes: a definition of the specs, which the bodies meet, differs from the
// Standard at a byte at which a class of code units begins or ends.
#[test]
fn all_short_strings_of_telling_bytes(rt: HostRuntime) {
    for (len, numbers) in [(0, 1), (1, 8), (2, 64), (3, 512), (4, 4096)] {
        for number in 0..numbers {
            let bytes = telling(&rt, len, number);
            at_every_chunking::<LE>(&rt, &bytes);
            at_every_chunking::<BE>(&rt, &bytes);
        }
    }
}
