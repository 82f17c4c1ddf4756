//! Strings made, and taken whole.

ghost use Rattle.std.specs.Prelude.{IfSome};
ghost use Rattle.utf16string.specs.Encoding.{IsUtf16};

use crate::strings::held::{Heap, left, made, part, string};
use crate::strings::joined;
use crate::views::made::{MakingCall, refused};
use std::alloc::AllocError;
use tests_support::{Run, Trouble};
use utf16string::{BigEndian, LittleEndian, Utf16Error, Utf16Order, WStr, WString};

/// Makes a call that makes a string, or takes one whole.
pub fn call<E: Utf16Order>(run: &mut Run, name: &str) -> bool {
    match name {
        "new" => new::<E>(run),
        "with_capacity" => with_capacity::<E>(run),
        "from_str" => from_str::<E>(run),
        "from_wstr" => from_wstr::<E>(run),
        "from_iter" => from_iter::<E>(run),
        "from_iter_wstr" => joined::from_views::<E>(run),
        "from_iter_str" => joined::from_strs::<E>(run),
        "into_byte_order" => into_byte_order::<E>(run),
        "into_bytes" => into_bytes::<E>(run),
        _ => return of_bytes::<E>(run, name),
    }
    true
}

// Makes a call that makes a string from bytes. The calls for one byte order are made only in that
// order.
fn of_bytes<E: Utf16Order>(run: &mut Run, name: &str) -> bool {
    match MakingCall::named(name) {
        Some(MakingCall::AnyUnchecked) => unchecked::<E>(run),
        Some(MakingCall::LittleUnchecked) => unchecked_le::<E>(run),
        Some(MakingCall::BigUnchecked) => unchecked_be::<E>(run),
        Some(call) => tested::<E>(run, call),
        None => return false,
    }
    true
}

fn new<E: Utf16Order>(run: &mut Run) {
    run.begin();
    left(run, &WString::<E, Heap>::new(run.heap));
}

// The result also says whether the capacity is enough for that many bytes.
fn with_capacity<E: Utf16Order>(run: &mut Run) {
    let capacity = run.number();
    run.begin();
    let found = WString::<E, Heap>::with_capacity(run.heap, capacity);
    if let Ok(string) = &found {
        run.answer.word("capacity");
        run.answer.truth(capacity <= string.capacity());
    }
    made(run, found);
}

// Adds a string that was made, or the fields of the error.
fn made_or_error<E: Utf16Order>(run: &mut Run, made: Result<WString<E, Heap>, Utf16Error>) {
    match made {
        Ok(string) => left(run, &string),
        Err(error) => refused(&mut run.answer, error),
    }
}

// The bytes are in the memory of the case, so a vector that is refused and not freed counts as
// leaked.
fn tested<E: Utf16Order>(run: &mut Run, call: MakingCall) {
    let Ok(raw) = run.bytes().to_vec(run.heap) else {
        return run.refuse(Trouble::Memory);
    };
    match call {
        MakingCall::Any => made_or_error(run, WString::<E, Heap>::from_utf16(raw)),
        MakingCall::Little if !E::BIG => made_or_error(run, WString::from_utf16le(raw)),
        MakingCall::Big if E::BIG => made_or_error(run, WString::from_utf16be(raw)),
        _ => run.unmet(),
    }
}

// Takes bytes that are a text.
fn text<E: Utf16Order>(run: &mut Run) -> Option<Vec<u8>>
    ensures { IfSome result (λ raw. IsUtf16 E.BIG raw.items) }
{
    let raw = run.bytes();
    match WStr::<E>::from_utf16(&raw) {
        Ok(_) => Some(raw),
        Err(_) => {
            run.unmet();
            None
        }
    }
}

fn unchecked<E: Utf16Order>(run: &mut Run) {
    if let Some(raw) = text::<E>(run) {
        left(run, &WString::<E>::from_utf16_unchecked(raw));
    }
}

fn unchecked_le<E: Utf16Order>(run: &mut Run) {
    match text::<LittleEndian>(run) {
        Some(raw) if !E::BIG => left(run, &WString::from_utf16le_unchecked(raw)),
        _ => run.unmet(),
    }
}

fn unchecked_be<E: Utf16Order>(run: &mut Run) {
    match text::<BigEndian>(run) {
        Some(raw) if E::BIG => left(run, &WString::from_utf16be_unchecked(raw)),
        _ => run.unmet(),
    }
}

fn from_str<E: Utf16Order>(run: &mut Run) {
    let text = run.text();
    run.begin();
    made(run, WString::<E, Heap>::from_str(run.heap, text.as_str()));
}

fn from_wstr<E: Utf16Order>(run: &mut Run) {
    let text = part::<E>(run);
    run.begin();
    made(run, WString::<E, Heap>::from_wstr(run.heap, text.as_wstr()));
}

fn from_iter<E: Utf16Order>(run: &mut Run) {
    let text = run.text();
    run.begin();
    let found: Result<WString<E, Heap>, AllocError> = text.chars().collect(run.heap);
    made(run, found);
}

// The order is a word, `le` or `be`.
fn into_byte_order<E: Utf16Order>(run: &mut Run) {
    let string = string::<E>(run);
    match run.word() {
        "le" => ordered::<E, LittleEndian>(run, string),
        "be" => ordered::<E, BigEndian>(run, string),
        _ => run.refuse(Trouble::Value),
    }
}

fn ordered<E: Utf16Order, F: Utf16Order>(run: &mut Run, string: WString<E, Heap>) {
    run.begin();
    left(run, &string.into_byte_order::<F>());
}

fn into_bytes<E: Utf16Order>(run: &mut Run) {
    let string = string::<E>(run);
    run.answer.bytes(string.into_bytes().as_slice());
}
