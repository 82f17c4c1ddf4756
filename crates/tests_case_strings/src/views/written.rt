//! Views that are written to: `WStrMut`.

use crate::views::made::{MakingCall, refused, view};
use tests_support::{Answer, Run};
use utf16string::{Utf16Order, WStr, WStrMut};

/// Makes a call of a view that writes, and adds the bytes as they are after it. The name has no
/// `WStrMut::`.
pub fn call<E: Utf16Order>(run: &mut Run, name: &str) -> bool {
    let mut raw = run.bytes();
    match name {
        "split_valid" => split_valid::<E>(&mut run.answer, &mut raw),
        "fits" => part::<E>(run, &mut raw, false),
        "overwrite" => part::<E>(run, &mut raw, true),
        _ => match MakingCall::named(name) {
            Some(call) => make::<E>(run, &mut raw, call),
            None => return false,
        },
    }
    run.answer.bytes(&raw);
    true
}

// Adds what the view shows and the bytes that `into_bytes` returns, or the fields of the error.
macro_rules! made {
    ($answer:expr, $made:expr) => {
        match $made {
            Ok(text) => {
                $answer.bytes(text.as_wstr().as_bytes());
                $answer.bytes(text.into_bytes());
            }
            Err(error) => refused($answer, error),
        }
    };
}

fn make<E: Utf16Order>(run: &mut Run, raw: &mut [u8], call: MakingCall) {
    let answer = &mut run.answer;
    match call {
        MakingCall::Any => made!(answer, WStrMut::<E>::from_utf16(raw)),
        MakingCall::Little if !E::BIG => made!(answer, WStrMut::from_utf16le(raw)),
        MakingCall::Big if E::BIG => made!(answer, WStrMut::from_utf16be(raw)),
        MakingCall::Little | MakingCall::Big => run.unmet(),
        _ => untested::<E>(run, raw, call),
    }
}

fn untested<E: Utf16Order>(run: &mut Run, raw: &mut [u8], call: MakingCall) {
    if view::<E>(run, raw).is_none() {
        return;
    }
    let answer = &mut run.answer;
    match call {
        MakingCall::LittleUnchecked if !E::BIG => {
            answer.bytes(WStrMut::from_utf16le_unchecked(raw).as_wstr().as_bytes());
        }
        MakingCall::BigUnchecked if E::BIG => {
            answer.bytes(WStrMut::from_utf16be_unchecked(raw).as_wstr().as_bytes());
        }
        MakingCall::AnyUnchecked => {
            answer.bytes(WStrMut::<E>::from_utf16_unchecked(raw).as_wstr().as_bytes());
        }
        _ => run.unmet(),
    }
}

fn split_valid<E: Utf16Order>(answer: &mut Answer, raw: &mut [u8]) {
    let (text, rest) = WStrMut::<E>::split_valid(raw);
    answer.bytes(text);
    answer.bytes(rest);
}

// Makes a call on an index and a text.
fn part<E: Utf16Order>(run: &mut Run, raw: &mut [u8], is_put: bool) {
    let index = run.number();
    let part = run.bytes();
    if let Some(part) = view(run, &part) {
        put::<E>(run, raw, index, part, is_put);
    }
}

// Whether a text fits at an index, or the view once it is written there.
fn put<E: Utf16Order>(run: &mut Run, raw: &mut [u8], index: usize, part: WStr<E>, is_put: bool) {
    let Ok(mut text) = WStrMut::<E>::from_utf16(raw) else {
        return run.unmet();
    };
    let fits = text.fits(index, part);
    if !is_put {
        run.answer.truth(fits);
    } else if fits {
        text.overwrite(index, part);
        run.answer.bytes(text.as_wstr().as_bytes());
    } else {
        run.unmet();
    }
}
