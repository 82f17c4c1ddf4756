//! Views made from bytes.

ghost use Rattle.std.specs.Prelude.{IsSome};
ghost use Rattle.utf16_units.specs.Encoding.{IsUtf16};

use tests_support::{Answer, Run};
use utf16string::{Utf16Error, Utf16Order, WStr};

/// A call that makes a view or a string from bytes, in any byte order or in the one that its name
/// says, and with or without a test.
#[derive(Clone, Copy)]
pub enum MakingCall {
    Any,
    Little,
    Big,
    AnyUnchecked,
    LittleUnchecked,
    BigUnchecked,
}

impl MakingCall {
    /// Returns the call of this name.
    pub fn named(name: &str) -> Option<Self> {
        match name {
            "from_utf16" => Some(MakingCall::Any),
            "from_utf16le" => Some(MakingCall::Little),
            "from_utf16be" => Some(MakingCall::Big),
            "from_utf16_unchecked" => Some(MakingCall::AnyUnchecked),
            "from_utf16le_unchecked" => Some(MakingCall::LittleUnchecked),
            "from_utf16be_unchecked" => Some(MakingCall::BigUnchecked),
            _ => None,
        }
    }
}

/// Makes a call that makes a view. The calls for one byte order are made only in that order.
pub fn call<E: Utf16Order>(run: &mut Run, name: &str) -> bool {
    let Some(call) = MakingCall::named(name) else {
        return false;
    };
    let raw = run.bytes();
    match call {
        MakingCall::Any => made::<E>(&mut run.answer, WStr::from_utf16(&raw)),
        MakingCall::Little if !E::BIG => made(&mut run.answer, WStr::from_utf16le(&raw)),
        MakingCall::Big if E::BIG => made(&mut run.answer, WStr::from_utf16be(&raw)),
        MakingCall::Little | MakingCall::Big => run.unmet(),
        _ => untested::<E>(run, &raw, call),
    }
    true
}

fn untested<E: Utf16Order>(run: &mut Run, raw: &[u8], call: MakingCall) {
    if view::<E>(run, raw).is_none() {
        return;
    }
    let answer = &mut run.answer;
    match call {
        MakingCall::AnyUnchecked => {
            answer.bytes(WStr::<E>::from_utf16_unchecked(raw).as_bytes());
        }
        MakingCall::LittleUnchecked if !E::BIG => {
            answer.bytes(WStr::from_utf16le_unchecked(raw).as_bytes());
        }
        MakingCall::BigUnchecked if E::BIG => {
            answer.bytes(WStr::from_utf16be_unchecked(raw).as_bytes());
        }
        _ => run.unmet(),
    }
}

fn made<E: Utf16Order>(answer: &mut Answer, made: Result<WStr<E>, Utf16Error>) {
    match made {
        Ok(text) => answer.bytes(text.as_bytes()),
        Err(error) => refused(answer, error),
    }
}

/// Returns the view over bytes, which the table means to be text.
pub fn view<'a, E: Utf16Order>(run: &mut Run, raw: &'a [u8]) -> Option<WStr<'a, E>>
    ensures { IsSome result → IsUtf16 E.BIG raw.now }
{
    match WStr::from_utf16(raw) {
        Ok(text) => Some(text),
        Err(_) => {
            run.unmet();
            None
        }
    }
}

/// Adds the fields of an error.
pub fn refused(answer: &mut Answer, error: Utf16Error) {
    answer.word("error");
    answer.number(error.valid_up_to());
    match error.error_len() {
        Some(len) => answer.number(len),
        None => answer.word("none"),
    }
}
