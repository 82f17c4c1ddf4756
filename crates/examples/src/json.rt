//! A text as the content of a JSON string.

ghost use Rattle.std.specs.Prelude.{◌≡◌, ◌/◌, ◌%◌, ◌<◌, ◌++◌, [], ◌∷◌, IfOk, OnOk};
ghost use Rattle.std.specs.List.{flat_map};
ghost use Rattle.examples.specs.Json.{hex_digit, json_char};
ghost use Rattle.utf16string.specs.WStr.{wstr_text};
ghost use Rattle.utf16string.specs.WString.{wstring_text};

use std::alloc::{AllocError, Allocator};
use utf16string::{Utf16Order, WStr, WString};

/// Returns the text with each quote, backslash and control character escaped.
///
/// # Errors
///
/// If an allocation fails.
pub fn escape<E: Utf16Order, A: Allocator>(
    alloc: A,
    text: WStr<E>,
) -> Result<WString<E, A>, AllocError>
    ensures { IfOk result (λ escaped.
        wstring_text escaped ≡ flat_map json_char (wstr_text text.entry)) }
{
    let mut escaped = WString::new(alloc);
    for c in text.chars() {
        push_escaped(&mut escaped, c)?;
    }
    Ok(escaped)
}

fn push_escaped<E: Utf16Order, A: Allocator>(
    to: &mut WString<E, A>,
    c: char,
) -> Result<(), AllocError>
    ensures { OnOk result (wstring_text to.new ≡ wstring_text to.old ++ json_char c) }
{
    if c == '"' || c == '\\' {
        to.push('\\')?;
        return to.push(c);
    }
    let code = u32::from(c);
    if code < 32 {
        return push_code(to, code);
    }
    to.push(c)
}

// Appends a control character as its code.
fn push_code<E: Utf16Order, A: Allocator>(
    to: &mut WString<E, A>,
    code: u32,
) -> Result<(), AllocError>
    requires { code < 32 }
    ensures { OnOk result (wstring_text to.new ≡ wstring_text to.old ++ 0x5C ∷ 0x75 ∷ 0x30 ∷ 0x30
        ∷ hex_digit (code / 16) ∷ hex_digit (code % 16) ∷ []) }
{
    to.push('\\')?;
    to.push('u')?;
    to.push('0')?;
    to.push('0')?;
    to.push(digit(code / 16))?;
    to.push(digit(code % 16))
}

fn digit(n: u32) -> char
    requires { n < 16 }
    ensures { result ≡ hex_digit n }
{
    let n = n as u8;
    if n < 10 {
        (b'0' + n) as char
    } else {
        (b'a' + (n - 10)) as char
    }
}
