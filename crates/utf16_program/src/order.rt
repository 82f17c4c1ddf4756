//! The byte order in which an input is checked.

ghost use Rattle.std.specs.Prelude.{◌≡◌, ℕ, ◌<◌, ◌≤◌, List, ◌++◌, None, IfNone, IfSome, drop, length};
ghost use Rattle.utf16_streams.specs.Bom.{big_in, text_in};

use utf16_units::bom_of;

/// Whether the text of an input is big endian, and where it begins.
#[derive(Clone, Copy)]
pub struct Beginning {
    /// Whether the high byte of a code unit comes first.
    pub big_endian: bool,
    /// The length of the BOM, in bytes: 2, or 0 if there is none or it is text.
    pub bom_len: usize,
}

/// Returns the beginning of the text of an input whose first bytes are `bytes`, or `None` if they
/// do not decide it. `big_endian` is the byte order if it is given; otherwise the BOM gives it, and
/// without one it is big endian (Unicode, section 3.10: UTF-16 encoding scheme).
pub fn beginning_of(big_endian: Option<bool>, bytes: &[u8]) -> Option<Beginning>
    ensures order { IfSome result (λ begins. (back : List ℕ)
        → big_in big_endian (bytes.now ++ back) ≡ begins.big_endian) }
    ensures text { IfSome result (λ begins. (back : List ℕ)
        → text_in big_endian (bytes.now ++ back) ≡ drop begins.bom_len bytes.now ++ back) }
    ensures within { IfSome result (λ begins. begins.bom_len ≤ length bytes.now) }
    ensures undecided { IfNone result ((big_endian ≡ None) × (length bytes.now < 2)) }
{
    if let Some(big_endian) = big_endian {
        return Some(Beginning {
            big_endian,
            bom_len: 0,
        });
    }
    let [first, second, ..] = bytes else {
        return None;
    };
    let (big_endian, bom_len) = match bom_of([*first, *second]) {
        Some(big_endian) => (big_endian, 2),
        None => (true, 0),
    };
    Some(Beginning {
        big_endian,
        bom_len,
    })
}
