//! Short callers of four of the examples.

ghost use Rattle.std.specs.Prelude.{◌≡◌, ◌++◌, [], List, ℕ, IfErr, IfNone, IfOk, IfSome, Some, false, length, map, option_map, true};
ghost use Rattle.std.specs.Vec.{vec_items};
ghost use Rattle.examples.specs.MultiSz.{multi_sz_of};
ghost use Rattle.examples.specs.Records.{HoldsFields, IsFieldErrorKind, IsReadError, field_bytes};
ghost use Rattle.examples.specs.declared.records.FieldErrorKind.{FieldErrorKind};
ghost use Rattle.examples.specs.Transcode.{IsTranscodeError};
ghost use Rattle.utf16string.specs.Encoding.{Encodes};
ghost use Rattle.utf16string.specs.WStr.{wstr_text};

use examples::interner::Interner;
use examples::multi_sz::{WriteError, write};
use examples::records::{ReadError, next_field, read_fields};
use examples::transcode::{TranscodeError, from_utf8, to_utf8};
use std::alloc::{AllocError, Global};
use utf16string::{BE, LE, WStr};

/// Returns the number of fields that a buffer holds.
pub fn field_count(alloc: Global, buffer: &[u8]) -> Result<usize, ReadError>
    ensures fields { IfOk result (λ n. (texts : List (List ℕ))
        × HoldsFields false texts [] buffer.now × (length texts ≡ n)) }
    ensures error { IfErr result (IsReadError false buffer.now) }
{
    let fields = read_fields::<LE, _>(alloc, buffer)?;
    Ok(fields.len())
}

/// Returns the first field of a buffer.
pub fn title(buffer: &[u8]) -> Option<WStr<'_, LE>>
    ensures field { IfSome result (λ title. (rest : List ℕ)
        × (buffer.now ≡ field_bytes false (wstr_text title) ++ rest)) }
    ensures none { IfNone result ((fault : FieldErrorKind)
        × IsFieldErrorKind false buffer.now fault) }
{
    let (title, _) = next_field(buffer).ok()?;
    Some(title)
}

/// Converts UTF-16 in little endian to big endian, through UTF-8.
pub fn to_big(alloc: Global, big_alloc: Global, bytes: &[u8]) -> Result<Vec<u8>, TranscodeError>
    ensures text { IfOk result (λ big. (text : List ℕ) × Encodes false text bytes.now
        × Encodes true text (vec_items big)) }
    ensures error { IfErr result (IsTranscodeError false bytes.now) }
{
    let text = to_utf8::<LE, Global>(alloc, bytes)?;
    Ok(from_utf8::<BE, Global>(big_alloc, &text)?)
}

/// Returns the bytes of a table of texts, as a registry value holds them.
pub fn stored(alloc: Global, texts: &[WStr<LE>]) -> Result<Vec<u8>, WriteError>
    ensures { IfOk result (λ bytes.
        Encodes false (multi_sz_of (map wstr_text texts.now)) (vec_items bytes)) }
{
    Ok(write(alloc, texts)?.into_bytes())
}

/// Returns a name as the table holds it. A new name is added first.
pub fn interned<'a>(
    table: &'a mut Interner<LE>,
    name: WStr<LE>,
) -> Result<Option<WStr<'a, LE>>, AllocError>
    ensures { IfOk result (λ found. option_map wstr_text found ≡ Some (wstr_text name.entry)) }
{
    let number = table.intern(name)?;
    Ok(table.get(number))
}
