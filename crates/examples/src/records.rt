//! Fields of a record in a buffer, one after another: each is a count of code units in little
//! endian and then a text of that length.

ghost use Rattle.std.specs.Prelude.{◌≡◌, ◌+◌, ◌<◌, ◌^◌, [], ◌++◌, IfErr, IfOk, IsOk, length, map};
ghost use Rattle.std.specs.Vec.{vec_items};
ghost use Rattle.utf16string.specs.WStr.{wstr_text};
ghost use Rattle.examples.specs.Records.{HoldsFields, IsFieldError, IsFieldErrorKind, IsReadError, field_bytes};

use byteorder::{ByteOrder, LittleEndian};
use std::alloc::{AllocFailed, Allocator};
use std::marker::PhantomData;
use utf16string::{Utf16Error, Utf16Order, WStr};

/// Why no field begins at an offset.
#[derive(Clone, Copy, Debug, PartialEq, Eq)]
pub enum FieldErrorKind {
    /// Fewer than two bytes are left: the count is truncated.
    NoCount,
    /// Fewer bytes follow the count than it says.
    Short,
    /// The bytes of the text are ill-formed. The offsets in the error count bytes from the end of
    /// the count.
    NoText(Utf16Error),
}

/// The first malformed field of a buffer. Offsets count bytes of the buffer.
#[derive(Clone, Copy, Debug, PartialEq, Eq)]
pub struct FieldError {
    /// The offset of the malformed field. All before it are well-formed fields.
    pub field: usize,
    /// The offset of the problem: the start of the count, the start of what follows the count, or
    /// the end of the longest valid prefix of the text.
    pub place: usize,
    /// The kind of the problem.
    pub fault: FieldErrorKind,
}

/// Why the fields of a buffer were not read.
#[derive(Clone, Copy, Debug, PartialEq, Eq)]
pub enum ReadError {
    /// Allocation failed. The buffer starts with at least one well-formed field, since the first
    /// field is the first to allocate.
    Memory,
    /// A field is malformed.
    Field(FieldError),
}

impl From<FieldError> for ReadError {
    ghost use Rattle.examples.specs.declared.records.ReadError.TheVariants.{Field};

    ghost from_gives = { λ e given. given ≡ Field e };

    fn from(e: FieldError) -> ReadError {
        ReadError::Field(e)
    }
}

impl<T: Drop> From<AllocFailed<T>> for ReadError {
    ghost use Rattle.examples.specs.declared.records.ReadError.TheVariants.{Memory};

    ghost from_gives = { λ _ given. given ≡ Memory };

    fn from(_refused: AllocFailed<T>) -> ReadError {
        ReadError::Memory
    }
}

/// Returns the first field, as a view of the bytes, and the bytes after it. The text is validated,
/// but not copied.
///
/// # Errors
///
/// If the bytes do not begin with a field. For no bytes the error is `NoCount`.
pub fn next_field<E: Utf16Order>(bytes: &[u8]) -> Result<(WStr<'_, E>, &[u8]), FieldErrorKind>
    ensures field { IfOk result (λ read. bytes.now ≡ field_bytes E.BIG (wstr_text read.0)
        ++ read.1.now) }
    ensures error { IfErr result (IsFieldErrorKind E.BIG bytes.now) }
{
    if bytes.len() < 2 {
        return Err(FieldErrorKind::NoCount);
    }
    let len = 2 * usize::from(LittleEndian::read_u16(bytes));
    let after = &bytes[2..];
    if after.len() < len {
        return Err(FieldErrorKind::Short);
    }
    let (text, rest) = after.split_at(len);
    match WStr::from_utf16(text) {
        Ok(field) => Ok((field, rest)),
        Err(e) => Err(FieldErrorKind::NoText(e)),
    }
}

/// An iterator over the fields of a buffer, each a view of the buffer. If a field is malformed, the
/// iterator yields an error instead of the field, and ends.
#[derive(Drop)]
pub struct Fields<'a, E: Utf16Order> {
    rest: &'a [u8],
    offset: usize,
    order: PhantomData<E>,
    ghost within: { offset + length rest.now < 2 ^ 64 },
}

impl<'a, E: Utf16Order> Fields<'a, E> {
    ghost use Rattle.examples.specs.Fields.{fields_offset, fields_rest};

    /// Returns an iterator over the fields of a buffer.
    pub fn new(buffer: &'a [u8]) -> Self
        ensures buffer { fields_rest result ≡ buffer.now }
        ensures offset { fields_offset result ≡ 0 }
    {
        Fields {
            rest: buffer,
            offset: 0,
            order: PhantomData,
        }
    }

    /// Returns the offset in bytes at which the next field begins, or the malformed field if there
    /// is one.
    pub fn offset(&self) -> usize
        ensures { result ≡ fields_offset self.now }
    {
        self.offset
    }
}

impl<'a, E: Utf16Order> Iterator for Fields<'a, E> {
    ghost use Rattle.std.specs.Iterator.{at_most};
    ghost use Rattle.examples.specs.Fields.{GivesField, fields_rest};

    type Item = Result<WStr<'a, E>, FieldError>;

    ghost next_gives = { GivesField };

    ghost remaining = { λ fields. at_most (length (fields_rest fields)) };

    fn next(&mut self) -> Option<Result<WStr<'a, E>, FieldError>> {
        if self.rest.is_empty() {
            return None;
        }
        match next_field(self.rest) {
            Ok((field, after)) => {
                self.offset += self.rest.len() - after.len();
                self.rest = after;
                Some(Ok(field))
            }
            Err(fault) => {
                let e = error_at::<E>(self.offset, self.rest, fault);
                self.rest = &[];
                Some(Err(e))
            }
        }
    }
}

// Returns the error for a malformed field at an offset of a buffer; `rest` is what the buffer holds
// from that offset.
fn error_at<E: Utf16Order>(offset: usize, rest: &[u8], fault: FieldErrorKind) -> FieldError
    requires bound { offset + length rest.now < 2 ^ 64 }
    requires not_empty { 0 < length rest.now }
    requires error { IsFieldErrorKind E.BIG rest.now fault }
    ensures { IsFieldError E.BIG offset rest.now result }
{
    let after = match fault {
        FieldErrorKind::NoCount => 0,
        FieldErrorKind::Short => 2,
        FieldErrorKind::NoText(e) => 2 + e.valid_up_to(),
    };
    FieldError {
        field: offset,
        place: offset + after,
        fault,
    }
}

/// Returns all fields of a buffer, in order, each a view of the buffer.
///
/// # Errors
///
/// `Field` for the first malformed field. `Memory` if allocation fails, which can happen only if
/// the buffer starts with a well-formed field.
pub fn read_fields<'a, E: Utf16Order, A: Allocator>(
    alloc: A,
    buffer: &'a [u8],
) -> Result<Vec<WStr<'a, E>, A>, ReadError>
    ensures fields { IfOk result (λ fields.
        HoldsFields E.BIG (map wstr_text (vec_items fields)) [] buffer.now) }
    ensures error { IfErr result (IsReadError E.BIG buffer.now) }
    ensures nothing { buffer.now ≡ [] → IsOk result }
{
    let mut fields = Vec::new(alloc);
    for field in Fields::new(buffer) {
        fields.push(field?)?;
    }
    Ok(fields)
}
