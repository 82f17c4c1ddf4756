//! Fields of a record, whole, truncated and with bytes changed. CPython wrote it, in either order:
//!
//! ```python
//! fields = [text.encode(code) for text in ('Grüße', '', '★\U0001F600')]
//! print(b''.join(struct.pack('<H', len(raw) // 2) + raw for raw in fields).hex(' '))
//! ```

use crate::checks::equal;
use examples::records::{FieldErrorKind, Fields, ReadError, next_field, read_fields};
use std::process::Abort;
use tests_support::refusing::Refusing;
use utf16string::{BE, LE, Utf16Order};

const RECORD: [u8; 22] = [
    0x05, 0, 0x47, 0, 0x72, 0, 0xFC, 0, 0xDF, 0, 0x65, 0, 0, 0, 0x03, 0, 0x05, 0x26, 0x3D, 0xD8, 0,
    0xDE,
];

const RECORD_BE: [u8; 22] = [
    0x05, 0, 0, 0x47, 0, 0x72, 0, 0xFC, 0, 0xDF, 0, 0x65, 0, 0, 0x03, 0, 0x26, 0x05, 0xD8, 0x3D,
    0xDE, 0,
];

// Checks that the next field holds this text and ends at this offset.
fn field_is<E: Utf16Order>(
    rt: &(impl Abort + AllocGlobal),
    fields: &mut Fields<E>,
    wanted: &str,
    place: usize,
) {
    let field = fields.next().expect(rt, "field").expect(rt, "text");
    let text = field.to_utf8(rt.alloc()).expect(rt, "memory");
    equal(rt, text.as_str() == wanted, true);
    equal(rt, fields.offset(), place);
}

fn read<E: Utf16Order>(rt: &(impl Abort + AllocGlobal), record: &[u8]) {
    let mut fields = Fields::<E>::new(record);
    for (wanted, place) in [("Grüße", 12), ("", 14), ("★\u{1F600}", 22)] {
        field_is(rt, &mut fields, wanted, place);
    }
    equal(rt, fields.next().is_none(), true);
    let all = read_fields::<E, _>(rt.alloc(), record).expect(rt, "fields");
    equal(rt, all.len(), 3);
    let (first, rest) = next_field::<E>(record).expect(rt, "field");
    equal(rt, (first.len(), rest.len()), (10, 10));
}

// A bug that no clause excludes: the definition of a record differs from the worked examples.
#[test]
fn all_of_a_record(rt: HostRuntime) {
    read::<LE>(&rt, &RECORD);
    read::<BE>(&rt, &RECORD_BE);
}

// Returns the last error: the offsets of field and problem, and `error_len` for ill-formed bytes.
fn stops(rt: &(impl Abort + AllocGlobal), buffer: &[u8]) -> (usize, usize, Option<Option<usize>>) {
    let mut fields = Fields::<LE>::new(buffer);
    let error = fields.find_map(|field| field.err()).expect(rt, "an error");
    equal(rt, fields.next().is_none(), true);
    let read = read_fields::<LE, _>(rt.alloc(), buffer).err();
    equal(rt, read == Some(ReadError::Field(error)), true);
    match error.fault {
        FieldErrorKind::NoCount | FieldErrorKind::Short => (error.field, error.place, None),
        FieldErrorKind::NoText(e) => (error.field, error.place, Some(e.error_len())),
    }
}

// The first and the last length of a truncated record, and the offsets of field and problem.
const CUTS: [(usize, usize, usize, usize); 4] = [
    (1, 1, 0, 0),
    (2, 11, 0, 2),
    (13, 13, 12, 12),
    (16, 21, 14, 16),
];

// A bug that no clause excludes: the definition accepts a truncated field as a whole one.
#[test]
fn incomplete(rt: HostRuntime) {
    for (first, last, field, place) in CUTS {
        for cut in first..last + 1 {
            let front = RECORD.get(..cut).expect(&rt, "bytes");
            equal(&rt, stops(&rt, front), (field, place, None));
        }
    }
}

// A changed byte of the record: its index, its value, and the error.
const CHANGED: [(usize, u8, (usize, usize, Option<Option<usize>>)); 4] = [
    (0, 4, (10, 12, None)),
    (14, 2, (14, 18, Some(None))),
    (19, 0xDC, (14, 18, Some(Some(2)))),
    (21, 0, (14, 18, Some(Some(2)))),
];

// A bug that no clause excludes: the definition ignores a byte whose change makes another record.
#[test]
fn changed(rt: HostRuntime) {
    for (at, byte, wanted) in CHANGED {
        let mut record = RECORD;
        record[at] = byte;
        equal(&rt, stops(&rt, &record), wanted);
    }
}

// A bug that no clause excludes: a failed allocation leaks a block.
#[test]
fn memory_refused(rt: HostRuntime) {
    let heap = Refusing::new(rt.alloc());
    heap.refuse_one(0);
    let refused = read_fields::<LE, _>(&heap, &RECORD).err();
    equal(&rt, refused, Some(ReadError::Memory));
    equal(&rt, read_fields::<LE, _>(&heap, &RECORD).is_ok(), true);
    equal(&rt, (heap.refusals(), heap.live_blocks()), (1, 0));
}
