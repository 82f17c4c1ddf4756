//! Tables of texts: read as the registry stores them, whole and truncated, and written.

use crate::checks::{encoded, equal, holds};
use examples::multi_sz::{WriteError, read, texts, write};
use std::alloc::Allocator;
use std::process::Abort;
use tests_support::refusing::Refusing;
use utf16string::{BE, LE, Utf16Order, WStr, WString};

// The value BootExecute of a registry: CPython's "autocheck autochk *\0\0".encode("utf-16-le").
const BOOT_EXECUTE: [u8; 42] = [
    0x61, 0x00, 0x75, 0x00, 0x74, 0x00, 0x6F, 0x00, 0x63, 0x00, 0x68, 0x00, 0x65, 0x00, 0x63, 0x00,
    0x6B, 0x00, 0x20, 0x00, 0x61, 0x00, 0x75, 0x00, 0x74, 0x00, 0x6F, 0x00, 0x63, 0x00, 0x68, 0x00,
    0x6B, 0x00, 0x20, 0x00, 0x2A, 0x00, 0x00, 0x00, 0x00, 0x00,
];

// A table, and its texts. All but the first five lack a NUL or two at the end, or have more after
// the table.
const TABLES: [(&str, &[&str]); 13] = [
    ("\0", &[]),
    ("a\0\0", &["a"]),
    ("a\0b\0\0", &["a", "b"]),
    ("\u{10000}\0\u{FFFF}b\0\0", &["\u{10000}", "\u{FFFF}b"]),
    ("\u{100}\0\u{1}\0\0", &["\u{100}", "\u{1}"]),
    ("", &[]),
    ("a", &["a"]),
    ("a\0", &["a"]),
    ("a\0b", &["a", "b"]),
    ("a\0b\0", &["a", "b"]),
    ("\0\0", &[]),
    ("\0a\0\0", &[]),
    ("a\0\0b\0\0", &["a"]),
];

// What no table can hold, and the error.
const REFUSED: [(&[&str], WriteError); 5] = [
    (&[""], WriteError::Empty(0)),
    (&["\0"], WriteError::HasNul(0)),
    (&["a", "b\0c", ""], WriteError::HasNul(1)),
    (&["a", "b", "", "\0"], WriteError::Empty(2)),
    (&["\u{10000}\0"], WriteError::HasNul(0)),
];

fn strings<E: Utf16Order>(rt: &(impl Abort + AllocGlobal), texts: &[&str]) -> Vec<WString<E>> {
    let mut made = Vec::new(rt.alloc());
    for text in texts {
        made.push(encoded(rt, text)).expect(rt, "memory");
    }
    made
}

fn views<'a, E: Utf16Order>(
    rt: &(impl Abort + AllocGlobal),
    strings: &'a [WString<E>],
) -> Vec<WStr<'a, E>> {
    let mut made = Vec::new(rt.alloc());
    for string in strings {
        made.push(string.as_wstr()).expect(rt, "memory");
    }
    made
}

fn are_read<E: Utf16Order>(rt: &(impl Abort + AllocGlobal), table: &str, wanted: &[&str]) {
    let table = encoded::<E>(rt, table);
    let found = read(rt.alloc(), table.as_wstr()).expect(rt, "memory");
    let wanted = strings::<E>(rt, wanted);
    equal(rt, found.len(), wanted.len());
    for (text, wanted) in found.iter().zip(&wanted) {
        holds(rt, text.as_bytes() == wanted.as_bytes());
    }
    steps(rt, table.as_wstr(), &wanted);
}

// Does the same step by step, with one more step after the end.
fn steps<E: Utf16Order>(rt: &impl Abort, table: WStr<E>, wanted: &[WString<E>]) {
    let mut left = texts(table);
    for text in wanted {
        match left.next() {
            Some(found) => holds(rt, found.as_bytes() == text.as_bytes()),
            None => panic!(rt; "a text is missing"),
        }
    }
    holds(rt, left.next().is_none());
    holds(rt, left.next().is_none());
}

// A bug that no clause excludes: the definition of a table differs from the worked examples.
#[test]
fn tables_are_read(rt: HostRuntime) {
    for (table, wanted) in TABLES {
        are_read::<LE>(&rt, table, wanted);
        are_read::<BE>(&rt, table, wanted);
    }
}

// Checks the one text in a table of these bytes.
fn one_is_read(rt: &(impl Abort + AllocGlobal), raw: &[u8], wanted: &[u8]) {
    let table = WStr::<LE>::from_utf16(raw).expect(rt, "text");
    let found = read(rt.alloc(), table).expect(rt, "memory");
    holds(rt, found.len() == 1);
    holds(rt, found[0].as_bytes() == wanted);
}

// A bug that no clause excludes: the definition of a table differs from the registry's form.
#[test]
fn a_registry_value_is_read(rt: HostRuntime) {
    let text = &BOOT_EXECUTE[..38];
    one_is_read(&rt, &BOOT_EXECUTE, text);
    one_is_read(&rt, text, text);
}

fn is_written<E: Utf16Order>(rt: &(impl Abort + AllocGlobal), table: &str, texts: &[&str]) {
    let strings = strings::<E>(rt, texts);
    let written = write(rt.alloc(), &views(rt, &strings)).expect(rt, "a table");
    holds(rt, written == encoded(rt, table));
}

// A bug that no clause excludes: allocation fails although memory is available.
#[test]
fn tables_are_written(rt: HostRuntime) {
    for (table, texts) in &TABLES[..5] {
        is_written::<LE>(&rt, table, texts);
        is_written::<BE>(&rt, table, texts);
    }
}

fn is_refused<E: Utf16Order>(rt: &(impl Abort + AllocGlobal), texts: &[&str], wanted: WriteError) {
    let strings = strings::<E>(rt, texts);
    match write(rt.alloc(), &views(rt, &strings)) {
        Ok(_) => panic!(rt; "written"),
        Err(error) => equal(rt, error, wanted),
    }
}

// A bug that no clause excludes: the definition allows a text that would end its table.
#[test]
fn what_no_table_holds_is_refused(rt: HostRuntime) {
    for (texts, wanted) in REFUSED {
        is_refused::<LE>(&rt, texts, wanted);
        is_refused::<BE>(&rt, texts, wanted);
    }
}

// Reads and writes, with each allocation failing in turn until a run has no failure, and returns
// how many allocations that run makes.
fn in_turn(rt: &(impl Abort + AllocGlobal), is_reading: bool) -> u64 {
    let heap = Refusing::new(rt.alloc());
    let strings = strings::<BE>(rt, &["a", "\u{10000}"]);
    let texts = views(rt, &strings);
    let table = encoded::<BE>(rt, "a\0\u{10000}\0\0");
    for k in 0..10 {
        heap.refuse_one(k);
        let is_right = if is_reading {
            match read(&heap, table.as_wstr()) {
                Ok(found) => Some(found.as_slice() == texts.as_slice()),
                Err(_) => None,
            }
        } else {
            match write(&heap, &texts) {
                Ok(written) => Some(written.as_wstr() == table.as_wstr()),
                Err(error) => {
                    equal(rt, error, WriteError::NoMemory);
                    None
                }
            }
        };
        equal(rt, heap.live_blocks(), 0);
        if heap.refusals() == 0 {
            equal(rt, is_right, Some(true));
            return k;
        }
        equal(rt, is_right, None);
    }
    panic!(rt; "no run met no refusal");
}

// A bug that no clause excludes: a failed allocation leaks a block.
#[test]
fn memory_is_refused(rt: HostRuntime) {
    holds(&rt, 1 <= in_turn(&rt, true));
    holds(&rt, 1 <= in_turn(&rt, false));
}
