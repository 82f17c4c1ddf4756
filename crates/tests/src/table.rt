//! Tables of keys and values: what is read, where a line is bad, and memory.

use crate::checks::{encoded, equal, holds};
use examples::table::{TableError, entries};
use std::process::Abort;
use tests_support::refusing::Refusing;
use utf16string::{BE, LE, Utf16Order};

// Tables with the separator '=', and their entries, by CPython's `splitlines`, `partition` and
// `strip`. U+3000, U+00A0 and U+0085 are white space.
const TABLES: [(&str, &[(&str, &str)]); 8] = [
    ("", &[]),
    ("\r\n \t\n", &[]),
    ("#a=b", &[]),
    ("=", &[("", "")]),
    ("key=value", &[("key", "value")]),
    ("a=#b\n", &[("a", "")]),
    (
        " key = value \r\n# note\n\nurl=a=b # c\n",
        &[("key", "value"), ("url", "a=b")],
    ),
    (
        "\u{3000}\u{10000}\u{A0}=\u{85}\u{10001}x y\u{3000}\na=1\na=2",
        &[("\u{10000}", "\u{10001}x y"), ("a", "1"), ("a", "2")],
    ),
];

// Tables with a bad line, and the index of the first one.
const BAD: [(&str, usize); 6] = [
    ("key", 0),
    ("a#=b", 0),
    ("a=b\nkey\nbad", 1),
    ("\n\n\n x#", 3),
    ("\u{10000}=b\r\n\n # x\n key \na=b\nbad", 3),
    ("a=b\n\u{10000}", 1),
];

fn are_read<E: Utf16Order>(
    rt: &(impl Abort + AllocGlobal),
    table: &str,
    separator: char,
    wanted: &[(&str, &str)],
) {
    let table = encoded::<E>(rt, table);
    let found = entries(rt.alloc(), table.as_wstr(), separator).expect(rt, "entries");
    equal(rt, found.len(), wanted.len());
    for (entry, wanted) in found.iter().zip(wanted) {
        holds(
            rt,
            entry.key.eq_str(wanted.0) && entry.value.eq_str(wanted.1),
        );
    }
}

fn read(rt: &(impl Abort + AllocGlobal), table: &str, separator: char, wanted: &[(&str, &str)]) {
    are_read::<LE>(rt, table, separator, wanted);
    are_read::<BE>(rt, table, separator, wanted);
}

// A bug that no clause excludes: the definition of a table differs from the worked examples.
#[test]
fn tables_are_read(rt: HostRuntime) {
    for (table, wanted) in TABLES {
        read(&rt, table, '=', wanted);
    }
    read(&rt, "a,b,c\n", ',', &[("a", "b,c")]);
    read(&rt, "a\t\tb", '\t', &[("a", "b")]);
    read(&rt, "a\u{10000}b=", '\u{10000}', &[("a", "b=")]);
}

fn is_bad<E: Utf16Order>(
    rt: &(impl Abort + AllocGlobal),
    table: &str,
    separator: char,
    index: usize,
) {
    let table = encoded::<E>(rt, table);
    let error = entries(rt.alloc(), table.as_wstr(), separator).err();
    equal(rt, error, Some(TableError::Line(index)));
}

// A bug that no clause excludes: the definition counts a line feed or a comment wrongly.
#[test]
fn bad_lines_have_places(rt: HostRuntime) {
    for (table, index) in BAD {
        is_bad::<LE>(&rt, table, '=', index);
        is_bad::<BE>(&rt, table, '=', index);
    }
    // The bytes of this character have the separator's at an odd offset.
    is_bad::<LE>(&rt, "\u{10000}", '\u{D8}', 0);
    is_bad::<BE>(&rt, "\u{10000}", '\u{DC}', 0);
}

// A bug that no clause excludes: a failed allocation leaks a block, or a table fails although
// memory is available.
#[test]
fn memory_is_refused(rt: HostRuntime) {
    let heap = Refusing::new(rt.alloc());
    let table = encoded::<BE>(&rt, "# note\na=1\nb=2\n");
    for k in 0..10 {
        // `collect` asks for less room after a refusal, so all after it are refused too.
        heap.refuse_from(k);
        let read = match entries(&heap, table.as_wstr(), '=') {
            Ok(found) => Ok(found.len()),
            Err(error) => Err(error),
        };
        equal(&rt, heap.live_blocks(), 0);
        if heap.refusals() == 0 {
            equal(&rt, read, Ok(2));
            holds(&rt, 1 <= k);
            return;
        }
        equal(&rt, read, Err(TableError::Memory));
    }
    panic!(&rt; "no run met no refusal");
}
