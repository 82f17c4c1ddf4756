//! Names under numbers: names that are added again, found, sorted, and added while allocations
//! fail.

use crate::checks::{encoded, equal, holds};
use examples::interner::Interner;
use std::alloc::Allocator;
use std::process::Abort;
use tests_support::refusing::Refusing;
use utf16string::{BE, LE, Utf16Order, WString};

// Names in the order of arrival, and the number that each gets. Some of them compare differently by
// bytes or by code units.
const COMING: [(&str, usize); 10] = [
    ("b", 0),
    ("", 1),
    ("b", 0),
    ("\u{10000}", 2),
    ("\u{FFFF}", 3),
    ("ab", 4),
    ("", 1),
    ("a", 5),
    ("\u{100}", 6),
    ("\u{10000}", 2),
];

// The names, each once.
const NAMES: [&str; 7] = ["b", "", "\u{10000}", "\u{FFFF}", "ab", "a", "\u{100}"];

// Their numbers sorted by the names: "", "a", "ab", "b", U+0100, U+FFFF, U+10000.
const IN_ORDER: [usize; 7] = [1, 5, 4, 0, 6, 3, 2];

const UNKNOWN: [&str; 4] = ["bb", "\u{1}", "\u{FFFF}\u{10000}", "aab"];

// Checks a name under its number, and that it is found by it.
fn is_under<E: Utf16Order, A: Allocator>(
    rt: &(impl Abort + AllocGlobal),
    table: &Interner<E, A>,
    number: usize,
    name: &str,
) {
    let name = encoded::<E>(rt, name);
    holds(rt, table.get(number) == Some(name.as_wstr()));
    equal(rt, table.find(name.as_wstr()), Some(number));
}

fn is_unknown<E: Utf16Order, A: Allocator>(
    rt: &(impl Abort + AllocGlobal),
    table: &Interner<E, A>,
    name: &str,
) {
    equal(rt, table.find(encoded(rt, name).as_wstr()), None);
}

fn has_names<E: Utf16Order, A: Allocator>(
    rt: &(impl Abort + AllocGlobal),
    table: &Interner<E, A>,
    names: &[&str],
) {
    equal(rt, table.len(), names.len());
    equal(rt, table.is_empty(), names.is_empty());
    for (number, name) in names.iter().enumerate() {
        is_under(rt, table, number, name);
    }
    holds(rt, table.get(names.len()).is_none());
    for name in UNKNOWN {
        is_unknown(rt, table, name);
    }
}

fn come<E: Utf16Order>(rt: &(impl Abort + AllocGlobal)) {
    let mut table = Interner::<E>::new(rt.alloc()).expect(rt, "memory");
    let mut known = 0;
    for (name, wanted) in COMING {
        let name = encoded(rt, name);
        equal(rt, table.intern(name.as_wstr()), Ok(wanted));
        if wanted >= known {
            known = wanted + 1;
        }
        holds(rt, known <= NAMES.len());
        has_names(rt, &table, &NAMES[..known]);
    }
    equal(rt, table.sorted(), IN_ORDER.as_slice());
}

// A bug that no clause excludes: allocation fails although memory is available.
#[test]
fn names_get_numbers(rt: HostRuntime) {
    come::<LE>(&rt);
    come::<BE>(&rt);
}

// Adds names, with each allocation failing in turn until a run has no failure, and returns how many
// allocations that run makes. A failure leaves the table unchanged and usable.
fn in_turn<E: Utf16Order>(rt: &(impl Abort + AllocGlobal)) -> u64 {
    let heap = Refusing::new(rt.alloc());
    for k in 0..40 {
        heap.refuse_one(k);
        put_in::<E, _>(rt, &heap);
        equal(rt, heap.live_blocks(), 0);
        if heap.refusals() == 0 {
            return k;
        }
    }
    panic!(rt; "no run met no refusal");
}

fn put_in<E: Utf16Order, A: Allocator + Clone>(rt: &(impl Abort + AllocGlobal), alloc: A) {
    let mut table = Interner::<E, A>::new(alloc).expect(rt, "a clone");
    for (number, name) in NAMES.iter().enumerate() {
        let name = encoded(rt, name);
        if table.intern(name.as_wstr()).is_err() {
            has_names(rt, &table, &NAMES[..number]);
            equal(rt, table.intern(name.as_wstr()), Ok(number));
        }
    }
    has_names(rt, &table, &NAMES);
}

// A bug that no clause excludes: a failed allocation leaks a block.
#[test]
fn memory_is_refused(rt: HostRuntime) {
    let requests = in_turn::<LE>(&rt);
    holds(&rt, 3 <= requests);
    equal(&rt, in_turn::<BE>(&rt), requests);
}
