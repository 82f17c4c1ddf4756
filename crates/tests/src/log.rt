//! The lines of a log that contain a text, each with its index.

use crate::checks::{encoded, equal, holds};
use examples::log::{Case, search};
use std::process::Abort;
use tests_support::refusing::Refusing;
use utf16string::{BE, LE, Utf16Order};

// The letters at the end are the Kelvin sign, and U+6100 twice: their bytes have "a" at an odd
// offset.
const LOG: &str =
    "Start\r\nerror: \u{10000}\nok\nError\u{10000}\r\n\nerr\u{E9}\u{212A}\u{6100}\u{6100}";

// A text, whether case is ignored, and the lines that contain it, by CPython's `in`.
const SEARCHES: [(&str, Case, &[(usize, &str)]); 14] = [
    (
        "",
        Case::Exact,
        &[
            (0, "Start"),
            (1, "error: \u{10000}"),
            (2, "ok"),
            (3, "Error\u{10000}"),
            (4, ""),
            (5, "err\u{E9}\u{212A}\u{6100}\u{6100}"),
        ],
    ),
    ("error", Case::Exact, &[(1, "error: \u{10000}")]),
    (
        "ERROR",
        Case::IgnoreAscii,
        &[(1, "error: \u{10000}"), (3, "Error\u{10000}")],
    ),
    ("ERROR", Case::Exact, &[]),
    ("ok", Case::Exact, &[(2, "ok")]),
    ("oK", Case::IgnoreAscii, &[(2, "ok")]),
    ("R\u{10000}", Case::IgnoreAscii, &[(3, "Error\u{10000}")]),
    (
        "\u{10000}",
        Case::Exact,
        &[(1, "error: \u{10000}"), (3, "Error\u{10000}")],
    ),
    ("\u{10400}", Case::Exact, &[]),
    ("t\r", Case::Exact, &[]),
    ("start\nerror", Case::IgnoreAscii, &[]),
    ("\u{C9}", Case::IgnoreAscii, &[]),
    ("o\u{212A}", Case::IgnoreAscii, &[]),
    ("a\u{6100}", Case::IgnoreAscii, &[]),
];

fn are_found<E: Utf16Order>(
    rt: &(impl Abort + AllocGlobal),
    log: &str,
    text: &str,
    case: Case,
    wanted: &[(usize, &str)],
) {
    let (log, text) = (encoded::<E>(rt, log), encoded::<E>(rt, text));
    let found = search(rt.alloc(), log.as_wstr(), text.as_wstr(), case).expect(rt, "memory");
    equal(rt, found.len(), wanted.len());
    for (line, wanted) in found.iter().zip(wanted) {
        holds(rt, line.index == wanted.0 && line.line.eq_str(wanted.1));
    }
}

// A bug that no clause excludes: the definition of a match differs from the worked examples.
#[test]
fn lines_are_found(rt: HostRuntime) {
    for (text, case, wanted) in SEARCHES {
        are_found::<LE>(&rt, LOG, text, case, wanted);
        are_found::<BE>(&rt, LOG, text, case, wanted);
    }
    are_found::<LE>(&rt, "", "", Case::Exact, &[]);
    are_found::<BE>(&rt, "\n", "", Case::IgnoreAscii, &[(0, "")]);
}

// A bug that no clause excludes: a failed allocation leaks a block, or a search fails although
// memory is available.
#[test]
fn memory_is_refused(rt: HostRuntime) {
    let heap = Refusing::new(rt.alloc());
    let (log, text) = (encoded::<BE>(&rt, "A\nb\nba"), encoded::<BE>(&rt, "a"));
    for k in 0..20 {
        // `collect` asks for less room after a refusal, so all after it are refused too.
        heap.refuse_from(k);
        let found = match search(&heap, log.as_wstr(), text.as_wstr(), Case::IgnoreAscii) {
            Ok(found) => Some(found.len()),
            Err(_) => None,
        };
        equal(&rt, heap.live_blocks(), 0);
        if heap.refusals() == 0 {
            equal(&rt, found, Some(2));
            holds(&rt, 4 <= k);
            return;
        }
        equal(&rt, found, None);
    }
    panic!(&rt; "no run met no refusal");
}
