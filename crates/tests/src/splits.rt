//! A text split at a character: once, at the first occurrence, and at each occurrence.

use crate::checks::holds;
use std::process::Abort;
use utf16string::{BE, LE, Utf16Order, WString};

// A text, the character, and what is before it and after it. At an odd offset the bytes of U+10000
// contain the unit of U+00D8 in little endian, and the unit of U+00DC in big endian.
const SPLITS: [(&str, char, Option<(&str, &str)>); 13] = [
    ("", '=', None),
    ("key", '=', None),
    ("=", '=', Some(("", ""))),
    ("=value", '=', Some(("", "value"))),
    ("key=", '=', Some(("key", ""))),
    ("key=value", '=', Some(("key", "value"))),
    ("a=b=c", '=', Some(("a", "b=c"))),
    ("a\u{10000}b", '\u{10000}', Some(("a", "b"))),
    (
        "\u{10001}\u{10000}\u{FFFF}",
        '\u{10000}',
        Some(("\u{10001}", "\u{FFFF}")),
    ),
    ("\u{10001}\u{10400}", '\u{10000}', None),
    ("\u{10000}", '\u{D8}', None),
    ("\u{10000}", '\u{DC}', None),
    (
        "\u{10000}\u{D8}\u{DC}",
        '\u{DC}',
        Some(("\u{10000}\u{D8}", "")),
    ),
];

fn split_is<E: Utf16Order>(
    rt: &(impl Abort + AllocGlobal),
    text: &str,
    delimiter: char,
    wanted: Option<(&str, &str)>,
) {
    let text = WString::<E>::from_str(rt.alloc(), text).expect(rt, "memory");
    let same = match (text.as_wstr().split_once(delimiter), wanted) {
        (Some((front, back)), Some(parts)) => front.eq_str(parts.0) && back.eq_str(parts.1),
        (None, None) => true,
        _ => false,
    };
    holds(rt, same);
}

// A bug that no clause excludes: in the built code, a character is found inside another.
#[test]
fn split_once_at_the_first(rt: HostRuntime) {
    for (text, delimiter, wanted) in SPLITS {
        split_is::<LE>(&rt, text, delimiter, wanted);
        split_is::<BE>(&rt, text, delimiter, wanted);
    }
}

fn parts_are<E: Utf16Order>(
    rt: &(impl Abort + AllocGlobal),
    text: &str,
    delimiter: char,
    wanted: &[&str],
) {
    let text = WString::<E>::from_str(rt.alloc(), text).expect(rt, "memory");
    let mut parts = text.as_wstr().split(delimiter);
    let mut same = true;
    for wanted in wanted {
        same &= match parts.next() {
            Some(part) => part.eq_str(wanted),
            None => false,
        };
    }
    holds(rt, same && parts.next().is_none() && parts.next().is_none());
}

fn split_gives(rt: &(impl Abort + AllocGlobal), text: &str, delimiter: char, wanted: &[&str]) {
    parts_are::<LE>(rt, text, delimiter, wanted);
    parts_are::<BE>(rt, text, delimiter, wanted);
}

// A bug that no clause excludes: in the built code, the iterator loses an empty part.
#[test]
fn split_at_each(rt: HostRuntime) {
    split_gives(&rt, "", ',', &[""]);
    split_gives(&rt, "a", ',', &["a"]);
    split_gives(&rt, ",", ',', &["", ""]);
    split_gives(&rt, "a,b,,c", ',', &["a", "b", "", "c"]);
    split_gives(&rt, ",a,", ',', &["", "a", ""]);
    split_gives(&rt, "a\u{10001}b", '\u{10000}', &["a\u{10001}b"]);
    split_gives(&rt, "a\u{10000}b\u{10000}", '\u{10000}', &["a", "b", ""]);
    split_gives(
        &rt,
        "\u{10000}\u{D8}\u{10001}",
        '\u{D8}',
        &["\u{10000}", "\u{10001}"],
    );
}
