//! Texts that tests share, as bytes in one of the byte orders, and the tables of characters and of
//! ill-formed bytes.

/// "hello" in little endian.
pub const HELLO: [u8; 10] = [0x68, 0, 0x65, 0, 0x6C, 0, 0x6C, 0, 0x6F, 0];

/// "hello" in big endian.
pub const HELLO_BE: [u8; 10] = [0, 0x68, 0, 0x65, 0, 0x6C, 0, 0x6C, 0, 0x6F];

/// U+10000 and "x" in little endian.
pub const PX: [u8; 6] = [0x00, 0xD8, 0x00, 0xDC, 0x78, 0x00];

/// U+10000, "x" and U+1F600 in little endian.
pub const PXG: [u8; 10] = [0x00, 0xD8, 0x00, 0xDC, 0x78, 0x00, 0x3D, 0xD8, 0x00, 0xDE];

/// "a", U+10000 and "hi" in little endian.
pub const APHI: [u8; 10] = [0x61, 0, 0x00, 0xD8, 0x00, 0xDC, 0x68, 0, 0x69, 0];

/// "a", U+10000 and "z" in big endian.
pub const APZ_BE: [u8; 8] = [0, 0x61, 0xD8, 0x00, 0xDC, 0x00, 0, 0x7A];

/// "a", U+10000 and "b" in little endian.
pub const APB: [u8; 8] = [0x61, 0, 0x00, 0xD8, 0x00, 0xDC, 0x62, 0];

/// "a", U+10000 and "b" in big endian.
pub const APB_BE: [u8; 8] = [0, 0x61, 0xD8, 0x00, 0xDC, 0x00, 0, 0x62];

/// "a", U+4E00 and U+10000 in little endian: characters of 1, 3 and 4 bytes in UTF-8.
pub const MIXED: [u8; 8] = [0x61, 0, 0x00, 0x4E, 0x00, 0xD8, 0x00, 0xDC];

/// "a", U+4E00 and U+10000 in big endian.
pub const MIXED_BE: [u8; 8] = [0, 0x61, 0x4E, 0x00, 0xD8, 0x00, 0xDC, 0x00];

/// "a", U+4E00 and U+10000 in UTF-8.
pub const MIXED_UTF8: [u8; 8] = [0x61, 0xE4, 0xB8, 0x80, 0xF0, 0x90, 0x80, 0x80];

/// A character, its bytes in little endian, its bytes in big endian, and its UTF-8.
pub type Character = (char, &'static [u8], &'static [u8], &'static [u8]);

const CHARACTERS: [Character; 15] = [
    ('\u{0061}', &[0x61, 0x00], &[0x00, 0x61], &[0x61]),
    ('\u{007F}', &[0x7F, 0x00], &[0x00, 0x7F], &[0x7F]),
    ('\u{0080}', &[0x80, 0x00], &[0x00, 0x80], &[0xC2, 0x80]),
    ('\u{07FF}', &[0xFF, 0x07], &[0x07, 0xFF], &[0xDF, 0xBF]),
    (
        '\u{0800}',
        &[0x00, 0x08],
        &[0x08, 0x00],
        &[0xE0, 0xA0, 0x80],
    ),
    (
        '\u{4E00}',
        &[0x00, 0x4E],
        &[0x4E, 0x00],
        &[0xE4, 0xB8, 0x80],
    ),
    (
        '\u{D7FF}',
        &[0xFF, 0xD7],
        &[0xD7, 0xFF],
        &[0xED, 0x9F, 0xBF],
    ),
    (
        '\u{E000}',
        &[0x00, 0xE0],
        &[0xE0, 0x00],
        &[0xEE, 0x80, 0x80],
    ),
    (
        '\u{F841}',
        &[0x41, 0xF8],
        &[0xF8, 0x41],
        &[0xEF, 0xA1, 0x81],
    ),
    (
        '\u{FEFF}',
        &[0xFF, 0xFE],
        &[0xFE, 0xFF],
        &[0xEF, 0xBB, 0xBF],
    ),
    (
        '\u{FFFD}',
        &[0xFD, 0xFF],
        &[0xFF, 0xFD],
        &[0xEF, 0xBF, 0xBD],
    ),
    (
        '\u{FFFF}',
        &[0xFF, 0xFF],
        &[0xFF, 0xFF],
        &[0xEF, 0xBF, 0xBF],
    ),
    (
        '\u{10000}',
        &[0x00, 0xD8, 0x00, 0xDC],
        &[0xD8, 0x00, 0xDC, 0x00],
        &[0xF0, 0x90, 0x80, 0x80],
    ),
    (
        '\u{1F600}',
        &[0x3D, 0xD8, 0x00, 0xDE],
        &[0xD8, 0x3D, 0xDE, 0x00],
        &[0xF0, 0x9F, 0x98, 0x80],
    ),
    (
        '\u{10FFFF}',
        &[0xFF, 0xDB, 0xFF, 0xDF],
        &[0xDB, 0xFF, 0xDF, 0xFF],
        &[0xF4, 0x8F, 0xBF, 0xBF],
    ),
];

/// Known characters.
pub fn characters() -> [Character; 15] {
    CHARACTERS
}

/// Whether the byte order is big endian, ill-formed bytes, the error's `valid_up_to` and
/// `error_len`, bytes that complete them to a text, if there are any, and the lossy text of the
/// bytes as a whole stream.
pub type IllFormed = (
    bool,
    &'static [u8],
    usize,
    Option<usize>,
    Option<&'static [u8]>,
    &'static str,
);

const ILL_FORMED: [IllFormed; 14] = [
    (false, &[0x00, 0xDC], 0, Some(2), None, "\u{FFFD}"),
    (
        false,
        &[0x00, 0xD8],
        0,
        None,
        Some(&[0x00, 0xDC]),
        "\u{FFFD}",
    ),
    (
        false,
        &[0x00, 0xD8, 0x00],
        0,
        None,
        Some(&[0xDC]),
        "\u{FFFD}",
    ),
    (false, &[0xDC], 0, None, Some(&[0x00]), "\u{FFFD}"),
    (false, &[0x41], 0, None, Some(&[0x00]), "\u{FFFD}"),
    (
        false,
        &[0x00, 0xD8, 0x41, 0x00],
        0,
        Some(2),
        None,
        "\u{FFFD}A",
    ),
    (
        false,
        &[0x00, 0xD8, 0x00, 0xD8],
        0,
        Some(2),
        None,
        "\u{FFFD}\u{FFFD}",
    ),
    (
        false,
        &[0x00, 0xDC, 0x00, 0xD8],
        0,
        Some(2),
        None,
        "\u{FFFD}\u{FFFD}",
    ),
    (
        false,
        &[0x00, 0xD8, 0x00, 0xDC, 0x00, 0xD8, 0x00, 0xDC, 0x00],
        8,
        None,
        Some(&[0x00]),
        "\u{10000}\u{10000}\u{FFFD}",
    ),
    (true, &[0xDC], 0, None, None, "\u{FFFD}"),
    (
        true,
        &[0xD8],
        0,
        None,
        Some(&[0x00, 0xDC, 0x00]),
        "\u{FFFD}",
    ),
    (
        true,
        &[0xD8, 0x00, 0xDC],
        0,
        None,
        Some(&[0x00]),
        "\u{FFFD}",
    ),
    (true, &[0xD8, 0x00, 0x00], 0, None, None, "\u{FFFD}"),
    (
        true,
        &[0x00, 0x41, 0xD8, 0x00],
        2,
        None,
        Some(&[0xDC, 0x00]),
        "A\u{FFFD}",
    ),
];

/// Known ill-formed bytes.
pub fn faults() -> [IllFormed; 14] {
    ILL_FORMED
}
