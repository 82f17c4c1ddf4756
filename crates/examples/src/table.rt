//! Tables of keys and values, such as configuration files: an entry in each line, and comments.

ghost use Rattle.std.specs.Prelude.{◌≡◌, IfErr, IfOk, None, map};
ghost use Rattle.examples.specs.Table.{IsTableError, entries_of, entry_in, entry_texts, first_bad, said as said_by, texts_of};
ghost use Rattle.utf16string.specs.WStr.{wstr_text};

use std::alloc::{AllocError, Allocator};
use utf16string::{Utf16Order, WStr};

/// An entry of a table. Both texts are views of the table.
#[derive(Drop)]
pub struct Entry<'a, E: Utf16Order> {
    /// The text before the first separator, without the white space at its ends.
    pub key: WStr<'a, E>,
    /// The text after it, without the white space at its ends.
    pub value: WStr<'a, E>,
}

/// Why a table was not read.
#[derive(Clone, Copy, Debug, PartialEq, Eq)]
pub enum TableError {
    /// Allocation failed.
    Memory,
    /// The line with this index, counted from 0, has text, but not the separator.
    Line(usize),
}

impl From<AllocError> for TableError {
    ghost use Rattle.examples.specs.declared.table.TableError.TheVariants.{Memory};

    ghost from_gives = { λ _ error. error ≡ Memory };

    fn from(_: AllocError) -> TableError {
        TableError::Memory
    }
}

/// Returns the entries of a table, in order. Copies no text.
///
/// A `#` begins a comment, wherever it is in a line. White space at the ends of a line, a key and a
/// value is dropped. The first separator ends the key, so that a value may have more of them. Keys
/// and values may be empty. A line with nothing but white space and a comment is blank.
///
/// # Errors
///
/// `Line` for the first line that is not blank and lacks the separator. `Memory` if there is none,
/// and allocation fails.
///
/// # Complexity
///
/// Two passes over the table.
pub fn entries<'a, E: Utf16Order, A: Allocator>(
    alloc: A,
    table: WStr<'a, E>,
    separator: char,
) -> Result<Vec<Entry<'a, E>, A>, TableError>
    ensures entries { IfOk result (λ found. map entry_texts found.items
        ≡ entries_of separator (texts_of (wstr_text table.entry))) }
    ensures good { IfOk result (λ _.
        first_bad separator (texts_of (wstr_text table.entry)) ≡ None) }
    ensures error { IfErr result (IsTableError separator (texts_of (wstr_text table.entry))) }
{
    if let Some(index) = bad_line(table, separator) {
        return Err(TableError::Line(index));
    }
    Ok(good_lines(alloc, table, separator)?)
}

// Returns the index of the first line that is neither an entry nor blank.
fn bad_line<E: Utf16Order>(table: WStr<E>, separator: char) -> Option<usize>
    ensures { result ≡ first_bad separator (texts_of (wstr_text table.entry)) }
{
    table
        .lines()
        .map(|line| said(line))
        .position(|text| !text.is_empty() && !text.contains(separator))
}

// Returns the entries of a table without a bad line.
fn good_lines<'a, E: Utf16Order, A: Allocator>(
    alloc: A,
    table: WStr<'a, E>,
    separator: char,
) -> Result<Vec<Entry<'a, E>, A>, AllocError>
    ensures { IfOk result (λ found. map entry_texts found.items
        ≡ entries_of separator (texts_of (wstr_text table.entry))) }
{
    table
        .lines()
        .map(|line| said(line))
        .filter(|text| !text.is_empty())
        .map(|text| entry_of(text, separator))
        .collect(alloc)
}

// Returns the key and the value of a line. A text without the separator is all key.
fn entry_of<'a, E: Utf16Order>(text: WStr<'a, E>, separator: char) -> Entry<'a, E>
    ensures { entry_texts result ≡ entry_in separator (wstr_text text.entry) }
{
    let (key, value) = text
        .split_once(separator)
        .unwrap_or(text.split_at(text.len()));
    Entry {
        key: key.trim(),
        value: value.trim(),
    }
}

// Returns the text of a line, without its comment and without the white space at its ends.
fn said<'a, E: Utf16Order>(line: WStr<'a, E>) -> WStr<'a, E>
    ensures { wstr_text result ≡ said_by (wstr_text line.entry) }
{
    let (text, _) = line.split_once('#').unwrap_or((line, line));
    text.trim()
}
