//! A table of texts, as the registry stores a list of strings: a NUL terminates each text, and one
//! more NUL the table.

ghost use Rattle.std.specs.Prelude.{◌≡◌, ◌∷◌, [], ℕ, List, All, IfErr, IfOk, IfSome, IsOk, None, OnOk, map};
ghost use Rattle.std.specs.Bool.{OnFalse, OnTrue};
ghost use Rattle.std.specs.List.{Contains};
ghost use Rattle.std.specs.Iterator.{YieldsFirstBy, item_count};
ghost use Rattle.examples.specs.MultiSz.{IsMultiSzEntry, IsReading, HasNoNul, IsWriteError, multi_sz_of, texts_in};
ghost use Rattle.utf16string.specs.WStr.{wstr_text};
ghost use Rattle.utf16string.specs.WString.{wstring_text};

use std::alloc::{AllocError, Allocator};
use std::marker::Model;
use utf16string::{Utf16Order, WStr, WString};

/// Why texts cannot form a table.
#[derive(Clone, Copy, PartialEq, Eq, Debug, Drop)]
pub enum WriteError {
    /// The text with this number, counted from 0, is empty: it would end the table.
    Empty(usize),
    /// The text with this number, counted from 0, contains a NUL: it would be read as two texts.
    HasNul(usize),
    /// Allocation failed.
    NoMemory,
}

impl From<AllocError> for WriteError {
    ghost use Rattle.examples.specs.declared.multi_sz.WriteError.TheVariants.{NoMemory};

    ghost from_gives = { λ _ error. error ≡ NoMemory };

    fn from(_: AllocError) -> WriteError {
        WriteError::NoMemory
    }
}

/// An iterator over the texts of a table, each a view without its NUL. Once `next` has returned
/// `None`, it always does.
#[derive(Drop)]
pub struct MultiSz<'a, E: Utf16Order> {
    rest: WStr<'a, E>,
}

impl<'a, E: Utf16Order> Model for MultiSz<'a, E> {
    ghost Value = { List (List ℕ) };

    ghost view = { λ it. texts_in (wstr_text it.rest) };
}

impl<'a, E: Utf16Order> Iterator for MultiSz<'a, E> {
    type Item = WStr<'a, E>;

    ghost next_gives = { YieldsFirstBy wstr_text (λ rest. rest) };

    ghost remaining = { item_count (λ rest. rest) };

    fn next(&mut self) -> Option<WStr<'a, E>> {
        let (first, rest) = first_of(self.rest)?;
        self.rest = rest;
        Some(first)
    }
}

/// Returns an iterator over the texts of a table, in order. Any text can be read as a table. An
/// empty text ends the table, and so does the end of the input; so the last NUL may be missing, and
/// also the NUL of the last text. What follows the empty text is ignored.
///
/// # Complexity
///
/// Copies nothing and allocates nothing.
pub fn texts<'a, E: Utf16Order>(table: WStr<'a, E>) -> MultiSz<'a, E>
    ensures texts { result ≡ texts_in (wstr_text table.entry) }
    ensures reading { IsReading (wstr_text table.entry) result }
{
    MultiSz { rest: table }
}

/// Returns the texts of a table in a vector, in the order in which `texts` yields them.
///
/// # Errors
///
/// If allocation fails. It does not fail for a table without texts.
pub fn read<'a, E: Utf16Order, A: Allocator>(
    alloc: A,
    table: WStr<'a, E>,
) -> Result<Vec<WStr<'a, E>, A>, AllocError>
    ensures texts { IfOk result (λ found.
        map wstr_text found.items ≡ texts_in (wstr_text table.entry)) }
    ensures reading { IfOk result (λ found.
        IsReading (wstr_text table.entry) (map wstr_text found.items)) }
    ensures nothing { texts_in (wstr_text table.entry) ≡ [] → IsOk result }
{
    let mut found = Vec::new(alloc);
    for text in texts(table) {
        found.push(text)?;
    }
    Ok(found)
}

/// Returns a table of the texts, in the given order.
///
/// # Errors
///
/// If a text is empty or contains a NUL, the error has the number of the first such text, and
/// nothing was allocated. Otherwise the error is `NoMemory`, if allocation fails.
#[tactic(auto, using(utf16_units::proofs::DelimitedLemmas::delimited))]
pub fn write<E: Utf16Order, A: Allocator>(
    alloc: A,
    texts: &[WStr<E>],
) -> Result<WString<E, A>, WriteError>
    ensures table { IfOk result (λ table.
        wstring_text table ≡ multi_sz_of (map wstr_text texts.now)) }
    ensures entries { IfOk result (λ _. All IsMultiSzEntry (map wstr_text texts.now)) }
    ensures read_back { IfOk result (λ table. texts_in (wstring_text table)
        ≡ map wstr_text texts.now) }
    ensures error { IfErr result (IsWriteError (map wstr_text texts.now)) }
{
    check(texts)?;
    Ok(joined(alloc, texts)?)
}

// Tests that no text is empty or contains a NUL. The error is for the first text that fails the
// test.
fn check<E: Utf16Order>(texts: &[WStr<E>]) -> Result<(), WriteError>
    ensures entries { OnOk result (All IsMultiSzEntry (map wstr_text texts.now)) }
    ensures error { IfErr result (IsWriteError (map wstr_text texts.now)) }
{
    for (i, text) in texts.iter().enumerate() {
        if text.is_empty() {
            return Err(WriteError::Empty(i));
        }
        if has_nul(*text) {
            return Err(WriteError::HasNul(i));
        }
    }
    Ok(())
}

fn has_nul<E: Utf16Order>(text: WStr<E>) -> bool
    ensures some { OnTrue result (Contains (wstr_text text.entry) 0) }
    ensures none { OnFalse result (HasNoNul (wstr_text text.entry)) }
{
    text.chars().any(|c| c == '\0')
}

// Returns the table of any texts.
fn joined<E: Utf16Order, A: Allocator>(
    alloc: A,
    texts: &[WStr<E>],
) -> Result<WString<E, A>, AllocError>
    ensures { IfOk result (λ table. wstring_text table ≡ multi_sz_of (map wstr_text texts.now)) }
{
    let mut table = WString::new(alloc);
    for text in texts {
        table.push_wstr(*text)?;
        table.push('\0')?;
    }
    table.push('\0')?;
    Ok(table)
}

// Returns the first text of a table and what follows it, or `None` if the table ends.
#[tactic(auto, using(utf16_units::proofs::DelimitedLemmas::delimited))]
fn first_of<'a, E: Utf16Order>(table: WStr<'a, E>) -> Option<(WStr<'a, E>, WStr<'a, E>)>
    ensures none { result ≡ None → texts_in (wstr_text table.entry) ≡ [] }
    ensures some { IfSome result (λ parts. texts_in (wstr_text table.entry)
        ≡ wstr_text parts.0 ∷ texts_in (wstr_text parts.1)) }
{
    let (first, rest) = table
        .split_once('\0')
        .unwrap_or(table.split_at(table.len()));
    if first.is_empty() {
        None
    } else {
        Some((first, rest))
    }
}
