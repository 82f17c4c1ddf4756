//! Edits as values, and their effect.

ghost use Rattle.std.specs.Prelude.{◌≡◌, ◌⊎◌, ◌≤◌, ◌↔◌, All, IfOk, IfSome, IsOk, IsTrue, None, OnErr, [], filter, if◌then◌else◌, is_ok, vec_capacity, vec_len};
ghost use Rattle.utf16_tools.specs.Edited.{EachFits};
ghost use Rattle.utf16_tools.specs.Step.{MayAllocate, HasCapacityFor, IsPossible, Run, Step, is_in};
ghost use Rattle.utf16string.specs.Boundary.{IsBoundary};
ghost use Rattle.utf16string.specs.WString.{IsUnchanged, wstring_capacity, wstring_text};

use std::alloc::{AllocError, Allocator, Global};
use utf16string::{Utf16Order, WString};

/// An edit of a string, as a value. Offsets and lengths count bytes.
#[derive(Drop)]
pub enum Edit<E: Utf16Order, A: Allocator = Global> {
    /// Appends a character.
    Push(char),
    /// Appends a text.
    PushText(WString<E, A>),
    /// Removes the last character.
    Pop,
    /// Inserts a character at an offset.
    Insert(usize, char),
    /// Inserts a text at an offset.
    InsertText(usize, WString<E, A>),
    /// Removes the character at an offset.
    Remove(usize),
    /// Keeps the characters that are in the vector, and removes the others.
    Retain(Vec<char, A>),
    /// Shortens the text to a length; does nothing if the text is not longer.
    Truncate(usize),
    /// Removes what follows an offset. The reply holds it.
    SplitOff(usize),
    /// Writes a text over the bytes that start at an offset. The length of the string stays the
    /// same.
    Overwrite(usize, WString<E, A>),
    /// Removes all characters.
    Clear,
}

/// The result of an edit.
#[derive(Drop)]
pub enum Reply<E: Utf16Order, A: Allocator = Global> {
    /// The edit was made.
    Done,
    /// The character that was removed.
    Char(char),
    /// There was no character to remove.
    Nothing,
    /// The text that was split off.
    Rest(WString<E, A>),
    /// The offset is not a character boundary of the text, or the edit is not possible at it.
    /// Nothing has changed.
    BadOffset,
    /// Allocation failed. Nothing has changed.
    NoMemory,
}

/// Applies an edit to a string, and returns its result. It tests the offset before it allocates. An
/// edit that does not allocate leaves the capacity unchanged.
///
/// # Errors
///
/// `BadOffset` if the edit is not possible at its offset, and `NoMemory` if allocation fails. In
/// both cases the string is unchanged. Allocation does not fail if the result fits in the capacity,
/// except that `SplitOff` allocates the string that it returns.
pub fn apply<E: Utf16Order, A: Allocator + Clone>(
    string: &mut WString<E, A>,
    edit: Edit<E, A>,
) -> Reply<E, A>
    ensures step { Step (wstring_text string.old) edit result (wstring_text string.new) }
    ensures unchanged { (result ≡ Reply.BadOffset) ⊎ (result ≡ Reply.NoMemory)
        → IsUnchanged string.old string.new }
    ensures grows { wstring_capacity string.old ≤ wstring_capacity string.new }
    ensures stays { MayAllocate edit
        ⊎ (wstring_capacity string.new ≡ wstring_capacity string.old) }
    ensures succeeds { HasCapacityFor string.old edit → ¬ (result ≡ Reply.NoMemory) }
{
    if !is_possible(string, &edit) {
        return Reply::BadOffset;
    }
    match edit {
        Edit::Push(c) => grown(string.push(c)),
        Edit::PushText(text) => grown(string.push_wstr(text.as_wstr())),
        Edit::Pop => taken_off(string.pop()),
        Edit::Insert(at, c) => grown(string.insert(at, c)),
        Edit::InsertText(at, text) => grown(string.insert_wstr(at, text.as_wstr())),
        Edit::Remove(at) => Reply::Char(string.remove(at)),
        Edit::Retain(set) => {
            keep(string, &set);
            Reply::Done
        }
        Edit::Truncate(len) => {
            string.truncate(len);
            Reply::Done
        }
        Edit::SplitOff(at) => split_off(string, at),
        Edit::Overwrite(at, text) => {
            string.overwrite(at, text.as_wstr());
            Reply::Done
        }
        Edit::Clear => {
            string.clear();
            Reply::Done
        }
    }
}

/// Applies a list of edits to a string, in order, and returns a reply for each. If an edit is not
/// possible or its allocation fails, its reply says so, nothing changes, and the edits after it are
/// still applied. If the capacity suffices for each edit in turn, no allocation fails. Edits that
/// do not allocate leave the capacity unchanged.
///
/// # Errors
///
/// If the allocation of the replies fails, which happens before the first edit. In that case the
/// string is unchanged. An empty list allocates nothing.
pub fn run<E: Utf16Order, A: Allocator + Clone, B: Allocator, C: Allocator>(
    alloc: B,
    string: &mut WString<E, A>,
    edits: Vec<Edit<E, A>, C>,
) -> Result<Vec<Reply<E, A>, B>, AllocError>
    ensures run { IfOk result (λ replies.
        Run (wstring_text string.old) edits.items replies.items (wstring_text string.new)) }
    ensures err { OnErr result (IsUnchanged string.old string.new) }
    ensures nothing { edits.items ≡ [] → IsOk result }
    ensures served { EachFits (wstring_capacity string.old) (wstring_text string.old) edits.items
        → IfOk result (λ replies. All (λ reply. ¬ (reply ≡ Reply.NoMemory)) replies.items) }
    ensures stays { All (λ edit. ¬ (MayAllocate edit)) edits.items
        → wstring_capacity string.new ≡ wstring_capacity string.old }
{
    let mut replies = Vec::with_capacity(alloc, edits.len())?;
    apply_each(string, edits, &mut replies);
    Ok(replies)
}

// Applies a list of edits in order, and appends a reply for each to `replies`. The capacity of
// `replies` suffices, so only an edit can fail to allocate.
fn apply_each<E: Utf16Order, A: Allocator + Clone, B: Allocator, C: Allocator>(
    string: &mut WString<E, A>,
    edits: Vec<Edit<E, A>, C>,
    replies: &mut Vec<Reply<E, A>, B>,
)
    requires no_replies { replies.old.items ≡ [] }
    requires fits { vec_len edits ≤ vec_capacity replies.old }
    ensures run { Run (wstring_text string.old) edits.items replies.new.items
        (wstring_text string.new) }
    ensures served { EachFits (wstring_capacity string.old) (wstring_text string.old) edits.items
        → All (λ reply. ¬ (reply ≡ Reply.NoMemory)) replies.new.items }
    ensures stays { All (λ edit. ¬ (MayAllocate edit)) edits.items
        → wstring_capacity string.new ≡ wstring_capacity string.old }
{
    for edit in edits {
        let reply = apply(string, edit);
        let Ok(()) = replies.push(reply) else {
            unreachable!()
        };
    }
}

// Returns whether an edit is possible at its offset.
fn is_possible<E: Utf16Order, A: Allocator>(string: &WString<E, A>, edit: &Edit<E, A>) -> bool
    ensures { IsTrue result ↔ IsPossible (wstring_text string.now) edit.now }
{
    match edit {
        Edit::Insert(at, _) | Edit::InsertText(at, _) | Edit::SplitOff(at) => {
            string.is_char_boundary(*at)
        }
        Edit::Remove(at) => *at < string.len() && string.is_char_boundary(*at),
        Edit::Truncate(len) => *len >= string.len() || string.is_char_boundary(*len),
        Edit::Overwrite(at, text) => string.fits(*at, text.as_wstr()),
        _ => true,
    }
}

// Keeps the characters that are in a set.
fn keep<E: Utf16Order, A: Allocator>(string: &mut WString<E, A>, set: &[char])
    ensures text { wstring_text string.new ≡ filter (is_in set.now) (wstring_text string.old) }
    ensures capacity { wstring_capacity string.new ≡ wstring_capacity string.old }
{
    string.retain(|c| set.contains(&c));
}

// Splits off what follows a boundary, and returns the reply.
fn split_off<E: Utf16Order, A: Allocator + Clone>(
    string: &mut WString<E, A>,
    at: usize,
) -> Reply<E, A>
    requires { IsBoundary (wstring_text string.old) at }
    ensures step { Step (wstring_text string.old) (Edit.SplitOff at) result
        (wstring_text string.new) }
    ensures unchanged { result ≡ Reply.NoMemory → IsUnchanged string.old string.new }
    ensures grows { wstring_capacity string.old ≤ wstring_capacity string.new }
    ensures possible { ¬ (result ≡ Reply.BadOffset) }
{
    match string.split_off(at) {
        Ok(rest) => Reply::Rest(rest),
        Err(_) => Reply::NoMemory,
    }
}

// Returns the reply to an edit that grows the string.
fn grown<E: Utf16Order, A: Allocator>(done: Result<(), AllocError>) -> Reply<E, A>
    ensures { result ≡ (if is_ok done then Reply.Done else Reply.NoMemory) }
{
    match done {
        Ok(()) => Reply::Done,
        Err(_) => Reply::NoMemory,
    }
}

// Returns the reply to an edit that removes the last character.
fn taken_off<E: Utf16Order, A: Allocator>(last: Option<char>) -> Reply<E, A>
    ensures some { IfSome last (λ c. result ≡ Reply.Char c) }
    ensures none { last ≡ None → result ≡ Reply.Nothing }
{
    match last {
        Some(c) => Reply::Char(c),
        None => Reply::Nothing,
    }
}
