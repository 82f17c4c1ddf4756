//! The calls that allocate, and the values on which they are made.

use crate::memory::edits::edit;
use crate::memory::places::{copied_inside, put_inside, shrunk};
use crate::memory::streams::stream;
use crate::memory::strings::{copied, put};
use std::alloc::{AllocError, Global};
use tests_support::refusing::Refusing;
use utf16string::{Utf16Order, WString};

/// An allocator that counts.
pub type Heap<'a> = &'a Refusing<Global>;

/// A call that allocates.
#[derive(Clone, Copy, Debug, PartialEq, Eq)]
pub enum Call {
    WithCapacity,
    FromStr,
    FromWstr,
    FromIter,
    Clone,
    SplitOff,
    ToUtf8,
    ViewToUtf8,
    Push,
    PushStr,
    PushWstr,
    Insert,
    InsertWstr,
    Extend,
    ExtendByTrait,
    Reserve,
    ShrinkToFit,
    ShrinkTo,
    PushUtf8,
    InsertStr,
    ReplaceRange,
    ExtendViews,
    ExtendStrs,
    WriteStr,
    ReserveExact,
    CollectViews,
    CollectStrs,
    Replace,
    Replacen,
    Repeat,
    Drain,
    CloneByTrait,
    InsertStrInside,
    ReplaceRangeInside,
    ReplaceRangeAtEnd,
    ReserveCount,
    ReserveExactCount,
    ReplacenSeven,
    ReplacenCount,
    ReplaceText,
    RepeatCount,
    DrainInside,
    ShrinkToFitMuch,
    ShrinkToMuch,
    EditPush,
    EditPushText,
    EditInsert,
    EditInsertText,
    EditSplitOff,
    Run,
    Feed,
    FeedAny,
    FeedUtf8,
    DecodePieces,
    DecodePiecesCut,
    DecodeUtf8Pieces,
    DecodeUtf8PiecesCut,
    Filter,
    FilterAuto,
    EncodeStream,
    EncodeStreamWithBom,
}

/// A text: the same characters, over and over.
#[derive(Drop)]
pub struct Text<E: Utf16Order> {
    /// How many times it has them.
    pub count: usize,
    /// The first of them.
    pub first: char,
    pub letter: WString<E>,
    pub utf16: WString<E>,
    pub utf8: String,
}

impl<E: Utf16Order> Text<E> {
    /// Returns the text of these characters, over and over.
    pub fn new(alloc: Global, chars: &str, count: usize) -> Result<Self, AllocError> {
        let mut utf8 = String::new(alloc);
        for _ in 0..count {
            utf8.push_str(chars)?;
        }
        let first = chars.chars().next().unwrap_or('a');
        let mut letter = WString::new(alloc);
        letter.push(first)?;
        Ok(Text {
            count,
            first,
            letter,
            utf16: WString::from_str(alloc, utf8.as_str())?,
            utf8,
        })
    }
}

/// The strings to which calls append, and from which they copy.
#[derive(Drop)]
pub struct Held<'a, E: Utf16Order> {
    pub utf16: WString<E, Heap<'a>>,
    pub utf8: String<Heap<'a>>,
}

impl<'a, E: Utf16Order> Held<'a, E> {
    /// Returns empty strings without capacity.
    pub fn empty(heap: Heap<'a>) -> Self {
        Held {
            utf16: WString::new(heap),
            utf8: String::new(heap),
        }
    }

    /// Returns strings of a text, without spare capacity.
    pub fn full(heap: Heap<'a>, text: &Text<E>) -> Result<Self, AllocError> {
        let mut utf8 = String::with_capacity(heap, text.utf8.len())?;
        utf8.push_str(text.utf8.as_str())?;
        Ok(Held {
            utf16: WString::from_wstr(heap, text.utf16.as_wstr())?,
            utf8,
        })
    }
}

/// Makes a call. Afterwards the heap's counts are the call's.
pub fn make<'a, E: Utf16Order>(
    alloc: Global,
    heap: Heap<'a>,
    call: Call,
    text: &Text<E>,
    held: &mut Held<'a, E>,
) -> Result<(), AllocError> {
    heap.refuse_none();
    match call {
        Call::WithCapacity => {
            let _made = WString::<E, Heap>::with_capacity(heap, text.utf16.len())?;
        }
        Call::FromStr => {
            let _made = WString::<E, Heap>::from_str(heap, text.utf8.as_str())?;
        }
        Call::FromWstr => {
            let _made = WString::<E, Heap>::from_wstr(heap, text.utf16.as_wstr())?;
        }
        Call::FromIter => {
            let made: Result<WString<E, Heap>, AllocError> = text.utf16.chars().collect(heap);
            let _made = made?;
        }
        Call::ToUtf8 => {
            let _made = text.utf16.to_utf8(heap)?;
        }
        Call::ViewToUtf8 => {
            let _made = text.utf16.as_wstr().to_utf8(heap)?;
        }
        _ => return grow(alloc, heap, call, text, held),
    }
    Ok(())
}

// Makes a call that appends a text, or passes the call to `change`.
fn grow<'a, E: Utf16Order>(
    alloc: Global,
    heap: Heap<'a>,
    call: Call,
    text: &Text<E>,
    held: &mut Held<'a, E>,
) -> Result<(), AllocError> {
    match call {
        Call::Push => held.utf16.push(text.first),
        Call::PushStr => held.utf16.push_str(text.utf8.as_str()),
        Call::PushWstr => held.utf16.push_wstr(text.utf16.as_wstr()),
        Call::PushUtf8 => text.utf16.as_wstr().push_utf8(&mut held.utf8),
        Call::Extend => held.utf16.extend(text.utf16.chars()),
        Call::ExtendByTrait => Extend::extend(&mut held.utf16, text.utf16.chars()),
        Call::Reserve => held.utf16.reserve(text.utf16.len()),
        _ => change(alloc, heap, call, text, held),
    }
}

// Makes a call at the start of a string or on its capacity, or passes the call to `others`.
fn change<'a, E: Utf16Order>(
    alloc: Global,
    heap: Heap<'a>,
    call: Call,
    text: &Text<E>,
    held: &mut Held<'a, E>,
) -> Result<(), AllocError> {
    match call {
        Call::Insert if held.utf16.is_char_boundary(0) => held.utf16.insert(0, text.first),
        Call::InsertWstr if held.utf16.is_char_boundary(0) => {
            held.utf16.insert_wstr(0, text.utf16.as_wstr())
        }
        Call::SplitOff if held.utf16.is_char_boundary(0) => {
            let _rest = held.utf16.split_off(0)?;
            Ok(())
        }
        Call::Clone => {
            let _copy = held.utf16.clone()?;
            Ok(())
        }
        Call::ShrinkToFit => {
            held.utf16.reserve(64)?;
            heap.refuse_none();
            held.utf16.shrink_to_fit()
        }
        Call::ShrinkTo => {
            held.utf16.reserve(64)?;
            heap.refuse_none();
            held.utf16.shrink_to(0)
        }
        _ => others(alloc, heap, call, text, held),
    }
}

// Makes a call of another module.
fn others<'a, E: Utf16Order>(
    alloc: Global,
    heap: Heap<'a>,
    call: Call,
    text: &Text<E>,
    held: &mut Held<'a, E>,
) -> Result<(), AllocError> {
    if let Some(done) = put(call, text, held) {
        return done;
    }
    if let Some(done) = copied(heap, call, text, held) {
        return done;
    }
    if let Some(done) = put_inside(call, text, held) {
        return done;
    }
    if let Some(done) = copied_inside(heap, call, text, held) {
        return done;
    }
    if let Some(done) = shrunk(heap, call, text, held) {
        return done;
    }
    match edit(heap, call, text, held) {
        Some(done) => done,
        None => stream(alloc, heap, call, text, &mut held.utf16),
    }
}
