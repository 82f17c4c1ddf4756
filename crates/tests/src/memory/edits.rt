//! Edits that allocate.

use crate::memory::calls::{Call, Heap, Held, Text};
use std::alloc::AllocError;
use utf16_tools::{Edit, Reply, apply, run};
use utf16string::{Utf16Order, WString};

/// Makes an edit or a list of them, or returns `None` if a call is neither. The heap's counts start
/// again once the edits are made.
pub fn edit<'a, E: Utf16Order>(
    heap: Heap<'a>,
    call: Call,
    text: &Text<E>,
    held: &mut Held<'a, E>,
) -> Option<Result<(), AllocError>> {
    let edit = match call {
        Call::EditPush => Ok(Edit::Push(text.first)),
        Call::EditPushText => copy(heap, text).map(|text| Edit::PushText(text)),
        Call::EditInsert => Ok(Edit::Insert(0, text.first)),
        Call::EditInsertText => copy(heap, text).map(|text| Edit::InsertText(0, text)),
        Call::EditSplitOff => Ok(Edit::SplitOff(0)),
        Call::Run => return Some(run_list(heap, text, held)),
        _ => return None,
    };
    Some(match edit {
        Ok(edit) => applied(heap, edit, held),
        Err(error) => Err(error),
    })
}

fn copy<'a, E: Utf16Order>(
    heap: Heap<'a>,
    text: &Text<E>,
) -> Result<WString<E, Heap<'a>>, AllocError> {
    WString::from_wstr(heap, text.utf16.as_wstr())
}

fn applied<'a, E: Utf16Order>(
    heap: Heap<'a>,
    edit: Edit<E, Heap<'a>>,
    held: &mut Held<'a, E>,
) -> Result<(), AllocError> {
    heap.refuse_none();
    match apply(&mut held.utf16, edit) {
        Reply::NoMemory | Reply::BadOffset => Err(AllocError),
        _ => Ok(()),
    }
}

// Runs a list of as many edits as the text has repetitions. None of them allocates.
fn run_list<'a, E: Utf16Order>(
    heap: Heap<'a>,
    text: &Text<E>,
    held: &mut Held<'a, E>,
) -> Result<(), AllocError> {
    let mut edits = Vec::with_capacity(heap, text.count)?;
    for _ in 0..text.count {
        edits.push(Edit::Pop)?;
    }
    heap.refuse_none();
    let _replies = run(heap, &mut held.utf16, edits)?;
    Ok(())
}
