//! The calls of `utf16_tools`, as cases name them: edits as values, one by one and as a list.

use crate::strings::{Heap, left, part, string};
use tests_support::{Answer, Run, Trouble};
use utf16_tools::{Edit, Reply, apply, run};
use utf16string::{Utf16Order, WString};

/// Does the edits of a case and adds what they gave.
pub fn call<E: Utf16Order>(case: &mut Run, name: &str) -> bool {
    match name {
        "apply" => by_apply::<E>(case),
        "run" => by_run::<E>(case),
        _ => return false,
    }
    true
}

// Takes a text that an edit holds, in memory of the case and with no spare capacity.
fn text<'a, E: Utf16Order>(case: &mut Run<'a>) -> WString<E, Heap<'a>> {
    let part = part::<E>(case);
    match WString::from_wstr(case.heap, part.as_wstr()) {
        Ok(text) => text,
        Err(_) => {
            case.refuse(Trouble::Memory);
            WString::new(case.heap)
        }
    }
}

// Takes the characters that an edit keeps, as one text.
fn set<'a>(case: &mut Run<'a>) -> Vec<char, Heap<'a>> {
    let text = case.text();
    let mut set = Vec::new(case.heap);
    for c in text.chars() {
        if set.push(c).is_err() {
            case.refuse(Trouble::Memory);
        }
    }
    set
}

// Takes an edit: its name and what it holds.
fn edit<'a, E: Utf16Order>(case: &mut Run<'a>) -> Edit<E, Heap<'a>> {
    match case.word() {
        "Pop" => Edit::Pop,
        "Clear" => Edit::Clear,
        "Push" => Edit::Push(case.character()),
        "PushText" => Edit::PushText(text(case)),
        "Retain" => Edit::Retain(set(case)),
        name => edit_at(case, name),
    }
}

// Takes what an edit at an offset holds.
fn edit_at<'a, E: Utf16Order>(case: &mut Run<'a>, name: &str) -> Edit<E, Heap<'a>> {
    let at = case.number();
    match name {
        "Remove" => Edit::Remove(at),
        "Truncate" => Edit::Truncate(at),
        "SplitOff" => Edit::SplitOff(at),
        "Insert" => Edit::Insert(at, case.character()),
        "InsertText" => Edit::InsertText(at, text(case)),
        "Overwrite" => Edit::Overwrite(at, text(case)),
        _ => {
            case.refuse(Trouble::Value);
            Edit::Clear
        }
    }
}

// Takes the remaining edits, which have a `/` between them.
fn edits<'a, E: Utf16Order>(case: &mut Run<'a>) -> Vec<Edit<E, Heap<'a>>> {
    let mut edits = Vec::new(case.alloc);
    for _ in 0..case.values.count() {
        if case.values.count() == 0 {
            break;
        }
        if edits.push(edit::<E>(case)).is_err() {
            case.refuse(Trouble::Memory);
        }
        slash(case);
    }
    edits
}

// Takes the `/` after an edit that is not the last one.
fn slash(case: &mut Run) {
    if case.values.count() != 0 && (case.word() != "/" || case.values.count() == 0) {
        case.refuse(Trouble::Value);
    }
}

// Adds a reply.
fn reply<E: Utf16Order>(answer: &mut Answer, reply: &Reply<E, Heap>) {
    match reply {
        Reply::Done => answer.word("done"),
        Reply::Char(c) => answer.character(*c),
        Reply::Nothing => answer.word("nothing"),
        Reply::Rest(rest) => answer.bytes(rest.as_bytes()),
        Reply::BadOffset => answer.word("bad_offset"),
        Reply::NoMemory => answer.word("no_memory"),
    }
}

// Adds replies, separated by `/`.
fn replies<E: Utf16Order>(answer: &mut Answer, given: &[Reply<E, Heap>]) {
    for (at, given) in given.iter().enumerate() {
        if at != 0 {
            answer.word("/");
        }
        reply(answer, given);
    }
}

// Does one edit of a string.
fn by_apply<E: Utf16Order>(case: &mut Run) {
    let mut string = string::<E>(case);
    let edit = edit::<E>(case);
    case.begin();
    reply(&mut case.answer, &apply(&mut string, edit));
    left(case, &string);
}

// Does a list of edits of a string. The replies have a `/` between them.
fn by_run<E: Utf16Order>(case: &mut Run) {
    let mut string = string::<E>(case);
    let edits = edits::<E>(case);
    case.begin();
    match run(case.heap, &mut string, edits) {
        Ok(given) => replies(&mut case.answer, &given),
        Err(_) => case.done(false),
    }
    left(case, &string);
}
