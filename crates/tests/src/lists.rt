//! Lists of edits whose allocations fail. An edit that fails says so, and the edits after it
//! continue from the text before it. The list without the failed edits has the same replies and
//! leaves the same text. A bug that no clause excludes: `NoMemory` although no allocation failed.

use crate::checks::equal;
use std::alloc::Global;
use std::process::Abort;
use std::test::Fail;
use tests_support::refusing::Refusing;
use utf16_tools::{Edit, Reply, apply, run};
use utf16string::{BE, LE, Utf16Order, WString};

type Heap<'a> = &'a Refusing<Global>;

// An edit, with a text instead of a string.
#[derive(Clone, Copy)]
enum Command {
    Push(char),
    PushText(&'static str),
    Pop,
    Insert(usize, char),
    InsertText(usize, &'static str),
    Truncate(usize),
    SplitOff(usize),
}

// Nine edits of an empty string.
const FIRST: [Command; 9] = [
    Command::Push('a'),
    Command::Push('\u{10000}'),
    Command::Insert(4, 'x'),
    Command::SplitOff(2),
    Command::Pop,
    Command::Pop,
    Command::Push('b'),
    Command::Truncate(9),
    Command::Truncate(1),
];

// Edits that grow the text more and more.
const GROWING: [Command; 8] = [
    Command::PushText("hello"),
    Command::InsertText(0, "hello hello hello"),
    Command::Insert(1, 'x'),
    Command::SplitOff(4),
    Command::PushText("hello hello hello hello hello hello hello hello hello"),
    Command::InsertText(
        2,
        "\u{10000}\u{4E00} hello hello hello hello hello hello hello",
    ),
    Command::SplitOff(2),
    Command::Pop,
];

fn string<'a, E: Utf16Order>(rt: &impl Abort, heap: Heap<'a>, text: &str) -> WString<E, Heap<'a>> {
    WString::from_str(heap, text).expect(rt, "memory")
}

fn edit<'a, E: Utf16Order>(rt: &impl Abort, heap: Heap<'a>, command: Command) -> Edit<E, Heap<'a>> {
    match command {
        Command::Push(c) => Edit::Push(c),
        Command::PushText(text) => Edit::PushText(string(rt, heap, text)),
        Command::Pop => Edit::Pop,
        Command::Insert(at, c) => Edit::Insert(at, c),
        Command::InsertText(at, text) => Edit::InsertText(at, string(rt, heap, text)),
        Command::Truncate(len) => Edit::Truncate(len),
        Command::SplitOff(at) => Edit::SplitOff(at),
    }
}

// A reply: its name, and the character or the bytes that it holds.
fn told<'a, E: Utf16Order>(reply: &'a Reply<E, Heap>) -> (&'static str, char, &'a [u8]) {
    match reply {
        Reply::Done => ("done", '\0', &[]),
        Reply::Char(c) => ("char", *c, &[]),
        Reply::Nothing => ("nothing", '\0', &[]),
        Reply::Rest(rest) => ("rest", '\0', rest.as_bytes()),
        Reply::BadOffset => ("bad offset", '\0', &[]),
        Reply::NoMemory => ("no memory", '\0', &[]),
    }
}

// Checks that without failures the edits that did not fail have the same replies, one after the
// other, and leave the same text. Returns how many edits failed.
fn goes_on<'a, E: Utf16Order>(
    rt: &impl Abort,
    heap: Heap<'a>,
    commands: &[Command],
    replies: &[Reply<E, Heap<'a>>],
    found: &WString<E, Heap<'a>>,
) -> u64 {
    let mut text = string::<E>(rt, heap, "");
    let mut refused = 0u64;
    equal(rt, replies.len(), commands.len());
    for (reply, command) in replies.iter().zip(commands) {
        if matches!(reply, Reply::NoMemory) {
            refused = refused.saturating_add(1);
            continue;
        }
        let same = apply(&mut text, edit(rt, heap, *command));
        equal(rt, told(&same), told(reply));
    }
    equal(rt, text.as_bytes(), found.as_bytes());
    refused
}

// Checks a run of the edits in which the allocation with this number fails, and with
// `and_all_after` also all after it. Returns whether one failed. The first allocation is for the
// replies: if it fails, the text is unchanged.
fn is_refused<E: Utf16Order>(
    rt: &(impl Abort + AllocGlobal),
    commands: &[Command],
    request: u64,
    and_all_after: bool,
) -> bool {
    let heap = Refusing::<Global>::new(rt.alloc());
    let mut edits = Vec::new(rt.alloc());
    for command in commands {
        edits
            .push(edit::<E>(rt, &heap, *command))
            .expect(rt, "memory");
    }
    let mut text = string::<E>(rt, &heap, "");
    if and_all_after {
        heap.refuse_from(request);
    } else {
        heap.refuse_one(request);
    }
    let answer = run(&heap, &mut text, edits);
    let refusals = heap.refusals();
    heap.refuse_none();
    equal(rt, answer.is_err(), request == 0);
    match answer {
        Ok(replies) => equal(rt, goes_on(rt, &heap, commands, &replies, &text), refusals),
        Err(_) => equal(rt, (refusals, text.as_bytes()), (1, [].as_slice())),
    }
    drop(text);
    equal(rt, heap.live_blocks(), 0);
    refusals != 0
}

// Makes each allocation fail in turn until none does. Returns how many there are.
fn in_turn<E: Utf16Order>(
    rt: &(impl Abort + AllocGlobal),
    commands: &[Command],
    and_all_after: bool,
) -> u64 {
    for request in 0..20 {
        if !is_refused::<E>(rt, commands, request, and_all_after) {
            return request;
        }
    }
    panic!(rt; "no run met no refusal");
}

fn lists_in_turn<E: Utf16Order>(rt: &(impl Abort + AllocGlobal)) {
    for and_all_after in [false, true] {
        assert!(rt; 3 <= in_turn::<E>(rt, &FIRST, and_all_after));
        assert!(rt; 6 <= in_turn::<E>(rt, &GROWING, and_all_after));
    }
}

#[test]
fn each_request_of_a_list(rt: HostRuntime) {
    lists_in_turn::<LE>(&rt);
    lists_in_turn::<BE>(&rt);
}

// Returns two edits five thousand times: a pair appended, and a character inserted after the first.
fn pushed_and_inserted(rt: &impl AllocGlobal) -> Result<Vec<Edit<LE>>, Fail> {
    let mut edits = Vec::new(rt.alloc());
    for _ in 0..5_000 {
        edits.push(Edit::Push('\u{10000}'))?;
        edits.push(Edit::Insert(2, 'x'))?;
    }
    Ok(edits)
}

// A bug that no clause excludes: a list too long for a line of a table fails although memory is
// available.
#[test]
fn ten_thousand_edits(rt: HostRuntime) -> Result<(), Fail> {
    let mut text = WString::<LE>::from_str(rt.alloc(), "a")?;
    let replies = run(rt.alloc(), &mut text, pushed_and_inserted(&rt)?)?;
    equal(&rt, (replies.len(), text.len()), (10_000, 2 + 5_000 * 6));
    equal(&rt, text.chars().count(), 10_001);
    Ok(())
}
