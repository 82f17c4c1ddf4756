//! Where a pattern occurs in a view, and the parts of the view around it.

use crate::views::made::view;
use tests_support::{Answer, Run};
use utf16string::{Pattern, Utf16Order, WStr};

// A call whose pattern is a text or a character.
#[derive(Clone, Copy)]
enum PatternCall {
    Contains,
    EndsWith,
    Find,
    Rfind,
    StartsWith,
    StripPrefix,
    StripSuffix,
    TrimMatches,
    TrimStartMatches,
    TrimEndMatches,
    Parts(PartsCall),
}

// A call that gives several parts of a view.
#[derive(Clone, Copy)]
enum PartsCall {
    MatchIndices,
    RmatchIndices,
    Matches,
    Split,
    Rsplit,
    SplitInclusive,
    SplitTerminator,
    SplitOnce,
    RsplitOnce,
    Splitn,
    Rsplitn,
}

impl PatternCall {
    // Returns the call of this name.
    fn named(name: &str) -> Option<Self> {
        match name {
            "contains" => Some(PatternCall::Contains),
            "ends_with" => Some(PatternCall::EndsWith),
            "find" => Some(PatternCall::Find),
            "rfind" => Some(PatternCall::Rfind),
            "starts_with" => Some(PatternCall::StartsWith),
            "strip_prefix" => Some(PatternCall::StripPrefix),
            "strip_suffix" => Some(PatternCall::StripSuffix),
            "trim_matches" => Some(PatternCall::TrimMatches),
            "trim_start_matches" => Some(PatternCall::TrimStartMatches),
            "trim_end_matches" => Some(PatternCall::TrimEndMatches),
            _ => PartsCall::named(name).map(PatternCall::Parts),
        }
    }
}

impl PartsCall {
    // Returns the call of this name.
    fn named(name: &str) -> Option<Self> {
        match name {
            "match_indices" => Some(PartsCall::MatchIndices),
            "rmatch_indices" => Some(PartsCall::RmatchIndices),
            "matches" => Some(PartsCall::Matches),
            "split" => Some(PartsCall::Split),
            "rsplit" => Some(PartsCall::Rsplit),
            "split_inclusive" => Some(PartsCall::SplitInclusive),
            "split_terminator" => Some(PartsCall::SplitTerminator),
            "split_once" => Some(PartsCall::SplitOnce),
            "rsplit_once" => Some(PartsCall::RsplitOnce),
            "splitn" => Some(PartsCall::Splitn),
            "rsplitn" => Some(PartsCall::Rsplitn),
            _ => None,
        }
    }
}

/// Makes a call whose pattern is a text, or a character if its name says so.
pub fn call<E: Utf16Order>(run: &mut Run, text: WStr<E>, name: &str) -> bool {
    let (name, is_char) = split_name(name);
    let Some(call) = PatternCall::named(name) else {
        return false;
    };
    let count = match call {
        PatternCall::Parts(PartsCall::Splitn | PartsCall::Rsplitn) => run.number(),
        _ => 0,
    };
    if is_char {
        let pattern = run.character();
        answer(&mut run.answer, text, pattern, count, call);
    } else {
        by_text(run, text, count, call);
    }
    true
}

// Returns the name of the call for any pattern, and whether the pattern is a character.
fn split_name(name: &str) -> (&str, bool) {
    match name {
        "split" | "split_once" | "rsplit_once" => (name, true),
        "split_text" => ("split", false),
        "split_once_text" => ("split_once", false),
        "rsplit_once_text" => ("rsplit_once", false),
        _ => match name.strip_suffix("_char") {
            Some(name) => (name, true),
            None => (name, false),
        },
    }
}

fn by_text<E: Utf16Order>(run: &mut Run, text: WStr<E>, count: usize, call: PatternCall) {
    let pattern = run.bytes();
    if let Some(pattern) = view::<E>(run, &pattern) {
        answer(&mut run.answer, text, pattern, count, call);
    }
}

fn answer<E: Utf16Order, P: Pattern<E>>(
    answer: &mut Answer,
    text: WStr<E>,
    pattern: P,
    count: usize,
    call: PatternCall,
) {
    match call {
        PatternCall::Contains => answer.truth(text.contains(pattern)),
        PatternCall::EndsWith => answer.truth(text.ends_with(pattern)),
        PatternCall::Find => offset(answer, text.find(pattern)),
        PatternCall::Rfind => offset(answer, text.rfind(pattern)),
        PatternCall::StartsWith => answer.truth(text.starts_with(pattern)),
        PatternCall::StripPrefix => left(answer, text.strip_prefix(pattern)),
        PatternCall::StripSuffix => left(answer, text.strip_suffix(pattern)),
        PatternCall::TrimMatches => answer.bytes(text.trim_matches(pattern).as_bytes()),
        PatternCall::TrimStartMatches => answer.bytes(text.trim_start_matches(pattern).as_bytes()),
        PatternCall::TrimEndMatches => answer.bytes(text.trim_end_matches(pattern).as_bytes()),
        PatternCall::Parts(call) => parts(answer, text, pattern, count, call),
    }
}

/// Adds an offset, if there is one.
pub fn offset(answer: &mut Answer, at: Option<usize>) {
    match at {
        Some(at) => answer.number(at),
        None => answer.word("none"),
    }
}

// Adds what is left of a view, if it began or ended so.
fn left<E: Utf16Order>(answer: &mut Answer, part: Option<WStr<E>>) {
    match part {
        Some(part) => answer.bytes(part.as_bytes()),
        None => answer.word("none"),
    }
}

macro_rules! each {
    ($answer:expr, $parts:expr) => {
        for part in $parts {
            $answer.bytes(part.as_bytes());
        }
    };
}

macro_rules! each_at {
    ($answer:expr, $parts:expr) => {
        for (at, part) in $parts {
            $answer.number(at);
            $answer.bytes(part.as_bytes());
        }
    };
}

fn parts<E: Utf16Order, P: Pattern<E>>(
    answer: &mut Answer,
    text: WStr<E>,
    pattern: P,
    count: usize,
    call: PartsCall,
) {
    match call {
        PartsCall::MatchIndices => each_at!(answer, text.match_indices(pattern)),
        PartsCall::RmatchIndices => each_at!(answer, text.rmatch_indices(pattern)),
        PartsCall::Matches => {
            each!(answer, text.matches(pattern));
            answer.number(text.matches(pattern).count());
        }
        PartsCall::Split => each!(answer, text.split(pattern)),
        PartsCall::Rsplit => each!(answer, text.rsplit(pattern)),
        PartsCall::SplitInclusive => each!(answer, text.split_inclusive(pattern)),
        PartsCall::SplitTerminator => each!(answer, text.split_terminator(pattern)),
        PartsCall::SplitOnce => both(answer, text.split_once(pattern)),
        PartsCall::RsplitOnce => both(answer, text.rsplit_once(pattern)),
        PartsCall::Splitn => each!(answer, text.splitn(count, pattern)),
        PartsCall::Rsplitn => each!(answer, text.rsplitn(count, pattern)),
    }
}

/// Adds two parts of a view, if there are any.
pub fn both<E: Utf16Order>(answer: &mut Answer, parts: Option<(WStr<E>, WStr<E>)>) {
    match parts {
        Some((front, back)) => {
            answer.bytes(front.as_bytes());
            answer.bytes(back.as_bytes());
        }
        None => answer.word("none"),
    }
}
