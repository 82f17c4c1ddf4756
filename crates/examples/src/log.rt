//! The lines of a log that contain a text.

ghost use Rattle.std.specs.Prelude.{◌≡◌, IfOk, map};
ghost use Rattle.std.specs.Char.{to_ascii_lowercase as lower_case};
ghost use Rattle.std.specs.Str.Lines.{lines};
ghost use Rattle.examples.specs.Log.{folded, match_parts, matches_in};
ghost use Rattle.utf16string.specs.WStr.{wstr_text};
ghost use Rattle.utf16string.specs.WString.{wstring_text};

use std::alloc::{AllocError, Allocator};
use utf16string::{Utf16Order, WStr, WString};

/// Which texts count as the same.
#[derive(Clone, Copy, Debug, PartialEq, Eq)]
pub enum Case {
    /// Texts with the same characters.
    Exact,
    /// Texts that have the same characters in ASCII lower case.
    IgnoreAscii,
}

/// A line that contains the text.
#[derive(Drop)]
pub struct Match<'a, E: Utf16Order> {
    /// The index of the line, counted from 0.
    pub index: usize,
    /// The line without its ending, a view of the log.
    pub line: WStr<'a, E>,
}

/// Returns the lines of a log that contain a text, in order. The empty text is in each line.
///
/// # Errors
///
/// If allocation fails.
///
/// # Complexity
///
/// One pass over the log. If case is ignored, the log is copied.
pub fn search<'a, E: Utf16Order, A: Allocator + Clone>(
    alloc: A,
    log: WStr<'a, E>,
    wanted: WStr<E>,
    case: Case,
) -> Result<Vec<Match<'a, E>, A>, AllocError>
    ensures { IfOk result (λ found. map match_parts found.items
        ≡ matches_in (folded case (wstr_text wanted.entry)) (lines (wstr_text log.entry))
        (lines (folded case (wstr_text log.entry)))) }
{
    match case {
        Case::Exact => matches(alloc, log, log, wanted),
        Case::IgnoreAscii => {
            let lower = to_ascii_lowercase(alloc.clone()?, log)?;
            let wanted = to_ascii_lowercase(alloc.clone()?, wanted)?;
            matches(alloc, log, lower.as_wstr(), wanted.as_wstr())
        }
    }
}

// Returns the lines of a log for which the line of the folded log contains a text.
fn matches<'a, E: Utf16Order, A: Allocator>(
    alloc: A,
    log: WStr<'a, E>,
    folded: WStr<E>,
    wanted: WStr<E>,
) -> Result<Vec<Match<'a, E>, A>, AllocError>
    ensures { IfOk result (λ found. map match_parts found.items
        ≡ matches_in (wstr_text wanted.entry) (lines (wstr_text log.entry))
        (lines (wstr_text folded.entry))) }
{
    log.lines()
        .zip(folded.lines())
        .enumerate()
        .filter(|(_, (_, folded))| folded.contains(wanted))
        .map(|(index, (line, _))| Match { index, line })
        .collect(alloc)
}

fn to_ascii_lowercase<E: Utf16Order, A: Allocator>(
    alloc: A,
    text: WStr<E>,
) -> Result<WString<E, A>, AllocError>
    ensures { IfOk result (λ lower.
        wstring_text lower ≡ map lower_case (wstr_text text.entry)) }
{
    text.chars().map(|c| c.to_ascii_lowercase()).collect(alloc)
}
