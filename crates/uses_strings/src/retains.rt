//! Callers that keep only some characters of a string.

ghost use Rattle.std.specs.Prelude.{◌≡◌, ◌==◌, ◌+◌, ◌-◌, ◌<◌, ◌^◌, filter, length, nat_lt, not, take, true};
ghost use Rattle.std.specs.List.{list_any};
ghost use Rattle.utf16string.specs.WString.{wstring_text};

use std::alloc::Allocator;
use utf16string::{Utf16Order, WString};

/// Removes the characters that are in a set.
pub fn without<E: Utf16Order, A: Allocator>(string: &mut WString<E, A>, dropped: &[char])
    ensures { wstring_text string.new ≡ filter (λ c. not (list_any (λ out. out == c) dropped.now))
        (wstring_text string.old) }
{
    string.retain(|c| !dropped.contains(&c));
}

/// Keeps the first `n` characters.
pub fn first_chars<E: Utf16Order, A: Allocator>(string: &mut WString<E, A>, n: usize)
    ensures { wstring_text string.new ≡ take n (wstring_text string.old) }
{
    let mut left = n;
    string.retain(
        move |_| -> bool
            ensures counts { result ≡ nat_lt 0 left.entry }
            ensures counted { left.exit ≡ left.entry - 1 }
        {
            let within = left > 0;
            left = left.saturating_sub(1);
            within
        },
    );
}

/// Counts the characters with a predicate that is called for each of them. The text is unchanged.
pub fn count_by_asking<E: Utf16Order, A: Allocator>(string: &mut WString<E, A>) -> usize
    ensures text { wstring_text string.new ≡ wstring_text string.old }
    ensures count { result ≡ length (wstring_text string.old) }
{
    let mut calls = 0;
    let mut count = |_: char| -> bool
        requires { calls + 1 < 2 ^ 64 }
        ensures always { result ≡ true }
        ensures counted { calls.exit ≡ calls.entry + 1 }
    {
        calls += 1;
        true
    };
    string.retain_by(&mut count);
    calls
}
