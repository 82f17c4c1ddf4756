//! The longest common prefix of texts.

ghost use Rattle.std.specs.Prelude.{map};
ghost use Rattle.utf16string.specs.Common.{IsLongestPrefix};
ghost use Rattle.utf16string.specs.WStr.{wstr_text};

use utf16string::{Utf16Order, WStr};

/// Returns the longest common prefix of a text and all others, as a prefix of the first. A text is
/// a prefix of the result exactly if it is a prefix of all these texts. Allocates nothing.
#[tactic(auto, using(utf16string::proofs::PrefixRules::prefixes))]
pub fn common_prefix_of<'a, E: Utf16Order>(first: WStr<'a, E>, others: &[WStr<E>]) -> WStr<'a, E>
    ensures { IsLongestPrefix (wstr_text first.entry) (map wstr_text others.now)
        (wstr_text result) }
{
    let mut prefix = first;
    for other in others {
        prefix = prefix.common_prefix(*other);
    }
    prefix
}
