//! The effect of a list of edits, as an equation.

ghost use Rattle.std.specs.Prelude.{◌≡◌, [], ◌∷◌, All, IfOk};
ghost use Rattle.utf16_tools.specs.Edited.{no_memory, said};
ghost use Rattle.utf16string.specs.Edit.{push_text};
ghost use Rattle.utf16string.specs.WString.{wstring_text};

use std::alloc::{AllocError, Allocator};
use utf16_tools::{Edit, Reply, run};
use utf16string::{Utf16Order, WString};

/// Appends two characters with a list of two edits. If no allocation failed, the text has both.
pub fn push_two<E: Utf16Order, A: Allocator + Clone, B: Allocator + Clone>(
    alloc: B,
    string: &mut WString<E, A>,
    first: char,
    second: char,
) -> Result<Vec<Reply<E, A>, B>, AllocError>
    ensures { IfOk result (λ replies. All (λ reply. ¬ (said reply ≡ no_memory)) replies.items
        → wstring_text string.new ≡ push_text (push_text (wstring_text string.old) (first ∷ []))
        (second ∷ [])) }
{
    let mut script = Vec::new(alloc.clone()?);
    script.push(Edit::Push(first))?;
    script.push(Edit::Push(second))?;
    run(alloc, string, script)
}
