//! The parts of a line of a table.

ghost use Rattle.std.specs.Prelude.{◌≡◌, ◌++◌, ◌∷◌, IfSome, codes};

/// A case: what a line of a table says, word by word.
#[derive(Clone, Copy, Drop)]
pub struct Case<'a> {
    /// The name of the case.
    pub name: &'a str,
    /// The byte orders in which the call is made, and its conditions.
    pub how: &'a str,
    /// The call.
    pub call: &'a str,
    /// The values on which it is made.
    pub values: &'a [&'a str],
    /// The expected result.
    pub wanted: &'a [&'a str],
}

impl<'a> Case<'a> {
    /// Returns the case of the words of a line: a name, how, a call, its values, `=`, and the
    /// expected result. `None` if they do not have this form.
    pub fn read(words: &'a [&'a str]) -> Option<Self>
        ensures { IfSome result (λ case. (equals : _) × (equals.now ≡ codes "=") × (words.now
            ≡ case.name ∷ case.how ∷ case.call ∷ case.values.now ++ equals ∷ case.wanted.now)) }
    {
        let (said, wanted) = around_equals(words)?;
        let [name, how, call, values @ ..] = said else {
            return None;
        };
        Some(Case {
            name,
            how,
            call,
            values,
            wanted,
        })
    }
}

// Returns the words before the first `=`, and those after it.
fn around_equals<'a>(words: &'a [&'a str]) -> Option<(&'a [&'a str], &'a [&'a str])>
    ensures { IfSome result (λ parts. (equals : _) × (equals.now ≡ codes "=")
        × (words.now ≡ parts.0.now ++ equals ∷ parts.1.now)) }
{
    for (at, word) in words.iter().enumerate() {
        if *word == "=" {
            return Some((&words[..at], &words[at + 1..]));
        }
    }
    None
}
