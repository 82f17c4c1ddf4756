//! The programs: their names, and the words that each of them knows.

ghost use Rattle.std.specs.Prelude.{◌≡◌, ◌↔◌, [], ◌∷◌, ◌++◌, Some, codes};
ghost use Rattle.utf16_program.specs.Words.{HasJob, choices_of, name_of, table_of};
ghost use Rattle.utf16_program.specs.declared.job.Job.{Job};

use crate::job::Job;

/// A program.
#[derive(Clone, Copy, Debug, PartialEq, Eq)]
pub enum Program {
    /// `utf16_cat` decodes UTF-16 to UTF-8.
    Cat,
    /// `utf16_enc` encodes UTF-8 in UTF-16.
    Enc,
    /// `utf16_check` reports where UTF-16 is ill-formed.
    Check,
}

impl Program {
    /// Returns the name of the program.
    pub fn name(self) -> &'static [u8]
        ensures { result.now ≡ name_of self }
    {
        match self {
            Program::Cat => b"utf16_cat",
            Program::Enc => b"utf16_enc",
            Program::Check => b"utf16_check",
        }
    }

    /// Returns what follows the name of the program in its usage: a blank, the words that it knows,
    /// with `|` between them, and a newline.
    pub fn usage(self) -> &'static [u8]
        ensures { result.now ≡ codes " " ++ choices_of (table_of self) ++ 0x0A ∷ [] }
    {
        match self {
            Program::Cat | Program::Check => b" le|be|auto\n",
            Program::Enc => b" le|be|le-bom|be-bom\n",
        }
    }

    /// Returns the job that a word names, if the program knows the word.
    pub fn job(self, word: &str) -> Option<Job>
        ensures { (job : Job) → (result ≡ Some job) ↔ HasJob (table_of self) word.now job }
    {
        match (self, word) {
            (Program::Cat, "le") => Some(Job::Decode(Some(false))),
            (Program::Cat, "be") => Some(Job::Decode(Some(true))),
            (Program::Cat, "auto") => Some(Job::Decode(None)),
            (Program::Enc, "le") => Some(Job::Encode(false)),
            (Program::Enc, "be") => Some(Job::Encode(true)),
            (Program::Enc, "le-bom") => Some(Job::EncodeWithBom(false)),
            (Program::Enc, "be-bom") => Some(Job::EncodeWithBom(true)),
            (Program::Check, "le") => Some(Job::Check(Some(false))),
            (Program::Check, "be") => Some(Job::Check(Some(true))),
            (Program::Check, "auto") => Some(Job::Check(None)),
            _ => None,
        }
    }
}
