//! A case while it is run.

use crate::answer::Answer;
use crate::formats::add_written;
use crate::how::{How, Refuse};
use crate::refusing::Refusing;
use crate::span::Span;
use crate::trouble::Trouble;
use crate::values::{Values, number_of};
use std::alloc::Global;
use std::fmt::{Debug, Display};

/// A case while it is run: what it is run with, the values that are not taken yet, and the result
/// so far. If a value is not spelled as a call needs it, or a condition is not met, another value
/// takes its place, and `end` returns the first such trouble instead of the result.
#[derive(Drop)]
pub struct Run<'a> {
    /// Memory for all that does not belong to the case. It never fails as a case says.
    pub alloc: Global,
    /// Memory for the values of the case.
    pub heap: &'a Refusing<Global>,
    /// The conditions of the case.
    pub how: &'a How,
    /// The values that are not taken yet.
    pub values: Values<'a>,
    /// What the call gave so far.
    pub answer: Answer,
    // Whether the case is run in big endian.
    is_big: bool,
    trouble: Option<Trouble>,
}

impl<'a> Run<'a> {
    /// A case of which no value is taken.
    pub fn new(
        alloc: Global,
        heap: &'a Refusing<Global>,
        how: &'a How,
        words: &'a [&'a str],
        is_big: bool,
    ) -> Self {
        Run {
            alloc,
            heap,
            how,
            values: Values::new(words),
            answer: Answer::new(alloc),
            is_big,
            trouble: None,
        }
    }

    /// Keeps why the case is not run, if no reason is kept yet.
    pub fn refuse(&mut self, trouble: Trouble) {
        if self.trouble.is_none() {
            self.trouble = Some(trouble);
        }
    }

    /// Keeps that the call may not be made on these values.
    pub fn unmet(&mut self) {
        self.refuse(Trouble::Condition);
    }

    /// Keeps the trouble of what was done, if there was any.
    pub fn note(&mut self, done: Result<(), Trouble>) {
        self.or(done, ());
    }

    // Returns what was taken, or else another value.
    fn or<T: Drop>(&mut self, taken: Result<T, Trouble>, other: T) -> T {
        match taken {
            Ok(value) => value,
            Err(trouble) => {
                self.refuse(trouble);
                other
            }
        }
    }

    /// Takes a value as it is spelled.
    pub fn word(&mut self) -> &'a str {
        let taken = self.values.word();
        self.or(taken, "")
    }

    /// Takes a number.
    pub fn number(&mut self) -> usize {
        let taken = self.values.number();
        self.or(taken, 0)
    }

    /// Takes a character.
    pub fn character(&mut self) -> char {
        let taken = self.values.character(self.alloc);
        self.or(taken, ' ')
    }

    /// Takes a text.
    pub fn text(&mut self) -> String {
        let taken = self.values.text(self.alloc);
        self.or(taken, String::new(self.alloc))
    }

    /// Takes bytes.
    pub fn bytes(&mut self) -> Vec<u8> {
        let taken = self.values.bytes(self.alloc, self.is_big);
        self.or(taken, Vec::new(self.alloc))
    }

    /// Takes bytes in chunks. If no value remains, there are none.
    pub fn pieces(&mut self) -> Vec<Vec<u8>> {
        if self.values.count() == 0 {
            return Vec::new(self.alloc);
        }
        let taken = self.values.pieces(self.alloc, self.is_big);
        self.or(taken, Vec::new(self.alloc))
    }

    /// Takes the length of a buffer: a number, or `size` for this one.
    pub fn room(&mut self, size: usize) -> usize {
        match self.word() {
            "size" => size,
            word => self.or(number_of(word), 0),
        }
    }

    /// Takes a range.
    pub fn span(&mut self) -> Span {
        let taken = Span::read(self.word());
        self.or(taken, Span::Full)
    }

    /// Adds what a format writes for a value.
    pub fn written<T: Display + Debug>(&mut self, value: &T, format: &str) {
        let written = add_written(self.alloc, value, format, &mut self.answer);
        self.note(written);
    }

    /// From now on allocations fail as the case says, and are counted.
    pub fn begin(&self) {
        match self.how.refuse {
            Refuse::Nothing => self.heap.refuse_none(),
            Refuse::One(k) => self.heap.refuse_one(k),
            Refuse::From(k) => self.heap.refuse_from(k),
        }
    }

    /// Adds the number of allocations, if the case wants it.
    pub fn requests(&mut self) {
        if self.how.counted {
            self.answer.word("requests");
            self.answer.number(self.heap.requests() as usize);
        }
    }

    /// Adds whether a call was done or its allocation failed.
    pub fn done(&mut self, is_done: bool) {
        self.answer.word(if is_done { "done" } else { "no_memory" });
    }

    /// Returns what the call gave, and `leaked` if memory was not freed. By then all values of the
    /// case are dropped.
    pub fn end(self) -> Result<Answer, Trouble> {
        if let Some(trouble) = self.trouble {
            return Err(trouble);
        }
        self.values.end()?;
        let mut answer = self.answer;
        if self.heap.live_blocks() != 0 {
            answer.word("leaked");
        }
        Ok(answer)
    }
}
