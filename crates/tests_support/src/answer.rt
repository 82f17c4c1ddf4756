//! The result of a call, in the words of a table.

use crate::escapes::push_escaped;
use crate::trouble::Trouble;
use crate::values::{bytes_of, has_parts};
use std::alloc::{AllocError, Global};

/// The result of a call, in words separated by spaces. If allocation for a word fails, `as_str`
/// says so.
#[derive(Drop)]
pub struct Answer {
    words: String,
    is_refused: bool,
}

impl Answer {
    /// Returns a result without words.
    pub fn new(alloc: Global) -> Self {
        Answer {
            words: String::new(alloc),
            is_refused: false,
        }
    }

    /// Returns the words of the expected result: the same words, with bytes instead of a `~` and
    /// its text or a `^` and its code units, and with the bytes or the text instead of repeated
    /// parts.
    pub fn wanted(alloc: Global, words: &[&str], is_big: bool) -> Result<Self, Trouble> {
        let mut answer = Answer::new(alloc);
        for word in words {
            answer.want(alloc, word, is_big)?;
        }
        Ok(answer)
    }

    // Adds a word of the expected result.
    fn want(&mut self, alloc: Global, word: &str, is_big: bool) -> Result<(), Trouble> {
        let is_encoded = word.starts_with('~') || word.starts_with('^');
        if is_encoded || has_parts(word) {
            let is_utf16 = !is_encoded && word.contains("*\"");
            self.text_or_bytes(&bytes_of(alloc, word, is_big)?, is_utf16);
        } else {
            self.word(word);
        }
        Ok(())
    }

    /// Returns the words so far.
    pub fn as_str(&self) -> Result<&str, Trouble> {
        if self.is_refused {
            Err(Trouble::Memory)
        } else {
            Ok(self.words.as_str())
        }
    }

    /// Returns whether there is no word so far.
    pub fn is_empty(&self) -> bool {
        self.words.is_empty()
    }

    // Records whether an allocation failed.
    fn note(&mut self, done: Result<(), AllocError>) {
        self.is_refused = self.is_refused || done.is_err();
    }

    fn put(&mut self, text: &str) {
        let done = self.words.push_str(text);
        self.note(done);
    }

    fn put_escaped(&mut self, c: char) {
        let done = push_escaped(&mut self.words, c);
        self.note(done);
    }

    // Adds the space before another word.
    fn space(&mut self) {
        if !self.words.is_empty() {
            self.put(" ");
        }
    }

    /// Adds a word.
    pub fn word(&mut self, word: &str) {
        self.space();
        self.put(word);
    }

    /// Adds a number.
    pub fn number(&mut self, number: usize) {
        self.space();
        let done = write!(self.words, "{number}");
        self.note(done);
    }

    /// Adds `true` or `false`.
    pub fn truth(&mut self, is: bool) {
        self.word(if is { "true" } else { "false" });
    }

    /// Adds bytes, two digits each, or `-` for none.
    pub fn bytes(&mut self, bytes: &[u8]) {
        self.space();
        if bytes.is_empty() {
            self.put("-");
        }
        for byte in bytes {
            let byte = *byte;
            let done = write!(self.words, "{byte:02X}");
            self.note(done);
        }
    }

    /// Adds bytes that should be UTF-8: as a text if they are, and otherwise as bytes.
    pub fn text_or_bytes(&mut self, bytes: &[u8], is_utf16: bool) {
        match str::from_utf8(bytes) {
            Ok(text) if is_utf16 => self.text(text),
            _ => self.bytes(bytes),
        }
    }

    /// Adds a text, in double quotes.
    pub fn text(&mut self, text: &str) {
        self.space();
        self.put("\"");
        for c in text.chars() {
            self.put_escaped(c);
        }
        self.put("\"");
    }

    /// Adds a character, in single quotes.
    pub fn character(&mut self, c: char) {
        self.space();
        self.put("'");
        self.put_escaped(c);
        self.put("'");
    }
}
