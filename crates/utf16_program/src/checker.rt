//! A checker of UTF-16 that comes in chunks.

ghost use Rattle.std.specs.Prelude.{◌≡◌, ◌↔◌, ◌+◌, ◌<◌, ◌≤◌, ◌^◌, ◌++◌, IfOk, OnErr, OnOk, IsTrue, length, vec_capacity, vec_len};
ghost use Rattle.utf16_program.specs.Lines.{Appends};

use crate::lines::{append_counts, append_incomplete};
use crate::order::beginning_of;
use crate::scan::scan;
use std::alloc::{AllocError, Allocator};

/// A checker of UTF-16 that comes in chunks, cut anywhere. It counts, and appends lines to bytes;
/// its caller holds the bytes that are pending.
#[derive(Drop)]
pub struct Checker {
    // `Some(true)` for big endian, `Some(false)` for little endian, and `None` until the BOM, or
    // that there is none, decides it.
    big_endian: Option<bool>,
    // The number of bytes before the pending ones.
    offset: u64,
    chars: u64,
    unpaired: u64,
    ghost few: { chars + unpaired ≤ offset },
}

impl Checker {
    ghost use Rattle.utf16_program.specs.Checker.{IsPending, StartsIn, Takes, checker_ill_formed, checker_lines, checker_offset, checker_report};

    /// Returns a checker at the beginning of an input, in the given byte order: `Some(true)` for
    /// big endian, `Some(false)` for little endian, and `None` if the BOM gives it.
    pub fn new(big_endian: Option<bool>) -> Self
        ensures { StartsIn big_endian result }
    {
        Checker {
            big_endian,
            offset: 0,
            chars: 0,
            unpaired: 0,
        }
    }

    /// Returns the number of bytes before the pending ones.
    pub fn offset(&self) -> u64
        ensures { result ≡ checker_offset self.now }
    {
        self.offset
    }

    /// Checks bytes, the pending ones and those after them. It appends a line for each ill-formed
    /// sequence that more bytes cannot change, and returns the number of bytes that are not pending
    /// any more.
    ///
    /// # Errors
    ///
    /// If the capacity does not suffice for the lines and allocation fails. In that case the
    /// checker and the lines are unchanged.
    ///
    /// # Precondition
    ///
    /// `offset` and the number of bytes fit a `u64` together.
    pub fn feed<A: Allocator>(
        &mut self,
        bytes: &[u8],
        lines: &mut Vec<u8, A>,
    ) -> Result<usize, AllocError>
        requires { checker_offset self.old + length bytes.now < 2 ^ 64 }
        ensures lines { OnOk result (lines.new.items
            ≡ lines.old.items ++ checker_lines self.old bytes.now) }
        ensures takes { IfOk result (Takes self.old self.new bytes.now) }
        ensures full { OnErr result (vec_capacity lines.old
            < vec_len lines.old + length (checker_lines self.old bytes.now)) }
        ensures nothing { OnErr result (0 < length (checker_lines self.old bytes.now)) }
        ensures unchanged { OnErr result (self.new ≡ self.old) }
        ensures err { OnErr result (lines.new.items ≡ lines.old.items) }
    {
        let Some(begins) = beginning_of(self.big_endian, bytes) else {
            return Ok(0);
        };
        let text = &bytes[begins.bom_len..];
        let offset = self.offset + begins.bom_len as u64;
        let found = scan(begins.big_endian, offset, text, lines)?;
        self.big_endian = Some(begins.big_endian);
        self.offset = offset + found.taken as u64;
        self.chars += found.chars as u64;
        self.unpaired += found.unpaired as u64;
        Ok(begins.bom_len + found.taken)
    }

    /// Ends the input: appends the line of an incomplete character, if bytes are pending, and the
    /// line that counts. Returns whether the input was well formed.
    ///
    /// # Errors
    ///
    /// If the capacity does not suffice for the lines and allocation fails. In that case the lines
    /// are unchanged.
    ///
    /// # Precondition
    ///
    /// The pending bytes are those that `feed` left.
    pub fn finish<A: Allocator>(
        self,
        pending: &[u8],
        lines: &mut Vec<u8, A>,
    ) -> Result<bool, AllocError>
        requires pending { IsPending self pending.now }
        requires fits { checker_offset self + length pending.now < 2 ^ 64 }
        ensures lines { OnOk result (lines.new.items
            ≡ lines.old.items ++ checker_report self pending.now) }
        ensures well_formed { IfOk result (λ well_formed.
            IsTrue well_formed ↔ (checker_ill_formed self pending.now ≡ 0)) }
        ensures full { OnErr result (vec_capacity lines.old
            < vec_len lines.old + length (checker_report self pending.now)) }
        ensures err { OnErr result (lines.new.items ≡ lines.old.items) }
    {
        let before = lines.len();
        match self.append_end(pending, lines) {
            Ok(()) => Ok(self.unpaired == 0 && pending.is_empty()),
            Err(error) => {
                lines.truncate(before);
                Err(error)
            }
        }
    }

    // Appends the lines that are left at the end of the input.
    fn append_end<A: Allocator>(
        &self,
        pending: &[u8],
        lines: &mut Vec<u8, A>,
    ) -> Result<(), AllocError>
        requires pending { IsPending self.now pending.now }
        requires fits { checker_offset self.now + length pending.now < 2 ^ 64 }
        ensures { Appends lines.old lines.new result (checker_report self.now pending.now) }
    {
        let bytes = self.offset + pending.len() as u64;
        if pending.is_empty() {
            return append_counts(bytes, self.chars, self.unpaired, lines);
        }
        append_incomplete(self.offset, lines)?;
        append_counts(bytes, self.chars, self.unpaired + 1, lines)
    }
}
