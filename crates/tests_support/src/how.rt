//! The byte orders and the conditions of a case.

use crate::trouble::Trouble;
use crate::values::{number_of, numbers_of};
use std::alloc::Global;

/// The allocations that fail in a case, counted from 0.
#[derive(Clone, Copy, Drop)]
pub enum Refuse {
    Nothing,
    One(u64),
    From(u64),
}

/// What a reader or a writer does in the one call in which it misbehaves.
#[derive(Clone, Copy, Drop)]
pub enum Odd {
    Fails,
    IsInterrupted,
    MovesNothing,
}

/// How a reader or a writer behaves at its calls.
#[derive(Drop)]
pub struct Device {
    /// The most bytes that it moves, call by call, over and over. With an empty list it moves all.
    pub sizes: Vec<usize>,
    /// The call in which it misbehaves, counted from 1, or 0 for none.
    pub odd_at: usize,
    /// What it does at that call.
    pub odd: Odd,
}

impl Device {
    /// Returns a device that moves all that it is offered.
    fn new(alloc: Global) -> Self {
        Device {
            sizes: Vec::new(alloc),
            odd_at: 0,
            odd: Odd::Fails,
        }
    }

    // Reads how many bytes it moves, such as `1,2`.
    fn read_sizes(&mut self, alloc: Global, word: &str) -> Result<(), Trouble> {
        self.sizes = numbers_of(alloc, word)?;
        Ok(())
    }

    // Reads what it does in the call in which it misbehaves, such as `fails@3`.
    fn read_odd(&mut self, word: &str) -> Result<(), Trouble> {
        let (odd, at) = word.split_once('@').ok_or(Trouble::Form)?;
        self.odd = match odd {
            "fails" => Odd::Fails,
            "interrupted" => Odd::IsInterrupted,
            "nothing" => Odd::MovesNothing,
            _ => return Err(Trouble::Form),
        };
        self.odd_at = number_of(at)?;
        Ok(())
    }
}

/// The byte orders and the conditions of a case.
#[derive(Drop)]
pub struct How {
    /// Whether the case is run in little endian.
    pub little: bool,
    /// Whether the case is run in big endian.
    pub big: bool,
    /// The allocations that fail.
    pub refuse: Refuse,
    /// The least capacity of a string before the call, in bytes.
    pub room: usize,
    /// Whether the result ends with the number of allocations.
    pub counted: bool,
    /// Whether the result has the capacity of the string that is left or made.
    pub capacity: bool,
    /// The reader.
    pub reads: Device,
    /// The writer.
    pub writes: Device,
}

impl How {
    /// Reads a word: `le`, `be` or `both`, and each condition after a `;`: `refuse=2`,
    /// `refuse=2..`, `with_capacity=8`, `counted`, `capacity`, `reads=1,2`, `writes=1,2`,
    /// `read=fails@3`, `write=nothing@1`.
    pub fn read(alloc: Global, word: &str) -> Result<Self, Trouble> {
        let mut parts = word.split(';');
        let (little, big) = match parts.next() {
            Some("le") => (true, false),
            Some("be") => (false, true),
            Some("both") => (true, true),
            _ => return Err(Trouble::Form),
        };
        let mut how = How {
            little,
            big,
            refuse: Refuse::Nothing,
            room: 0,
            counted: false,
            capacity: false,
            reads: Device::new(alloc),
            writes: Device::new(alloc),
        };
        for part in parts {
            how.add(alloc, part)?;
        }
        Ok(how)
    }

    // Adds a condition.
    fn add(&mut self, alloc: Global, part: &str) -> Result<(), Trouble> {
        match part.split_once('=') {
            None => self.add_word(part),
            Some(("refuse", value)) => self.refuse_as(value),
            Some(("with_capacity", value)) => self.make_room(value),
            Some((name, value)) => self.add_device(alloc, name, value),
        }
    }

    // Adds a condition that is a single word.
    fn add_word(&mut self, word: &str) -> Result<(), Trouble> {
        match word {
            "counted" => self.counted = true,
            "capacity" => self.capacity = true,
            _ => return Err(Trouble::Form),
        }
        Ok(())
    }

    // Adds which allocations fail: `2`, or `2..`.
    fn refuse_as(&mut self, value: &str) -> Result<(), Trouble> {
        self.refuse = match value.strip_suffix("..") {
            Some(first) => Refuse::From(number_of(first)? as u64),
            None => Refuse::One(number_of(value)? as u64),
        };
        Ok(())
    }

    // Adds the capacity in bytes.
    fn make_room(&mut self, value: &str) -> Result<(), Trouble> {
        self.room = number_of(value)?;
        Ok(())
    }

    // Adds a condition on the reader or the writer.
    fn add_device(&mut self, alloc: Global, name: &str, value: &str) -> Result<(), Trouble> {
        match name {
            "reads" => self.reads.read_sizes(alloc, value),
            "writes" => self.writes.read_sizes(alloc, value),
            "read" => self.reads.read_odd(value),
            "write" => self.writes.read_odd(value),
            _ => Err(Trouble::Form),
        }
    }
}
