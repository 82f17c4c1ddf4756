//! A table that gives each name a number: equal names have the same number, and numbers count from
//! 0 in the order of arrival.

ghost use Rattle.std.specs.Prelude.{◌≡◌, ◌≢◌, ◌++◌, ◌<◌, ◌≤◌, ◌↔◌, ℕ, List, [], ◌∷◌, All, IfErr, IfNone, IfOk, IfSome, IsOk, IsTrue, OnErr, OnOk, Some, length, option_map, slice_get, slice_index, vec_len};
ghost use Rattle.std.specs.List.{Contains, insert as insert_at_index};
ghost use Rattle.utf16_units.specs.Numbered.{AreDistinct, IsSortOrder, IsPlace, IsTable};
ghost use Rattle.utf16_units.specs.Parts.{AreEnds, parts_of};
ghost use Rattle.examples.specs.Interner.{IsInterned};
ghost use Rattle.utf16string.specs.Encoding.{size};
ghost use Rattle.utf16string.specs.WStr.{wstr_text};
ghost use Rattle.utf16string.specs.WString.{wstring_text};

use std::alloc::{AllocError, Allocator, Global};
use std::cmp::Ordering;
use std::marker::Model;
use utf16string::{Utf16Order, WStr, WString};

/// Names, each once, with the numbers 0, 1, 2 and so on in the order of their arrival. They are
/// stored one after another in one string. Contracts state facts about the list of their texts.
#[derive(Drop)]
pub struct Interner<E: Utf16Order, A: Allocator = Global> {
    text: WString<E, A>,
    ends: Vec<usize, A>,
    order: Vec<usize, A>,
}

impl<E: Utf16Order, A: Allocator> Model for Interner<E, A> {
    ghost Value = { List (List ℕ) };

    ghost view = { λ table. parts_of (wstring_text table.text) table.ends.items };

    ghost invariant = { λ table. IsTable (wstring_text table.text) table.ends.items
        table.order.items };
}

impl<E: Utf16Order, A: Allocator> Interner<E, A> {
    /// Returns a table without names.
    ///
    /// # Errors
    ///
    /// If the allocator cannot be cloned.
    ///
    /// # Complexity
    ///
    /// Allocates nothing.
    #[tactic(auto, unfolding(utf16_units::specs::Parts::parts_from))]
    pub fn new(alloc: A) -> Result<Self, AllocError>
    where
        A: Clone,
        ensures no_names { IfOk result (λ table. table ≡ []) }
        ensures infallible { A.is_infallible alloc → IsOk result }
    {
        let ends = Vec::new(alloc.clone()?);
        let order = Vec::new(alloc.clone()?);
        Ok(Interner {
            text: WString::new(alloc),
            ends,
            order,
        })
    }

    /// Returns the number of names, which is also the number that the next new name gets.
    ///
    /// # Complexity
    ///
    /// Constant time.
    pub fn len(&self) -> usize
        ensures len { result ≡ length self.now }
        ensures distinct { AreDistinct self.now }
    {
        self.ends.len()
    }

    /// Returns whether there are no names.
    ///
    /// # Complexity
    ///
    /// Constant time.
    pub fn is_empty(&self) -> bool
        ensures { IsTrue result ↔ (self.now ≡ []) }
    {
        self.len() == 0
    }

    /// Returns the name with a number, or `None` if the number is `len()` or more.
    ///
    /// # Complexity
    ///
    /// Constant time.
    pub fn get(&self, number: usize) -> Option<WStr<'_, E>>
        ensures { option_map wstr_text result ≡ slice_get self.now number }
    {
        nth(&self.text, &self.ends, number)
    }

    /// Returns the number of a name, or `None` if no name of the table is equal to it.
    ///
    /// # Complexity
    ///
    /// A binary search: compares names once for each doubling of the table. Allocates nothing.
    pub fn find(&self, name: WStr<E>) -> Option<usize>
        ensures some { IfSome result (λ number.
            slice_get self.now number ≡ Some (wstr_text name.entry)) }
        ensures none { IfNone result (All (λ other. other ≢ wstr_text name.entry) self.now) }
    {
        match place_of(&self.text, &self.ends, &self.order, name) {
            Ok(number) => Some(number),
            Err(_) => None,
        }
    }

    /// Returns all numbers, each once, sorted by their names. Names compare by scalar values, as
    /// `str` does.
    ///
    /// # Complexity
    ///
    /// Constant time, since the sorted numbers are stored. Allocates nothing.
    pub fn sorted(&self) -> &[usize]
        ensures sorted { IsSortOrder self.now result.now }
    {
        &self.order
    }

    /// Returns the number of a name. A known name keeps its number, and the table is unchanged. A
    /// new name is added, and gets the number `len()`; all others keep theirs.
    ///
    /// # Errors
    ///
    /// If allocation fails for a new name. In that case all names and their numbers are unchanged.
    ///
    /// # Complexity
    ///
    /// A known name costs as much as `find`. For a new one, the numbers of larger names are also
    /// moved in one block. Allocates at most three times: for the text of all names, for their ends
    /// and for their order. A block grows to twice its size, or to what it must hold if that is
    /// more. It has at least eight bytes of text or four numbers.
    pub fn intern(&mut self, name: WStr<E>) -> Result<usize, AllocError>
        ensures interned { IfOk result (λ number.
            IsInterned self.old (wstr_text name.entry) number self.new) }
        ensures known { Contains self.old (wstr_text name.entry) → IsOk result }
        ensures err { OnErr result (self.new ≡ self.old) }
    {
        put_in(&mut self.text, &mut self.ends, &mut self.order, name)
    }
}

// Returns the offset in bytes at which the name with a number begins.
fn start_of(ends: &[usize], number: usize) -> usize
    requires { number ≤ length ends.now }
    ensures { result ≡ slice_index (0 ∷ ends.now) number }
{
    if number == 0 { 0 } else { ends[number - 1] }
}

// Returns the name with a number, if there is one.
#[tactic(auto, using(utf16_units::proofs::Rules::parts))]
fn nth<'a, E: Utf16Order, A: Allocator>(
    text: &'a WString<E, A>,
    ends: &[usize],
    number: usize,
) -> Option<WStr<'a, E>>
    requires { AreEnds (wstring_text text.now) ends.now }
    ensures { option_map wstr_text result ≡ slice_get (parts_of (wstring_text text.now) ends.now)
        number }
{
    if number < ends.len() {
        Some(name_at(text, ends, number))
    } else {
        None
    }
}

// Returns the name with a number.
#[tactic(auto, using(utf16_units::proofs::Rules::parts))]
fn name_at<'a, E: Utf16Order, A: Allocator>(
    text: &'a WString<E, A>,
    ends: &[usize],
    number: usize,
) -> WStr<'a, E>
    requires ends { AreEnds (wstring_text text.now) ends.now }
    requires within { number < length ends.now }
    ensures { slice_get (parts_of (wstring_text text.now) ends.now) number
        ≡ Some (wstr_text result) }
{
    text.index(start_of(ends, number)..ends[number])
}

// Returns the number of a name, which is added first if it is new.
#[tactic(auto, using(utf16_units::proofs::Rules::tables))]
fn put_in<E: Utf16Order, A: Allocator>(
    text: &mut WString<E, A>,
    ends: &mut Vec<usize, A>,
    order: &mut Vec<usize, A>,
    name: WStr<E>,
) -> Result<usize, AllocError>
    requires { IsTable (wstring_text text.old) ends.old.items order.old.items }
    ensures table { IsTable (wstring_text text.new) ends.new.items order.new.items }
    ensures interned { IfOk result (λ number.
        IsInterned (parts_of (wstring_text text.old) ends.old.items) (wstr_text name.entry) number
        (parts_of (wstring_text text.new) ends.new.items)) }
    ensures known { Contains (parts_of (wstring_text text.old) ends.old.items)
        (wstr_text name.entry) → IsOk result }
    ensures err { OnErr result (parts_of (wstring_text text.new) ends.new.items
        ≡ parts_of (wstring_text text.old) ends.old.items) }
{
    match place_of(text, ends, order, name) {
        Ok(number) => Ok(number),
        Err(place) => {
            let number = ends.len();
            insert(text, ends, order, name, place)?;
            Ok(number)
        }
    }
}

// Returns the number of a name, or the place where its number belongs among the sorted ones.
#[tactic(auto, using(utf16_units::proofs::Rules::halving))]
fn place_of<E: Utf16Order, A: Allocator>(
    text: &WString<E, A>,
    ends: &[usize],
    order: &[usize],
    name: WStr<E>,
) -> Result<usize, usize>
    requires ends { AreEnds (wstring_text text.now) ends.now }
    requires sorted { IsSortOrder (parts_of (wstring_text text.now) ends.now) order.now }
    ensures found { IfOk result (λ number.
        slice_get (parts_of (wstring_text text.now) ends.now) number
        ≡ Some (wstr_text name.entry)) }
    ensures new { OnErr result (All (λ other. other ≢ wstr_text name.entry)
        (parts_of (wstring_text text.now) ends.now)) }
    ensures place { IfErr result (IsPlace (parts_of (wstring_text text.now) ends.now) order.now
        (wstr_text name.entry)) }
{
    let mut low = 0;
    let mut high = order.len();
    while low < high {
        let mid = low + (high - low) / 2;
        let number = order[mid];
        match name_at(text, ends, number).cmp(&name) {
            Ordering::Less => low = mid + 1,
            Ordering::Equal => return Ok(number),
            Ordering::Greater => high = mid,
        }
    }
    Err(low)
}

// Appends a name, and inserts its number at a place. All capacity is reserved first, so that
// nothing has changed if that fails.
fn insert<E: Utf16Order, A: Allocator>(
    text: &mut WString<E, A>,
    ends: &mut Vec<usize, A>,
    order: &mut Vec<usize, A>,
    name: WStr<E>,
    place: usize,
) -> Result<(), AllocError>
    requires { place ≤ vec_len order.old }
    ensures text { OnOk result (wstring_text text.new ≡ wstring_text text.old
        ++ wstr_text name.entry) }
    ensures ends { OnOk result (ends.new.items ≡ ends.old.items ++ size (wstring_text text.new)
        ∷ []) }
    ensures sorted { OnOk result (order.new.items
        ≡ insert_at_index order.old.items place (length ends.old.items)) }
    ensures err { OnErr result ((wstring_text text.new ≡ wstring_text text.old)
        × (ends.new.items ≡ ends.old.items) × (order.new.items ≡ order.old.items)) }
{
    let number = ends.len();
    ends.reserve(1)?;
    order.reserve(1)?;
    text.push_wstr(name)?;
    ends.push(text.len())?;
    order.insert(place, number)?;
    Ok(())
}
