//! The byte order that a caller in C passes.

ghost use Rattle.std.specs.Prelude.{◌≡◌};
ghost use Rattle.dethrux.specs.Numbers.{is_big};

pub(crate) use utf16_units::{BE, LE};

pub(crate) const LITTLE_ENDIAN: u32 = 0;

pub(crate) const BIG_ENDIAN: u32 = 1;

// Returns whether it is big endian. Every other number is read as little endian.
#[inline(always)]
pub(crate) fn is_big_endian(byte_order: u32) -> bool
    ensures { result ≡ is_big byte_order }
{
    byte_order == BIG_ENDIAN
}

// Makes a call in the byte order that a caller in C passes. With `=> made`, the result is made of
// the call's in each branch, which takes six instructions less: short texts notice it.
macro_rules! in_order {
    ($byte_order:expr, $call:ident($($argument:expr),*) $(=> $made:ident)?) => {
        if $crate::byte_order::is_big_endian($byte_order) {
            $($made)?($call::<$crate::byte_order::BE>($($argument),*))
        } else {
            $($made)?($call::<$crate::byte_order::LE>($($argument),*))
        }
    };
    ($byte_order:expr, $stream:ident.$call:ident($($argument:expr),*)) => {
        if $crate::byte_order::is_big_endian($byte_order) {
            $stream.$call::<$crate::byte_order::BE>($($argument),*)
        } else {
            $stream.$call::<$crate::byte_order::LE>($($argument),*)
        }
    };
    ($byte_order:expr, $stream:ident.$call:ident::<$direction:ident>($($argument:expr),*)) => {
        if $crate::byte_order::is_big_endian($byte_order) {
            $stream.$call::<$direction<$crate::byte_order::BE>>($($argument),*)
        } else {
            $stream.$call::<$direction<$crate::byte_order::LE>>($($argument),*)
        }
    };
}

pub(crate) use in_order;
