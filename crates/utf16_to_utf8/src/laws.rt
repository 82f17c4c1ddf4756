//! The law that relates the code units of a text to its UTF-8.

ghost use Rattle.utf16_to_utf8.specs.Utf8.{UnitsAddUtf8};

/// The bytes that the code units of a text add are its UTF-8, whatever unit comes before them.
pub fn units_add_utf8()
    ensures { UnitsAddUtf8 }
{}
