//! The law of the filters in both directions, proved as the contract of a function that does
//! nothing.

ghost use Rattle.utf16_streams.specs.BomLaws.{ThereAndBack};

/// Well-formed UTF-8 that passes through `encode_stream` and then through `filter`, in the same
/// byte order, comes out unchanged. So does well-formed UTF-16 that passes through `filter` and
/// then through `encode_stream`. The contracts of the filters say that they write exactly these
/// outputs, however their readers cut the bytes.
pub fn there_and_back()
    ensures { ThereAndBack }
{}
