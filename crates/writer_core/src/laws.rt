//! How long numbers are.
ghost use Rattle.writer_core.specs.Number.{NumbersAreShort};

/// A law of the definitions: a 64-bit number is written in at most 20 bytes, or in as many as the width says where that
/// is more.
pub fn numbers_are_short()
    ensures { NumbersAreShort }
{}
