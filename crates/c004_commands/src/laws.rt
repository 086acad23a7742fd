//! What holds of command texts. These functions do nothing: each states a law that callers may
//! cite.

ghost use Rattle.std.specs.Prelude.{List, ℕ};
ghost use Rattle.c004_commands.specs.Commands.{HasOneReading};

/// Bytes have one reading: they spell one list of commands of the INMOS IMS C004 data sheet and one
/// rest.
pub fn one_reading()
    ensures { (bytes : List ℕ) → HasOneReading bytes }
{}
