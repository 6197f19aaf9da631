//! A law of the table of functions. Its function does nothing: its contract is the law.

ghost use Rattle.imports.specs.Uv.{AreNamedApart};

/// No two functions of "uv" have one name.
pub fn names_are_apart()
    ensures { AreNamedApart }
{}
