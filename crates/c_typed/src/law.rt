//! A law of the definition.
ghost use Rattle.c_typed.specs.TypedIsWell.{TypedIsWell};

/// Every typed program is well-formed, so that what reads one need not look at its source.
pub fn typed_is_well()
    ensures { TypedIsWell }
{}
