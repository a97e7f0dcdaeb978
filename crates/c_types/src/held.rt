//! Values that are held while something else may fail.

ghost use Rattle.std.specs.Prelude.{◌≡◌, Err};

use c_typed::TypeFault;

/// A fault, for which a value is let go.
pub fn refused<T: Drop, R>(value: T, fault: TypeFault) -> Result<R, TypeFault>
    ensures { result ≡ Err fault }
{
    drop(value);
    Err(fault)
}
