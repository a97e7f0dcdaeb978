//! Lists of what some of the parts in turn give.

ghost use Rattle.std.specs.Prelude.{◌++◌, Ok};
ghost use Rattle.c_types.specs.tools.Steps.{Leaves, if_some};

use c_typed::TypeFault;
use sqlite_items::Items;

/// Adds the item, if there is one.
pub fn push_some<T: Drop>(out: &mut Items<T>, item: Option<T>) -> Result<(), TypeFault>
    ensures { Leaves result out.new (Ok (tt, out.old ++ if_some item)) }
{
    if let Some(item) = item {
        out.push(item)?;
    }
    Ok(())
}
