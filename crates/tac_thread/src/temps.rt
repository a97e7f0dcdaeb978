ghost use Rattle.std.specs.Prelude.{◌≡◌, map, IfOk};
ghost use Rattle.tac_ir.specs.declared.code.Code.{Code};
ghost use Rattle.code_layout.specs.LayoutOf.{IsLayoutOf};
ghost use Rattle.tac_thread.specs.Life.{temp};
ghost use Rattle.tac_thread.specs.Answered.{temps_from};

use crate::doing::temp;
use crate::domain::Domain;
use crate::guest::Activation;
use code_layout::Layout;
use dfi_base::Memory;
use sqlite_items::Items;
use std::alloc::Global;

/// The temporaries of a new activation of function `fun`: these values, and then the integer 0.
pub fn temps_from<D: Domain>(
    l: &Layout,
    fun: u32,
    mut values: Vec<D::Value>,
) -> Result<Items<D::Value>, Memory>
    ensures { IfOk result (λ temps. (c : Code) → IsLayoutOf c l.now → temps ≡ temps_from D.meaning c fun values.items) }
{
    let count = values.len().max(l.temps_of(fun) as usize);
    values.resize(count, D::int(0))?;
    Ok(Items::from_vec(values))
}

/// The values of some temporaries.
pub fn arguments<D: Domain>(
    alloc: Global,
    caller: &Activation<D::Value, D::Stack>,
    args: &[u32],
) -> Result<Vec<D::Value>, Memory>
    ensures { IfOk result (λ values. values.items ≡ map (temp D.meaning caller.now) args.now) }
{
    let mut values = Vec::new(alloc);
    for arg in args {
        values.push(temp::<D>(caller, *arg))?;
    }
    Ok(values)
}
