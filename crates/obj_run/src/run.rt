ghost use Rattle.std.specs.Prelude.{IfOk, IfErr, map};
ghost use Rattle.tac_ir.specs.GoodForm.{GoodForm};
ghost use Rattle.tac_thread.specs.Threads.{name_number};
ghost use Rattle.obj_run.specs.Runs.{IsRunAlong, IsRefusedAt, Tells};

use crate::threads::Run;
use code_layout::Layout;
use dfi_base::{Memory, Name};
use obj_mem::{SrcFault, SrcRun};
use std::alloc::Global;
use tac_ir::Code;

/// The run of a code over objects along names, with this input. It takes time by the square of the names.
pub fn obj_run(alloc: Global, c: &Code, input: &[i32], names: &[Name]) -> Result<SrcRun, SrcFault>
    requires { GoodForm c.now }
    ensures run { IfOk result (IsRunAlong c.now input.now (map name_number names.now)) }
    ensures fault { IfErr result (Tells c.now input.now (map name_number names.now)) }
{
    match along(alloc, c, input, names) {
        Ok(Ok(run)) => Ok(run),
        Ok(Err(k)) => Err(SrcFault::NotRunnable { k }),
        Err(_) => Err(SrcFault::Memory),
    }
}

// The run, or the place of the name that is refused, from 1.
fn along(
    alloc: Global,
    c: &Code,
    input: &[i32],
    names: &[Name],
) -> Result<Result<SrcRun, u64>, Memory>
    requires { GoodForm c.now }
    ensures run { IfOk result (λ inner. IfOk inner (IsRunAlong c.now input.now (map name_number names.now))) }
    ensures refused { IfOk result (λ inner. IfErr inner (IsRefusedAt c.now input.now (map name_number names.now))) }
{
    let layout = Layout::of(alloc, c)?;
    let mut run = Run::new(alloc, c, &layout, input)?;
    for (k, name) in names.iter().enumerate() {
        if !run.step(c, &layout, *name)? {
            return Ok(Err(k as u64 + 1));
        }
    }
    Ok(Ok(run.finish()?))
}
