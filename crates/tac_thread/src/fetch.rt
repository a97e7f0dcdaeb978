ghost use Rattle.std.specs.Prelude.{◌≡◌, IfSome};
ghost use Rattle.std.specs.Option.{option_copied};
ghost use Rattle.tac_ir.specs.Layout.{lines_of};
ghost use Rattle.tac_ir.specs.GoodForm.{GoodForm};
ghost use Rattle.tac_thread.specs.tools.Fetched.{found_or_end, instr_in, IsUsable};

use tac_ir::{Code, Instr};

/// The instruction at a point; where there is none, it counts as `End`.
pub fn instr_at(c: &Code, fun: u32, at: u32) -> Option<&Instr>
    requires { GoodForm c.now }
    ensures same { found_or_end (option_copied result) ≡ instr_in (lines_of c.now fun) at }
    ensures usable { IfSome (option_copied result) (IsUsable c.now fun at) }
{
    match c.funs.get(fun as usize) {
        None => None,
        Some(fun) => match fun.code.get(at as usize) {
            None => None,
            Some(lined) => Some(&lined.instr),
        },
    }
}
