ghost use Rattle.std.specs.Prelude.{◌≤◌, length};
ghost use Rattle.tac_ir.specs.declared.code.Code.{Code};
ghost use Rattle.tac_ir.specs.Layout.{lines_of};
ghost use Rattle.tac_ir.specs.GoodForm.{GoodForm};
ghost use Rattle.tac_thread.specs.Life.{Life};
ghost use Rattle.tac_thread.specs.RunsOn.{RunsOn, count_of};

use crate::domain::Domain;

/// Between two events a thread runs over at most as many instructions as its function has.
pub fn silence_is_short<D: Domain>()
    ensures { (c : Code) (l last : Life D.Value D.Stack) → GoodForm c → (on : RunsOn D.meaning c l last) → count_of on ≤ length (lines_of c l.top.fun) }
{}
