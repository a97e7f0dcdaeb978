//! Choices and loops.

ghost use Rattle.std.specs.Prelude.{◌≤◌, Bool};
ghost use Rattle.tac_lower.specs.declared.draft.Ends.{Ends as EndsModel};
ghost use Rattle.tac_lower.specs.tools.Emits.{Emits};
ghost use Rattle.tac_lower.specs.tools.Nested.{guarded, skipped};
ghost use Rattle.tac_lower.specs.tools.Well.{WellExpr, WellConditionThere, WellStmt};
ghost use Rattle.tac_lower.specs.Stmts as spec;

use crate::draft::Ends;
use crate::structs::Structs;
use crate::writer::{Stop, Writer};
use c_typed::{Condition, Stmt};
use sqlite_items::Boxed;

impl Writer {
    /// A condition and what it guards. The test goes past so many more.
    #[cycle(stmts)]
    pub(crate) fn when(
        &mut self,
        structs: &Structs,
        in_main: bool,
        ends: Ends,
        condition: &Condition,
        first: &Boxed<Stmt>,
        more: u32,
    ) -> Result<u32, Stop>
        requires more { more ≤ 1 }
        requires condition { WellExpr structs.now condition.now.value }
        requires first { WellStmt structs.now first.now }
        ensures { Emits (guarded (spec.around_by structs.now in_main) condition.now first.now more) ends self.old self.new result }
    {
        let past = self.points(structs, in_main, first)?;
        self.condition(structs, condition, past + more)?;
        self.stmt(structs, in_main, ends, first.get())
    }

    /// What stands behind `else`, with the jump past it.
    #[cycle(stmts)]
    pub(crate) fn otherwise(
        &mut self,
        structs: &Structs,
        in_main: bool,
        ends: Ends,
        line: u32,
        second: &Boxed<Stmt>,
    ) -> Result<u32, Stop>
        requires { WellStmt structs.now second.now }
        ensures { Emits (skipped (spec.around_by structs.now in_main) line second.now) ends self.old self.new result }
    {
        let past = self.points(structs, in_main, second)?;
        self.skip(line, past)?;
        self.stmt(structs, in_main, ends, second.get())
    }

    #[cycle(stmts)]
    pub(crate) fn while_loop(
        &mut self,
        structs: &Structs,
        in_main: bool,
        line: u32,
        condition: &Condition,
        body: &Boxed<Stmt>,
    ) -> Result<u32, Stop>
        requires condition { WellExpr structs.now condition.now.value }
        requires body { WellStmt structs.now body.now }
        ensures { (ends : EndsModel) → Emits (spec.while line (spec.condition (spec.around_by structs.now in_main) condition.now) (spec.stmt (spec.around_by structs.now in_main) body.now)) ends self.old self.new result }
    {
        let head = self.next.at;
        self.turn(line)?;
        let past = self.points(structs, in_main, body)?;
        self.condition(structs, condition, past + 1)?;
        let round = Ends {
            leave: self.next.at + past + 1,
            again: head,
        };
        self.stmt(structs, in_main, round, body.get())?;
        self.jump(line, head)
    }

    /// The condition of a `for`, if there is one.
    pub(crate) fn guard(
        &mut self,
        structs: &Structs,
        condition: &Option<Condition>,
        past: u32,
    ) -> Result<u32, Stop>
        requires past { past ≤ 65535 }
        requires well { WellConditionThere structs.now condition.now }
        ensures { (in_main : Bool) (ends : EndsModel) → Emits (spec.guard (spec.around_by structs.now in_main) condition.now past) ends self.old self.new result }
    {
        match condition {
            None => Ok(0),
            Some(condition) => self.condition(structs, condition, past),
        }
    }
}
