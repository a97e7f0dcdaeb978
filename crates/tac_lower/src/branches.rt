//! `par` blocks.

ghost use Rattle.std.specs.Prelude.{map};
ghost use Rattle.tac_lower.specs.tools.Emits.{Emits, Counts};
ghost use Rattle.tac_lower.specs.tools.Nested.{Forks, branch, closed};
ghost use Rattle.tac_lower.specs.Parts.{in_turn};
ghost use Rattle.tac_lower.specs.tools.Well.{WellStmts, WellBranches};
ghost use Rattle.tac_lower.specs.Stmts as spec;

use crate::draft::Ends;
use crate::stmts::NO_LOOP;
use crate::structs::Structs;
use crate::writer::{Stop, Writer};
use c_typed::{Branch, Stmt};
use sqlite_items::Items;
use tac_ir::Instr;

impl Writer {
    #[cycle(stmts)]
    pub(crate) fn par(
        &mut self,
        structs: &Structs,
        in_main: bool,
        ends: Ends,
        line: u32,
        branches: &[Branch<Stmt>],
    ) -> Result<u32, Stop>
        requires { WellBranches structs.now branches.now }
        ensures { Emits (spec.branches line (map (branch (spec.around_by structs.now in_main)) branches.now)) ends self.old self.new result }
    {
        let fork = self.fork(structs, in_main, branches)?;
        self.quiet(line, fork)?;
        self.branches(structs, in_main, ends, branches)
    }

    /// The fork in front of these branches. That of a dry run is not kept.
    #[cycle(stmts)]
    fn fork(
        &self,
        structs: &Structs,
        in_main: bool,
        branches: &[Branch<Stmt>],
    ) -> Result<Instr, Stop>
        requires { WellBranches structs.now branches.now }
        ensures { Forks (map (branch (spec.around_by structs.now in_main)) branches.now) self.now result }
    {
        let mut entries = Items::new(structs.alloc());
        let mut join = self.next.at + 1;
        if self.dry {
            return Ok(Instr::Fork { join, entries });
        }
        for b in branches {
            entries.push(join)?;
            let points = self.branch_points(structs, in_main, &b.body, b.close.0)?;
            join += points;
            if join > self.room {
                return Err(Stop::Full);
            }
        }
        Ok(Instr::Fork { join, entries })
    }

    /// How many instructions a branch will have.
    #[cycle(stmts)]
    fn branch_points(
        &self,
        structs: &Structs,
        in_main: bool,
        body: &Items<Stmt>,
        close: u32,
    ) -> Result<u32, Stop>
        requires { WellStmts structs.now body.now }
        ensures { Counts (closed (spec.around_by structs.now in_main) body.now close) self.now result }
    {
        let mut run = self.dry_run(structs.alloc());
        run.branch(structs, in_main, NO_LOOP, body, close)?;
        Ok(run.next.at - self.next.at)
    }

    /// A branch, with its end.
    #[cycle(stmts)]
    fn branch(
        &mut self,
        structs: &Structs,
        in_main: bool,
        ends: Ends,
        body: &Items<Stmt>,
        close: u32,
    ) -> Result<u32, Stop>
        requires { WellStmts structs.now body.now }
        ensures { Emits (closed (spec.around_by structs.now in_main) body.now close) ends self.old self.new result }
    {
        self.stmts(structs, in_main, ends, body.as_slice())?;
        self.quiet(close, Instr::End)
    }

    #[cycle(stmts)]
    fn branches(
        &mut self,
        structs: &Structs,
        in_main: bool,
        ends: Ends,
        branches: &[Branch<Stmt>],
    ) -> Result<u32, Stop>
        requires { WellBranches structs.now branches.now }
        ensures { Emits (in_turn (map (branch (spec.around_by structs.now in_main)) branches.now)) ends self.old self.new result }
    {
        for b in branches {
            self.branch(structs, in_main, ends, &b.body, b.close.0)?;
        }
        Ok(0)
    }
}
