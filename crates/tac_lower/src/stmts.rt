//! Statements, one case for each form.

ghost use Rattle.std.specs.Prelude.{map};
ghost use Rattle.tac_lower.specs.tools.Emits.{Emits, Counts};
ghost use Rattle.tac_lower.specs.Parts.{in_turn};
ghost use Rattle.tac_lower.specs.tools.Well.{WellStmt, WellStmts};
ghost use Rattle.tac_lower.specs.Stmts as spec;

use crate::draft::Ends;
use crate::structs::Structs;
use crate::writer::{Stop, Writer};
use c_ast::AssignOp;
use c_typed::Stmt;
use sqlite_items::{Boxed, Items};

/// Where no loop stands round, and in a dry run, whose jumps are not kept.
pub const NO_LOOP: Ends = Ends { leave: 0, again: 0 };

impl Writer {
    /// A statement. What it leaves is of no use.
    #[cycle(stmts)]
    pub(crate) fn stmt(
        &mut self,
        structs: &Structs,
        in_main: bool,
        ends: Ends,
        s: &Stmt,
    ) -> Result<u32, Stop>
        requires { WellStmt structs.now s.now }
        ensures { Emits (spec.stmt (spec.around_by structs.now in_main) s.now) ends self.old self.new result }
    {
        match s {
            Stmt::Block(items) => self.stmts(structs, in_main, ends, items.as_slice()),
            Stmt::Assign {
                line,
                target,
                op,
                value,
            } => self.assignment(structs, line.0, *op, target, value),
            Stmt::Increment { line, target } => {
                self.step(structs, line.0, AssignOp::Add, target)
            }
            Stmt::Decrement { line, target } => {
                self.step(structs, line.0, AssignOp::Sub, target)
            }
            Stmt::Call { line, call } => self.argument(structs, line.0, call),
            Stmt::PutInt { line, value } => self.put_int(structs, line.0, value),
            Stmt::Free { line, pointer } => self.free(structs, line.0, pointer),
            Stmt::Return { line, value } => self.give(structs, in_main, line.0, value),
            Stmt::Break { line } => self.jump(line.0, ends.leave),
            Stmt::Continue { line } => self.jump(line.0, ends.again),
            Stmt::If {
                line,
                condition,
                first,
                second,
            } => match second {
                None => self.when(structs, in_main, ends, condition, first, 0),
                Some(second) => {
                    self.when(structs, in_main, ends, condition, first, 1)?;
                    self.otherwise(structs, in_main, ends, line.0, second)
                }
            },
            Stmt::While {
                line,
                condition,
                body,
            } => self.while_loop(structs, in_main, line.0, condition, body),
            Stmt::For {
                line,
                start,
                condition,
                step,
                body,
            } => {
                self.stmt(structs, in_main, ends, start.get())?;
                let head = self.next.at;
                self.turn(line.0)?;
                let past = self.points(structs, in_main, body)?;
                let more = self.points(structs, in_main, step)?;
                self.guard(structs, condition, past + more + 1)?;
                let again = self.next.at + past;
                let round = Ends {
                    leave: again + more + 1,
                    again,
                };
                self.stmt(structs, in_main, round, body.get())?;
                self.stmt(structs, in_main, ends, step.get())?;
                self.jump(line.0, head)
            }
            Stmt::Par { line, branches } => {
                self.par(structs, in_main, ends, line.0, branches.as_slice())
            }
        }
    }

    /// Statements, one behind the other.
    #[cycle(stmts)]
    pub(crate) fn stmts(
        &mut self,
        structs: &Structs,
        in_main: bool,
        ends: Ends,
        items: &[Stmt],
    ) -> Result<u32, Stop>
        requires { WellStmts structs.now items.now }
        ensures { Emits (in_turn (map (spec.stmt (spec.around_by structs.now in_main)) items.now)) ends self.old self.new result }
    {
        for s in items {
            self.stmt(structs, in_main, ends, s)?;
        }
        Ok(0)
    }

    /// How many instructions a statement will have: a dry run counts them.
    #[cycle(stmts)]
    pub(crate) fn points(
        &self,
        structs: &Structs,
        in_main: bool,
        s: &Boxed<Stmt>,
    ) -> Result<u32, Stop>
        requires { WellStmt structs.now s.now }
        ensures { Counts (spec.stmt (spec.around_by structs.now in_main) s.now) self.now result }
    {
        if self.dry {
            return Ok(0);
        }
        let mut run = self.dry_run(structs.alloc());
        run.stmt(structs, in_main, NO_LOOP, s.get())?;
        Ok(run.next.at - self.next.at)
    }
}
