//! Statements with statements in them.

ghost use Rattle.std.specs.Prelude.{◌≡◌, ◌<◌, map};
ghost use Rattle.src_law.specs.Acts.{Act, an_end, ◌▷◌};
ghost use Rattle.src_law.specs.Exprs.{chosen};
ghost use Rattle.src_law.specs.Stmts as spec;
ghost use Rattle.src_law.specs.Traces.{turn};
ghost use Rattle.src_meaning.specs.tools.Knots.{IsCalling};
ghost use Rattle.src_meaning.specs.tools.Levels.{ReadsIn, seen};
ghost use Rattle.src_meaning.specs.tools.Follows.{Follows};
ghost use Rattle.src_meaning.specs.tools.Branches.{branches_of, branch_in, to_its_end};

use crate::exprs::Parts;
use crate::heard::{Hearing, Pause};
use crate::level::Level;
use c_ast::AssignOp;
use c_typed::{Branch, Condition, Stmt};
use obj_mem::{Event, Value};
use sqlite_items::Boxed;
use src_law::End;

impl<'a, F: Fn(Level<'_>, u32, &[Value], &mut Hearing<'_>) -> Result<Value, Pause> + Copy> Parts<
    'a,
    F,
> {
    /// A statement, and how it ends.
    #[cycle(stmts)]
    pub(crate) fn stmt(&self, s: &Stmt, heard: &mut Hearing<'_>) -> Result<End, Pause>
        requires { IsCalling self.now.level.fuel (F.pre self.now.call) (F.post self.now.call) }
        ensures { ReadsIn self.now.level an_end (spec.stmt (seen self.now.level) s.now) heard.old result heard.new }
    {
        match s {
            Stmt::Block(items) => self.stmts(items.as_slice(), heard),
            Stmt::Assign {
                target,
                op,
                value,
                ..
            } => self.assign(*op, target, value, heard),
            Stmt::Increment { target, .. } => self.step(AssignOp::Add, target, heard),
            Stmt::Decrement { target, .. } => self.step(AssignOp::Sub, target, heard),
            Stmt::Call { call, .. } => self.ignored(call, heard),
            Stmt::PutInt { value, .. } => self.put_int(value, heard),
            Stmt::Free { pointer, .. } => self.free(pointer, heard),
            Stmt::Return { value, .. } => self.give(value, heard),
            Stmt::Break { .. } => Ok(End::Broken),
            Stmt::Continue { .. } => Ok(End::Again),
            Stmt::If {
                condition,
                first,
                second,
                ..
            } => match second {
                None => self.when(condition, first, heard),
                Some(second) => self.choose(condition, first, second, heard),
            },
            Stmt::While {
                condition,
                body,
                ..
            } => self.while_loop(condition, body, heard),
            Stmt::For {
                start,
                condition,
                step,
                body,
                ..
            } => self.counted_loop(start, condition, step, body, heard),
            Stmt::Par { branches, .. } => self.par(branches.as_slice(), heard),
        }
    }

    #[cycle(stmts)]
    fn inner(&self, s: &Boxed<Stmt>, heard: &mut Hearing<'_>) -> Result<End, Pause>
        requires { IsCalling self.now.level.fuel (F.pre self.now.call) (F.post self.now.call) }
        ensures { ReadsIn self.now.level an_end (spec.stmt (seen self.now.level) s.now) heard.old result heard.new }
    {
        self.stmt(s.get(), heard)
    }

    /// Statements, one behind the other, to the first that does not end at its end.
    #[cycle(stmts)]
    pub(crate) fn stmts(&self, items: &[Stmt], heard: &mut Hearing<'_>) -> Result<End, Pause>
        requires { IsCalling self.now.level.fuel (F.pre self.now.call) (F.post self.now.call) }
        ensures { ReadsIn self.now.level an_end (spec.in_turn (map (spec.stmt (seen self.now.level)) items.now)) heard.old result heard.new }
    {
        for s in items {
            match self.stmt(s, heard)? {
                End::Done => {}
                end => return Ok(end),
            }
        }
        Ok(End::Done)
    }

    #[cycle(stmts)]
    fn when(
        &self,
        condition: &Condition,
        first: &Boxed<Stmt>,
        heard: &mut Hearing<'_>,
    ) -> Result<End, Pause>
        requires { IsCalling self.now.level.fuel (F.pre self.now.call) (F.post self.now.call) }
        ensures { ReadsIn self.now.level an_end (spec.condition (seen self.now.level) condition.now ▷ chosen (spec.stmt (seen self.now.level) first.now) spec.skip) heard.old result heard.new }
    {
        if self.condition(condition, heard)? {
            self.inner(first, heard)
        } else {
            Ok(End::Done)
        }
    }

    #[cycle(stmts)]
    fn choose(
        &self,
        condition: &Condition,
        first: &Boxed<Stmt>,
        second: &Boxed<Stmt>,
        heard: &mut Hearing<'_>,
    ) -> Result<End, Pause>
        requires { IsCalling self.now.level.fuel (F.pre self.now.call) (F.post self.now.call) }
        ensures { ReadsIn self.now.level an_end (spec.condition (seen self.now.level) condition.now ▷ chosen (spec.stmt (seen self.now.level) first.now) (spec.stmt (seen self.now.level) second.now)) heard.old result heard.new }
    {
        if self.condition(condition, heard)? {
            self.inner(first, heard)
        } else {
            self.inner(second, heard)
        }
    }

    #[cycle(stmts)]
    fn while_loop(
        &self,
        condition: &Condition,
        body: &Boxed<Stmt>,
        heard: &mut Hearing<'_>,
    ) -> Result<End, Pause>
        requires { IsCalling self.now.level.fuel (F.pre self.now.call) (F.post self.now.call) }
        ensures { ReadsIn self.now.level an_end (Act.loops (spec.condition (seen self.now.level) condition.now) (spec.stmt (seen self.now.level) body.now) spec.skip) heard.old result heard.new }
    {
        heard.unit(Event::Turn)?;
        if self.level.fuel == 0 {
            return Err(Pause::Off);
        }
        let inner = Parts {
            alloc: self.alloc,
            level: self.level.lowered(),
            call: self.call,
        };
        inner.while_turn(condition, body, heard)
    }

    #[cycle(stmts)]
    fn while_turn(
        &self,
        condition: &Condition,
        body: &Boxed<Stmt>,
        heard: &mut Hearing<'_>,
    ) -> Result<End, Pause>
        requires { IsCalling self.now.level.fuel (F.pre self.now.call) (F.post self.now.call) }
        ensures { ReadsIn self.now.level an_end (turn (spec.condition (seen self.now.level) condition.now) (spec.stmt (seen self.now.level) body.now) spec.skip) heard.old result heard.new }
    {
        if !self.condition(condition, heard)? {
            return Ok(End::Done);
        }
        match self.inner(body, heard)? {
            End::Broken => Ok(End::Done),
            End::Returned(value) => Ok(End::Returned(value)),
            _ => self.while_loop(condition, body, heard),
        }
    }

    #[cycle(stmts)]
    fn counted_loop(
        &self,
        start: &Boxed<Stmt>,
        condition: &Option<Condition>,
        step: &Boxed<Stmt>,
        body: &Boxed<Stmt>,
        heard: &mut Hearing<'_>,
    ) -> Result<End, Pause>
        requires { IsCalling self.now.level.fuel (F.pre self.now.call) (F.post self.now.call) }
        ensures { ReadsIn self.now.level an_end (spec.stmt (seen self.now.level) start.now ▷ spec.where_done (Act.loops (spec.guard (seen self.now.level) condition.now) (spec.stmt (seen self.now.level) body.now) (spec.stmt (seen self.now.level) step.now))) heard.old result heard.new }
    {
        match self.inner(start, heard)? {
            End::Done => self.for_loop(condition, step, body, heard),
            end => Ok(end),
        }
    }

    #[cycle(stmts)]
    fn for_loop(
        &self,
        condition: &Option<Condition>,
        step: &Boxed<Stmt>,
        body: &Boxed<Stmt>,
        heard: &mut Hearing<'_>,
    ) -> Result<End, Pause>
        requires { IsCalling self.now.level.fuel (F.pre self.now.call) (F.post self.now.call) }
        ensures { ReadsIn self.now.level an_end (Act.loops (spec.guard (seen self.now.level) condition.now) (spec.stmt (seen self.now.level) body.now) (spec.stmt (seen self.now.level) step.now)) heard.old result heard.new }
    {
        heard.unit(Event::Turn)?;
        if self.level.fuel == 0 {
            return Err(Pause::Off);
        }
        let inner = Parts {
            alloc: self.alloc,
            level: self.level.lowered(),
            call: self.call,
        };
        inner.for_turn(condition, step, body, heard)
    }

    #[cycle(stmts)]
    fn for_turn(
        &self,
        condition: &Option<Condition>,
        step: &Boxed<Stmt>,
        body: &Boxed<Stmt>,
        heard: &mut Hearing<'_>,
    ) -> Result<End, Pause>
        requires { IsCalling self.now.level.fuel (F.pre self.now.call) (F.post self.now.call) }
        ensures { ReadsIn self.now.level an_end (turn (spec.guard (seen self.now.level) condition.now) (spec.stmt (seen self.now.level) body.now) (spec.stmt (seen self.now.level) step.now)) heard.old result heard.new }
    {
        if !self.guard(condition, heard)? {
            return Ok(End::Done);
        }
        match self.inner(body, heard)? {
            End::Broken => Ok(End::Done),
            End::Returned(value) => Ok(End::Returned(value)),
            _ => {
                self.inner(step, heard)?;
                self.for_loop(condition, step, body, heard)
            }
        }
    }

    /// A fork: behind it the thread goes on past the join, or it is one of the branches.
    #[cycle(stmts)]
    fn par(&self, branches: &[Branch<Stmt>], heard: &mut Hearing<'_>) -> Result<End, Pause>
        requires { IsCalling self.now.level.fuel (F.pre self.now.call) (F.post self.now.call) }
        ensures { ReadsIn self.now.level an_end (Act.forks (branches_of (seen self.now.level) branches.now)) heard.old result heard.new }
    {
        let n = branches.len();
        if n > 15 {
            return Err(Pause::Off);
        }
        heard.unit(Event::Fork { n: n as u32 })?;
        match heard.branch() {
            None => Ok(End::Done),
            Some(i) => self.branch(branches, i, heard),
        }
    }

    // Branch `i`, from 1.
    #[cycle(stmts)]
    fn branch(
        &self,
        branches: &[Branch<Stmt>],
        i: u32,
        heard: &mut Hearing<'_>,
    ) -> Result<End, Pause>
        requires { IsCalling self.now.level.fuel (F.pre self.now.call) (F.post self.now.call) }
        ensures { Follows (branch_in self.now.level (branches_of (seen self.now.level) branches.now) i heard.old) result heard.new }
    {
        let Some(place) = i.checked_sub(1) else {
            return Err(Pause::Off);
        };
        match branches.get(place as usize) {
            None => Err(Pause::Off),
            Some(branch) => self.branch_body(branch.body.as_slice(), heard),
        }
    }

    // The statements of a branch, which ends behind them.
    #[cycle(stmts)]
    fn branch_body(&self, body: &[Stmt], heard: &mut Hearing<'_>) -> Result<End, Pause>
        requires { IsCalling self.now.level.fuel (F.pre self.now.call) (F.post self.now.call) }
        ensures { Follows (to_its_end self.now.level (spec.in_turn (map (spec.stmt (seen self.now.level)) body.now)) heard.old) result heard.new }
    {
        match self.stmts(body, heard)? {
            End::Done => heard.end(),
            _ => Err(Pause::Off),
        }
    }
}
