ghost use Rattle.std.specs.Prelude.{◌≡◌, IfOk, OnErr};
ghost use Rattle.tac_ir.specs.GoodForm.{GoodForm};
ghost use Rattle.code_layout.specs.LayoutOf.{IsLayoutOf};
ghost use Rattle.tac_thread.specs.Life.{instr_of, with_top, at_index};
ghost use Rattle.tac_thread.specs.Answered.{with_value, with_none, answered_first, answered, joined};

use crate::domain::Domain;
use crate::fetch::instr_at;
use crate::guest::{Guest, Stage};
use crate::want::{Reply, ReplyOf};
use code_layout::Layout;
use dfi_base::Memory;
use tac_ir::{Code, Instr};

impl<D: Domain> Guest<D> {
    // Takes an answer, without what follows in silence.
    pub(crate) fn answer(&mut self, c: &Code, l: &Layout, reply: Reply<D>) -> Result<(), Memory>
        requires form { GoodForm c.now }
        requires laid { IsLayoutOf c.now l.now }
        ensures ok { IfOk result (λ _. self.new ≡ answered D.meaning c.now self.old reply) }
        ensures err { OnErr result (self.new ≡ self.old) }
    {
        match &self.stage {
            Stage::Ready => self.answer_first(c, l, reply),
            Stage::Entering(_) => self.enter(),
            Stage::Leaving(link) => {
                let link = *link;
                self.leave(c, Some(link));
                Ok(())
            }
            Stage::Waiting => Ok(()),
        }
    }

    fn answer_first(&mut self, c: &Code, l: &Layout, reply: Reply<D>) -> Result<(), Memory>
        requires form { GoodForm c.now }
        requires laid { IsLayoutOf c.now l.now }
        ensures ok { IfOk result (λ _. self.new ≡ answered_first D.meaning c.now self.old (instr_of c.now self.old.top) reply) }
        ensures err { OnErr result (self.new ≡ self.old) }
    {
        match reply {
            ReplyOf::Unit => self.take_none(c),
            ReplyOf::Value(value) => self.take_value(c, value),
            ReplyOf::Stack(stack) => return self.take_stack(c, l, stack),
        }
        Ok(())
    }

    fn take_value(&mut self, c: &Code, value: D::Value)
        requires { GoodForm c.now }
        ensures { self.new ≡ with_value self.old value (instr_of c.now self.old.top) }
    {
        match instr_at(c, self.top.fun, self.top.at) {
            Some(Instr::Ret { .. }) => self.stage = Stage::Leaving(value),
            Some(
                Instr::Get { to, .. }
                | Instr::Load { to, .. }
                | Instr::Same { to, .. }
                | Instr::New { to, .. }
                | Instr::In { to }
                | Instr::Left { to },
            ) => {
                self.top.set(*to, value);
                self.go_to(self.top.at + 1);
            }
            _ => {}
        }
    }

    fn take_none(&mut self, c: &Code)
        requires { GoodForm c.now }
        ensures { self.new ≡ with_none D.meaning c.now self.old (instr_of c.now self.old.top) }
    {
        match instr_at(c, self.top.fun, self.top.at) {
            Some(
                Instr::Set { .. }
                | Instr::Store { .. }
                | Instr::Free { .. }
                | Instr::Out { .. }
                | Instr::Turn,
            ) => self.go_to(self.top.at + 1),
            Some(Instr::Fork { .. }) => self.stage = Stage::Waiting,
            Some(Instr::Ret { .. }) => self.leave(c, None),
            _ => {}
        }
    }

    // Goes on at the join of a fork.
    pub(crate) fn join(&mut self, c: &Code)
        requires { GoodForm c.now }
        ensures { self.new ≡ joined c.now self.old }
    {
        if let Some(Instr::Fork { join, .. }) = instr_at(c, self.top.fun, self.top.at) {
            self.go_to(*join);
        }
    }

    fn go_to(&mut self, at: u32)
        ensures { self.new ≡ with_top self.old (at_index self.old.top at) }
    {
        self.top.at = at;
        self.stage = Stage::Ready;
    }
}
