ghost use Rattle.std.specs.Prelude.{◌≡◌, ◌<◌, ◌++◌, ◌∷◌, [], length, vec_capacity, IfOk, OnErr};
ghost use Rattle.tac_ir.specs.GoodForm.{GoodForm};
ghost use Rattle.code_layout.specs.LayoutOf.{IsLayoutOf};
ghost use Rattle.tac_thread.specs.Life.{instr_of};
ghost use Rattle.tac_thread.specs.Answered.{with_stack, entered_stage, returns, resumed, back_at};

use crate::doing::temp;
use crate::domain::Domain;
use crate::fetch::instr_at;
use crate::guest::{Activation, Guest, Stage};
use crate::resume::resumed_at;
use crate::temps::{arguments, temps_from};
use code_layout::Layout;
use dfi_base::Memory;
use std::mem;
use tac_ir::{Code, Instr};

impl<D: Domain> Guest<D> {
    /// Takes the stack of the function that is called.
    pub(crate) fn take_stack(&mut self, c: &Code, l: &Layout, stack: D::Stack) -> Result<(), Memory>
        requires form { GoodForm c.now }
        requires laid { IsLayoutOf c.now l.now }
        ensures ok { IfOk result (λ _. self.new ≡ with_stack D.meaning c.now self.old stack (instr_of c.now self.old.top)) }
        ensures err { OnErr result (self.new ≡ self.old) }
    {
        let Some(Instr::Call { fun, args, .. }) = instr_at(c, self.top.fun, self.top.at) else {
            return Ok(());
        };
        let values = arguments::<D>(self.alloc, &self.top, args.as_slice())?;
        let temps = temps_from::<D>(l, *fun, values)?;
        let callee = Activation {
            fun: *fun,
            at: 0,
            temps,
            stack,
        };
        self.callers.reserve(1)?;
        match D::link(&stack) {
            None => {
                stack_up(&mut self.top, &mut self.callers, callee);
                self.stage = Stage::Ready;
            }
            Some(_) => self.stage = Stage::Entering(callee),
        }
        Ok(())
    }

    /// Enters the callee, where the thread stands before one.
    pub(crate) fn enter(&mut self) -> Result<(), Memory>
        ensures ok { IfOk result (λ _. self.new ≡ entered_stage self.old self.old.stage) }
        ensures err { OnErr result (self.new ≡ self.old) }
    {
        self.callers.reserve(1)?;
        match mem::replace(&mut self.stage, Stage::Ready) {
            Stage::Entering(callee) => stack_up(&mut self.top, &mut self.callers, callee),
            other => self.stage = other,
        }
        Ok(())
    }

    /// Returns to the newest caller, by the link that was read.
    pub(crate) fn leave(&mut self, c: &Code, link: Option<D::Value>)
        requires { GoodForm c.now }
        ensures { self.new ≡ returns D.meaning c.now self.old link (instr_of c.now self.old.top) }
    {
        let Some(Instr::Ret { a, .. }) = instr_at(c, self.top.fun, self.top.at) else {
            return;
        };
        let value = temp::<D>(&self.top, *a);
        if let Some(caller) = self.callers.pop() {
            self.top = resumed::<D>(c, caller, link, value);
            self.stage = Stage::Ready;
        }
    }
}

// The newest caller behind its call, which gave this value.
fn resumed<D: Domain>(
    c: &Code,
    mut caller: Activation<D::Value, D::Stack>,
    link: Option<D::Value>,
    value: D::Value,
) -> Activation<D::Value, D::Stack>
    requires { GoodForm c.now }
    ensures { result ≡ resumed c.now caller (back_at D.meaning c.now link caller) value }
{
    let at = match link {
        None => caller.at,
        Some(link) => resumed_at::<D>(c, caller.fun, caller.at, link),
    };
    if let Some(Instr::Call { to, .. }) = instr_at(c, caller.fun, at) {
        caller.set(*to, value);
        caller.at = at + 1;
    }
    caller
}

// Puts a callee on top of its caller.
fn stack_up<V, S: Copy>(
    top: &mut Activation<V, S>,
    callers: &mut Vec<Activation<V, S>>,
    callee: Activation<V, S>,
)
    requires { length callers.old.items < vec_capacity callers.old }
    ensures top { top.new ≡ callee }
    ensures callers { callers.new.items ≡ callers.old.items ++ top.old ∷ [] }
{
    let caller = mem::replace(top, callee);
    callers.push_reserved(caller);
}
