ghost use Rattle.std.specs.Prelude.{◌≡◌, ◌≤◌, false, Some, None, IsTrue, IfOk, OnOk, OnErr};
ghost use Rattle.std.specs.Option.{option_copied};
ghost use Rattle.tac_ir.specs.GoodForm.{GoodForm};
ghost use Rattle.code_layout.specs.LayoutOf.{IsLayoutOf};
ghost use Rattle.tac_thread.specs.Doing.{want_of};
ghost use Rattle.tac_thread.specs.RunsOn.{RunsOn};
ghost use Rattle.tac_thread.specs.Answered.{answered, joined};
ghost use Rattle.tac_thread.specs.Begun.{begun, root_of, branch_of};
ghost use Rattle.tac_thread.specs.Threads.{is_waiting, at_fork, end_in};
ghost use Rattle.tac_thread.specs.tools.Fetched.{found_or_end};
ghost use Rattle.tac_thread.specs.tools.EndsHere.{ends_here};
ghost use Rattle.tac_thread.specs.Guests.{IsGuestOf, TakesReply, IsForkOf};

use crate::domain::Domain;
use crate::fetch::instr_at;
use crate::temps::temps_from;
use crate::want::{Reply, Want};
use code_layout::Layout;
use dfi_base::{Memory, Point};
use sqlite_items::Items;
use std::alloc::Global;
use std::marker::Model;
use tac_ir::{Code, Instr};

/// One call of a function: where it stands, its temporaries, and its stack.
#[derive(Drop)]
pub struct Activation<V, S> {
    pub fun: u32,
    pub at: u32,
    pub temps: Items<V>,
    pub stack: S,
}

/// What is already done of the instruction at which a thread stands.
#[derive(Drop)]
pub enum Stage<V, S> {
    Ready,
    /// The call was answered, and the link of the callee's frame is not written.
    Entering(Activation<V, S>),
    /// The link of the frame was read.
    Leaving(V),
    /// The fork was answered, and its branches live.
    Waiting,
}

/// One thread: its activations, and what is done of the instruction at which it stands.
#[derive(Drop)]
pub struct Guest<D: Domain> {
    pub(crate) alloc: Global,
    pub(crate) top: Activation<D::Value, D::Stack>,
    /// Those that called the top, the newest last.
    pub(crate) callers: Vec<Activation<D::Value, D::Stack>>,
    pub(crate) stage: Stage<D::Value, D::Stack>,
}

impl<D: Domain> Model for Guest<D> {
    ghost use Rattle.std.specs.Prelude.{reverse};
    ghost use Rattle.tac_thread.specs.Life.{Life};

    ghost Value = { Life D.Value D.Stack };

    ghost view = { λ g. record { top = g.top; callers = reverse g.callers.items; stage = g.stage } };
}

impl<D: Domain> Guest<D> {
    /// Thread 1, which begins at the entry of `main`, up to its first event.
    pub fn root(alloc: Global, c: &Code, l: &Layout, s: D::Stack) -> Result<Guest<D>, Memory>
        requires form { GoodForm c.now }
        requires laid { IsLayoutOf c.now l.now }
        requires frame { IsTrue (D.meaning.has_frame c.now c.now.main s) }
        ensures runs { IfOk result (λ g. RunsOn D.meaning c.now (root_of D.meaning c.now s) g) }
        ensures guest { IfOk result (λ g. IsGuestOf D.meaning c.now g) }
    {
        let mut guest = begin(alloc, c, l, c.main, 0, s)?;
        guest.run_on(c, l);
        Ok(guest)
    }

    /// The next event.
    pub fn want(&self, c: &Code, l: &Layout) -> Want<D::Value>
        requires form { GoodForm c.now }
        requires laid { IsLayoutOf c.now l.now }
        requires guest { IsGuestOf D.meaning c.now self.now }
        ensures { want_of D.meaning c.now self.now ≡ Some result }
    {
        match self.pending(c, l) {
            Some(want) => want,
            None => unreachable!(),
        }
    }

    /// Takes the answer of the next event, and runs on to the one after it.
    pub fn feed(&mut self, c: &Code, l: &Layout, reply: Reply<D>) -> Result<(), Memory>
        requires form { GoodForm c.now }
        requires laid { IsLayoutOf c.now l.now }
        requires guest { IsGuestOf D.meaning c.now self.old }
        requires kind { TakesReply D.meaning c.now self.old reply }
        ensures runs { IfOk result (λ _. RunsOn D.meaning c.now (answered D.meaning c.now self.old reply) self.new) }
        ensures guest { OnOk result (IsGuestOf D.meaning c.now self.new) }
        ensures err { OnErr result (self.new ≡ self.old) }
    {
        self.answer(c, l, reply)?;
        self.run_on(c, l);
        Ok(())
    }

    /// Branch `i` of the fork at which the thread stands, from 1, up to its first event.
    pub fn branch(
        &self,
        alloc: Global,
        c: &Code,
        l: &Layout,
        i: u32,
        s: D::Stack,
    ) -> Result<Guest<D>, Memory>
        requires form { GoodForm c.now }
        requires laid { IsLayoutOf c.now l.now }
        requires guest { IsGuestOf D.meaning c.now self.now }
        requires from { 1 ≤ i }
        requires fork { IsForkOf D.meaning c.now self.now i }
        requires frame { IsTrue (D.meaning.has_frame c.now self.now.top.fun s) }
        ensures runs { IfOk result (λ g. RunsOn D.meaning c.now (branch_of D.meaning c.now self.now i s) g) }
        ensures guest { IfOk result (λ g. IsGuestOf D.meaning c.now g) }
    {
        let mut guest = begin(alloc, c, l, self.top.fun, self.entry(c, i), s)?;
        guest.run_on(c, l);
        Ok(guest)
    }

    /// Goes on at the join of the fork, when all branches have ended, and runs on to the next event.
    pub fn joined(&mut self, c: &Code, l: &Layout)
        requires form { GoodForm c.now }
        requires laid { IsLayoutOf c.now l.now }
        requires guest { IsGuestOf D.meaning c.now self.old }
        requires waits { want_of D.meaning c.now self.old ≡ Some Want.Waits }
        ensures runs { RunsOn D.meaning c.now (joined c.now self.old) self.new }
        ensures guest { IsGuestOf D.meaning c.now self.new }
    {
        self.join(c);
        self.run_on(c, l);
    }

    /// Lets the thread wait at its fork.
    pub(crate) fn wait(&mut self)
        ensures { self.new ≡ at_fork self.old }
    {
        self.stage = Stage::Waiting;
    }

    /// Whether branches of the thread live.
    pub(crate) fn is_waiting(&self) -> bool
        ensures { result ≡ is_waiting self.now.stage }
    {
        matches!(self.stage, Stage::Waiting)
    }

    /// Whether the thread stands where one can end.
    pub fn may_have_ended(&self, c: &Code) -> bool
        requires { GoodForm c.now }
        ensures { result ≡ false → end_in (want_of D.meaning c.now self.now) ≡ None }
    {
        match self.stage {
            Stage::Ready => ends_here(instr_at(c, self.top.fun, self.top.at)),
            _ => false,
        }
    }

    /// Where the next event stands: at a call until its link is written, at a return until it is done, at a fork until it is
    /// joined.
    pub fn at(&self) -> Point
        ensures { result ≡ record { fun = self.now.top.fun; at = self.now.top.at } }
    {
        Point {
            fun: self.top.fun,
            at: self.top.at,
        }
    }

    /// The stack of the activation in which the thread stands.
    pub fn stack(&self) -> D::Stack
        ensures { result ≡ self.now.top.stack }
    {
        self.top.stack
    }
}

// Whether a thread ends before this instruction.
fn ends_here(instr: Option<&Instr>) -> bool
    ensures { result ≡ ends_here (found_or_end (option_copied instr.entry)) }
{
    matches!(
        instr,
        None | Some(Instr::End | Instr::Ret { read: None, .. })
    )
}

// A thread at this index of a function, with all its temporaries at 0.
fn begin<D: Domain>(
    alloc: Global,
    c: &Code,
    l: &Layout,
    fun: u32,
    at: u32,
    stack: D::Stack,
) -> Result<Guest<D>, Memory>
    requires { IsLayoutOf c.now l.now }
    ensures { IfOk result (λ g. g ≡ begun D.meaning c.now fun at stack) }
{
    let temps = temps_from::<D>(l, fun, Vec::new(alloc))?;
    Ok(Guest {
        alloc,
        top: Activation {
            fun,
            at,
            temps,
            stack,
        },
        callers: Vec::new(alloc),
        stage: Stage::Ready,
    })
}

impl<V: Copy, S> Activation<V, S> {
    ghost use Rattle.std.specs.Prelude.{◌≡◌};
    ghost use Rattle.tac_thread.specs.Life.{with_temp};

    /// Gives a temporary a value.
    pub fn set(&mut self, to: u32, value: V)
        ensures { self.new ≡ with_temp self.old to value }
    {
        if (to as usize) < self.temps.len() {
            self.temps.set(to as usize, value);
        }
    }
}
