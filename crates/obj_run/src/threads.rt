ghost use Rattle.std.specs.Prelude.{◌≡◌, ◌≤◌, length, ◌++◌, ◌∷◌, ℕ, ℤ, List, [], Some, IfOk, OnOk};
ghost use Rattle.tac_ir.specs.declared.code.Code.{Code};
ghost use Rattle.tac_thread.specs.declared.want.Want.{Want};
ghost use Rattle.tac_ir.specs.GoodForm.{GoodForm};
ghost use Rattle.code_layout.specs.LayoutOf.{IsLayoutOf};
ghost use Rattle.tac_thread.specs.Threads.{IsTree, life_in, next_in};
ghost use Rattle.obj_run.specs.Objects.{object_meaning};
ghost use Rattle.obj_run.specs.Runs.{IsRunAlong, outputs_of};
ghost use Rattle.obj_run.specs.tools.SoFar.{IsSoFar, Steps, Asks, Answers, ForksShared, end_in};

use crate::asked::{event_of, reply_of};
use crate::opening::opening;
use crate::values::{ObjStack, ObjValues};
use code_layout::Layout;
use dfi_base::{Memory, Name};
use obj_mem::{Event, Maker, SrcAnswer, SrcEnd, SrcRun, Stamp, Value, valid_answer};
use sqlite_items::Items;
use std::alloc::Global;
use std::marker::Model;
use tac_ir::Code;
use tac_thread::Tree;

// So many stamps a list may have where an answer is asked for.
const STAMPS: usize = (1 << 31) - 1;

/// Where a run along names stands.
#[derive(Clone, Copy, Debug, PartialEq, Eq)]
pub enum State {
    Going,
    /// A thread divided by 0.
    Trapped,
    /// The last name's event was invalid.
    Wrong,
}

/// The run along names so far.
#[derive(Drop)]
pub struct Run {
    alloc: Global,
    tree: Tree<ObjValues>,
    /// What the run begins with, and then its events.
    events: Vec<Stamp>,
    /// How many stamps the run begins with.
    opened: usize,
    state: State,
}

impl Model for Run {
    ghost use Rattle.obj_run.specs.tools.SoFar.{Run};

    ghost Value = { Run };

    ghost view = { λ r. record { tree = r.tree; events = r.events.items; opened = r.opened; state = r.state } };
}

impl Run {
    /// The run along no names.
    pub fn new(alloc: Global, c: &Code, l: &Layout, input: &[i32]) -> Result<Run, Memory>
        requires form { GoodForm c.now }
        requires laid { IsLayoutOf c.now l.now }
        ensures run { IfOk result (λ run. IsSoFar c.now input.now [] run) }
        ensures tree { IfOk result (λ run. IsTree object_meaning c.now (life_in run.tree)) }
    {
        let events = opening(alloc, c, input)?;
        let maker = Maker {
            thread: Name(1),
            count: 0,
        };
        let tree = Tree::new(alloc, c, l, ObjStack { maker })?;
        let opened = events.len();
        Ok(Run {
            alloc,
            tree,
            events,
            opened,
            state: State::Going,
        })
    }

    /// Goes on by the thread of this name. Whether there was an event of it, valid or not; false where the name is refused.
    pub fn step(&mut self, c: &Code, l: &Layout, name: Name) -> Result<bool, Memory>
        requires form { GoodForm c.now }
        requires laid { IsLayoutOf c.now l.now }
        requires tree { IsTree object_meaning c.now (life_in self.old.tree) }
        ensures steps { IfOk result (λ went. (input : List ℤ) (names : List ℕ) → IsSoFar c.now input names self.old → Steps c.now input names name.0 went self.old self.new) }
        ensures tree { OnOk result (IsTree object_meaning c.now (life_in self.new.tree)) }
    {
        if self.state != State::Going || self.tree.done().is_some() {
            return Ok(false);
        }
        let Some(want) = self.tree.next(c, l, name) else {
            return Ok(false);
        };
        let Some(event) = event_of(c, l, want) else {
            return Ok(false);
        };
        if self.events.len() > STAMPS {
            return Err(Memory);
        }
        match valid_answer(&self.events, name, &event) {
            None => self.state = State::Wrong,
            Some(answer) => self.take(c, l, name, event, answer)?,
        }
        Ok(true)
    }

    // Goes on by an event that is answered.
    fn take(
        &mut self,
        c: &Code,
        l: &Layout,
        name: Name,
        event: Event,
        answer: SrcAnswer,
    ) -> Result<(), Memory>
        requires form { GoodForm c.now }
        requires laid { IsLayoutOf c.now l.now }
        requires tree { IsTree object_meaning c.now (life_in self.old.tree) }
        requires asks { Asks c.now self.old name.0 event answer }
        ensures steps { IfOk result (λ _. (input : List ℤ) (names : List ℕ) → IsSoFar c.now input names self.old → IsSoFar c.now input (names ++ name.0 ∷ []) self.new) }
        ensures tree { OnOk result (IsTree object_meaning c.now (life_in self.new.tree)) }
    {
        self.answer(c, l, name, event, answer)?;
        self.events.push(Stamp {
            name,
            event,
            answer,
        })?;
        Ok(())
    }

    // Lets the threads go on by an event that is answered.
    fn answer(
        &mut self,
        c: &Code,
        l: &Layout,
        name: Name,
        event: Event,
        answer: SrcAnswer,
    ) -> Result<(), Memory>
        requires form { GoodForm c.now }
        requires laid { IsLayoutOf c.now l.now }
        requires tree { IsTree object_meaning c.now (life_in self.old.tree) }
        requires asks { Asks c.now self.old name.0 event answer }
        ensures answers { IfOk result (λ _. Answers c.now self.old name.0 event answer self.new) }
        ensures tree { OnOk result (IsTree object_meaning c.now (life_in self.new.tree)) }
    {
        match event {
            Event::Zero => {
                self.state = State::Trapped;
                Ok(())
            }
            Event::Fork { n } => self.fork(c, l, name, n),
            _ => self.tree.feed(c, l, name, reply_of(answer)),
        }
    }

    // Lets a thread fork: its branches share its frame.
    fn fork(&mut self, c: &Code, l: &Layout, name: Name, n: u32) -> Result<(), Memory>
        requires form { GoodForm c.now }
        requires laid { IsLayoutOf c.now l.now }
        requires tree { IsTree object_meaning c.now (life_in self.old.tree) }
        requires asks { next_in object_meaning c.now (life_in self.old.tree) name.0 ≡ Some (Want.Fork n) }
        ensures forks { IfOk result (λ _. ForksShared c.now self.old.tree name.0 n self.new.tree) }
        ensures tree { OnOk result (IsTree object_meaning c.now (life_in self.new.tree)) }
        ensures rest { self.new ≡ record self.old { tree = self.new.tree } }
    {
        let Some(stack) = self.tree.stack(name) else {
            unreachable!();
        };
        let mut stacks = Vec::new(self.alloc);
        stacks.resize(n as usize, stack)?;
        self.tree.fork(c, l, name, &stacks)
    }

    /// The run along the names so far.
    pub fn finish(self) -> Result<SrcRun, Memory>
        requires { self.opened ≤ length self.events }
        ensures { IfOk result (λ r. (c : Code) (input : List ℤ) (names : List ℕ) → IsSoFar c input names self → IsRunAlong c input names r) }
    {
        let end = self.end();
        let Run {
            alloc,
            mut events,
            opened,
            ..
        } = self;
        let events = events.split_off(opened)?;
        let outputs = outputs_of(alloc, &events)?;
        Ok(SrcRun {
            events: Items::from_vec(events),
            outputs: Items::from_vec(outputs),
            end,
        })
    }

    // How the run ends here.
    fn end(&self) -> SrcEnd
        ensures { result ≡ end_in self.now }
    {
        match self.state {
            State::Wrong => SrcEnd::Invalid,
            State::Trapped => SrcEnd::Trap,
            State::Going => match self.tree.done() {
                None => SrcEnd::Cut,
                Some(Value::Int(k)) => SrcEnd::Done(k),
                Some(_) => SrcEnd::Invalid,
            },
        }
    }
}

// The numbers that these events put out.
#[tactic(auto, unfolding(crate::specs::Runs::outputs_of))]
fn outputs_of(alloc: Global, events: &[Stamp]) -> Result<Vec<i32>, Memory>
    ensures { IfOk result (λ outputs. outputs.items ≡ outputs_of events.now) }
{
    let mut outputs = Vec::new(alloc);
    for stamp in events {
        if let Event::Out { v } = stamp.event {
            outputs.push(v)?;
        }
    }
    Ok(outputs)
}
