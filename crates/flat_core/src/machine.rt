ghost use Rattle.std.specs.Prelude.{◌≡◌, ◌<◌, ◌^◌, [], IfOk, OnErr, length};
ghost use Rattle.tac_ir.specs.declared.run.Op.{Op};
ghost use Rattle.tac_ir.specs.GoodForm.{GoodForm};
ghost use Rattle.tac_thread.specs.Doing.{want_of};
ghost use Rattle.tac_thread.specs.Guests.{IsGuestOf};
ghost use Rattle.tac_thread.specs.Threads.{IsSame};
ghost use Rattle.tac_thread.specs.Flat.{flat_meaning};
ghost use Rattle.path_law.specs.Begins.{root_stack};
ghost use Rattle.code_layout.specs.LayoutOf.{IsLayoutOf};
ghost use Rattle.word_table.specs.Tables.{CanRun};
ghost use Rattle.flat_core.specs.tools.Asked.{asks, op_in};
ghost use Rattle.flat_core.specs.Serves.{Serves, IsServing, Asks, Performs, Steps};

use crate::ask::{Asked, op_of};
use crate::stacks::shares;
use crate::store::Store;
use code_layout::{Layout, memory_words, stack_from};
use dfi_base::{Memory, Name};
use obj_mem::Maker;
use std::alloc::Global;
use tac_ir::{Answer, Entry, Module, Op, Stop};
use tac_thread::{Domain, FlatStack, FlatWords, Guest, Tree, is_deep};

/// The threads of a run, and what they share.
#[derive(Drop)]
pub struct Machine {
    alloc: Global,
    pub tree: Tree<FlatWords>,
    pub store: Store,
}

impl Machine {
    /// Thread 1 before its first event.
    pub fn new(alloc: Global, m: &Module, input: &[i32]) -> Result<Machine, Memory>
        requires can_run { CanRun m.now }
        requires few { length input.now < 2 ^ 31 }
        ensures { IfOk result (λ machine. Serves m.now input.now [] machine.tree machine.store) }
    {
        let store = Store::new(alloc, m, input)?;
        let stack = root_stack(m, &store.layout);
        let tree = Tree::new(alloc, &m.code, &store.layout, stack)?;
        Ok(Machine { alloc, tree, store })
    }

    /// The next event of a thread, answered and done; none exactly where the name is not runnable.
    pub fn step(&mut self, m: &Module, name: Name) -> Result<Option<Entry>, Memory>
        requires can_run { CanRun m.now }
        requires serves { IsServing m.now self.old.tree self.old.store }
        ensures ok { IfOk result (λ entry. Steps m.now self.old.tree self.old.store name.0 entry self.new.tree self.new.store) }
        ensures err { OnErr result (IsSame self.old.tree self.new.tree × (self.new.store ≡ self.old.store)) }
    {
        let Some(guest) = self.tree.thread_mut(name) else {
            return Ok(None);
        };
        let Some(asked) = asked(m, &self.store.layout, guest) else {
            return Ok(None);
        };
        if let Op::Fork { branches } = asked.op {
            let answer = self.fork(m, name, asked, branches)?;
            return Ok(Some(asked.entry(name, answer)));
        }
        let answer = self.store.turn(m, guest, name, asked)?;
        if guest.may_have_ended(&m.code) {
            self.tree.settle(&m.code, &self.store.layout, name.0);
        }
        Ok(Some(asked.entry(name, answer)))
    }

    // A fork: a thread that is not too deep, and a share with a word.
    fn fork(
        &mut self,
        m: &Module,
        name: Name,
        asked: Asked,
        branches: u32,
    ) -> Result<Answer, Memory>
        requires can_run { CanRun m.now }
        requires serves { IsServing m.now self.old.tree self.old.store }
        requires asks { Asks m.now self.old.tree name.0 asked }
        requires op { asked.op ≡ Op.Fork branches }
        ensures ok { IfOk result (λ answer. Performs m.now self.old.tree self.old.store name.0 asked answer self.new.tree self.new.store) }
        ensures err { OnErr result (IsSame self.old.tree self.new.tree × (self.new.store ≡ self.old.store)) }
    {
        if is_deep(name) {
            return Ok(Answer::Stop(Stop::Depth));
        }
        match shares(self.alloc, &asked.stack, branches)? {
            None => Ok(Answer::Stop(Stop::Share)),
            Some(stacks) => {
                self.tree.fork(&m.code, &self.store.layout, name, &stacks)?;
                Ok(Answer::Unit)
            }
        }
    }
}

// The next event of a thread, where it is one of a run.
fn asked(m: &Module, l: &Layout, guest: &Guest<FlatWords>) -> Option<Asked>
    requires form { GoodForm m.now.code }
    requires laid { IsLayoutOf m.now.code l.now }
    requires guest { IsGuestOf flat_meaning m.now.code guest.now }
    ensures { result ≡ asks guest.now (op_in (want_of flat_meaning m.now.code guest.now)) }
{
    let op = op_of(guest.want(&m.code, l))?;
    Some(Asked {
        point: guest.at(),
        op,
        stack: guest.stack(),
    })
}

/// The stack of thread 1: main's frame stands at the first of the stacks' words.
pub fn root_stack(m: &Module, l: &Layout) -> FlatStack
    requires form { GoodForm m.now.code }
    requires laid { IsLayoutOf m.now.code l.now }
    ensures { result ≡ root_stack m.now }
{
    let base = stack_from(m.size);
    let nothing = FlatStack {
        base,
        top: base,
        end: memory_words(m.size),
    };
    let maker = Maker {
        thread: Name(1),
        count: 0,
    };
    match FlatWords::enter(&m.code, l, &nothing, m.code.main, maker) {
        Some(stack) => stack,
        None => unreachable!(),
    }
}
