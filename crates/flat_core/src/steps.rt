ghost use Rattle.std.specs.Prelude.{◌≡◌, ◌<◌, ◌^◌, ℕ, ℤ, List, [], IfOk, Bool, true, false, length, option_map, ◌⊎◌};
ghost use Rattle.tac_ir.specs.Path.{stops};
ghost use Rattle.word_table.specs.Tables.{CanRun};
ghost use Rattle.tac_ir.specs.Module.{Module};
ghost use Rattle.tac_thread.specs.Threads.{name_number};
ghost use Rattle.flat_core.specs.Stands.{IsCore, IsCoreOf, Answers, history_of};
ghost use Rattle.flat_core.specs.tools.Ends.{IsLeastOf, end_in};
ghost use Rattle.flat_core.specs.tools.Over.{is_over};

use crate::fault::StepFault;
use crate::machine::Machine;
use dfi_base::{Memory, Name};
use sqlite_items::Items;
use std::alloc::Global;
use std::marker::Model;
use tac_ir::{Answer, End, Entry, Journal, Limit, Module};

/// The run of a module so far: its threads, what they share, and its entries.
#[derive(Drop)]
pub struct Core {
    machine: Machine,
    entries: Vec<Entry>,
}

impl Model for Core {
    ghost use Rattle.flat_core.specs.Stands.{Core};

    ghost Value = { Core };

    ghost view = { λ core. record { threads = core.machine.tree; store = core.machine.store; entries = core.entries.items } };
}

impl Core {
    /// A run of this module with this input, before its first step.
    pub fn new(alloc: Global, m: &Module, input: &[i32]) -> Result<Core, Memory>
        requires can_run { CanRun m.now }
        requires few { length input.now < 2 ^ 31 }
        ensures core { IfOk result (λ core. IsCoreOf m.now input.now core) }
        ensures empty { IfOk result (λ core. core.entries ≡ []) }
    {
        let machine = Machine::new(alloc, m, input)?;
        Ok(Core {
            machine,
            entries: Vec::new(alloc),
        })
    }

    /// Adds the entry that follows by the thread of this name, and answers it. A call that answers a fault changes nothing.
    pub fn step(&mut self, m: &Module, name: Name) -> Result<Entry, StepFault>
        requires can_run { CanRun m.now }
        requires core { IsCore m.now self.old }
        ensures { (input : List ℤ) → IsCoreOf m.now input self.old → Answers m.now input name.0 self.old result self.new }
    {
        if self.is_over() {
            return Err(StepFault::Over);
        }
        self.entries.reserve(1)?;
        let Some(entry) = self.machine.step(m, name)? else {
            return Err(StepFault::NotRunnable);
        };
        match self.entries.push(entry) {
            Ok(()) => Ok(entry),
            Err(_) => unreachable!(),
        }
    }

    /// The entries so far, in their order.
    pub fn entries(&self) -> &[Entry]
        ensures { result.now ≡ self.now.entries }
    {
        &self.entries
    }

    /// The least runnable name; none exactly where the run has ended.
    pub(crate) fn least(&self) -> Option<Name>
        ensures { (m : Module) (input : List ℤ) → IsCoreOf m input self.now → IsLeastOf m (history_of self.now) (option_map name_number result) }
    {
        if self.is_over() {
            return None;
        }
        self.machine.tree.least()
    }

    /// The journal of the run up to here.
    pub(crate) fn finish(self, budget: u64) -> Journal
        ensures { result ≡ record { entries = self.entries; «end» = end_in self budget } }
    {
        let end = self.end(budget);
        let Core { entries, .. } = self;
        Journal {
            entries: Items::from_vec(entries),
            end,
        }
    }

    // How the run ends here.
    fn end(&self, budget: u64) -> End
        ensures { result ≡ end_in self.now budget }
    {
        if let Some(entry) = self.entries.last() {
            if let Answer::Stop(stop) = entry.answer {
                return stop.end();
            }
        }
        match self.machine.tree.done() {
            Some(value) => End::Done(value.cast_signed()),
            None if self.entries.len() as u64 == budget => End::Limit(Limit::Budget),
            None => End::Cut,
        }
    }

    // Whether the run has ended: by a stop, or with thread 1.
    fn is_over(&self) -> bool
        ensures { result ≡ is_over self.now }
    {
        match self.entries.last() {
            Some(entry) if is_stop(entry.answer) => true,
            _ => self.machine.tree.done().is_some(),
        }
    }
}

// Whether an answer stops the run.
fn is_stop(answer: Answer) -> bool
    ensures { result ≡ stops answer }
{
    matches!(answer, Answer::Stop(_))
}
