ghost use Rattle.std.specs.Prelude.{◌≡◌, ℕ, true, IfOk, OnErr};
ghost use Rattle.tac_ir.specs.declared.run.Op.{Op};
ghost use Rattle.tac_thread.specs.Guests.{IsGuestOf};
ghost use Rattle.tac_thread.specs.Flat.{flat_meaning};
ghost use Rattle.word_table.specs.Tables.{CanRun};
ghost use Rattle.flat_core.specs.Store.{is_plain};
ghost use Rattle.flat_core.specs.Turns.{IsStoreOfRun, AsksFor, Turns};

use crate::ask::{Asked, reply_to};
use crate::store::Store;
use dfi_base::{Memory, Name};
use obj_mem::Maker;
use tac_ir::{Answer, Module, Op, Stop};
use tac_thread::{Domain, FlatWords, Guest, Reply};

impl Store {
    /// Answers the next event of a thread, which is no fork, and does it.
    pub fn turn(
        &mut self,
        m: &Module,
        guest: &mut Guest<FlatWords>,
        name: Name,
        asked: Asked,
    ) -> Result<Answer, Memory>
        requires can_run { CanRun m.now }
        requires store { IsStoreOfRun m.now self.old }
        requires guest { IsGuestOf flat_meaning m.now.code guest.old }
        requires asks { AsksFor m.now guest.old asked }
        requires no_fork { (n : ℕ) → asked.op ≡ Op.Fork n → ⊥ }
        ensures ok { IfOk result (λ answer. Turns m.now guest.old self.old asked answer guest.new self.new) }
        ensures err { OnErr result ((guest.new ≡ guest.old) × (self.new ≡ self.old)) }
    {
        match asked.op {
            Op::Call { fun } => self.call(m, guest, name, asked, fun),
            Op::New { site, count } => self.block(m, guest, asked, site, count),
            _ => self.plain(m, guest, asked),
        }
    }

    // An event that takes no stack and no block.
    fn plain(
        &mut self,
        m: &Module,
        guest: &mut Guest<FlatWords>,
        asked: Asked,
    ) -> Result<Answer, Memory>
        requires can_run { CanRun m.now }
        requires store { IsStoreOfRun m.now self.old }
        requires guest { IsGuestOf flat_meaning m.now.code guest.old }
        requires asks { AsksFor m.now guest.old asked }
        requires plain { is_plain asked.op ≡ true }
        ensures ok { IfOk result (λ answer. Turns m.now guest.old self.old asked answer guest.new self.new) }
        ensures err { OnErr result ((guest.new ≡ guest.old) × (self.new ≡ self.old)) }
    {
        let answer = self.answer(m, asked.op);
        if let Some(reply) = reply_to(answer) {
            guest.feed(&m.code, &self.layout, reply)?;
            self.keep(m, asked.op);
        }
        Ok(answer)
    }

    // A block is taken.
    fn block(
        &mut self,
        m: &Module,
        guest: &mut Guest<FlatWords>,
        asked: Asked,
        site: u16,
        count: i32,
    ) -> Result<Answer, Memory>
        requires can_run { CanRun m.now }
        requires store { IsStoreOfRun m.now self.old }
        requires guest { IsGuestOf flat_meaning m.now.code guest.old }
        requires asks { AsksFor m.now guest.old asked }
        requires op { asked.op ≡ Op.New site count }
        ensures ok { IfOk result (λ answer. Turns m.now guest.old self.old asked answer guest.new self.new) }
        ensures err { OnErr result ((guest.new ≡ guest.old) × (self.new ≡ self.old)) }
    {
        let answer = self.take(m, site, count)?;
        if let Some(reply) = reply_to(answer) {
            if let Err(fault) = guest.feed(&m.code, &self.layout, reply) {
                self.untake(answer);
                return Err(fault);
            }
        }
        Ok(answer)
    }

    // A call: its frame has to fit.
    fn call(
        &mut self,
        m: &Module,
        guest: &mut Guest<FlatWords>,
        name: Name,
        asked: Asked,
        fun: u32,
    ) -> Result<Answer, Memory>
        requires can_run { CanRun m.now }
        requires store { IsStoreOfRun m.now self.old }
        requires guest { IsGuestOf flat_meaning m.now.code guest.old }
        requires asks { AsksFor m.now guest.old asked }
        requires op { asked.op ≡ Op.Call fun }
        ensures ok { IfOk result (λ answer. Turns m.now guest.old self.old asked answer guest.new self.new) }
        ensures err { OnErr result ((guest.new ≡ guest.old) × (self.new ≡ self.old)) }
    {
        let maker = Maker {
            thread: name,
            count: 0,
        };
        match FlatWords::enter(&m.code, &self.layout, &asked.stack, fun, maker) {
            None => Ok(Answer::Stop(Stop::Stack)),
            Some(stack) => {
                let reply = Reply::<FlatWords>::Stack(stack);
                guest.feed(&m.code, &self.layout, reply)?;
                Ok(Answer::Unit)
            }
        }
    }
}
