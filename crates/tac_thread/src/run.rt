ghost use Rattle.std.specs.Prelude.{◌≡◌, ◌≤◌, false, IsTrue};
ghost use Rattle.std.specs.Option.{option_copied};
ghost use Rattle.tac_ir.specs.GoodForm.{GoodForm};
ghost use Rattle.code_layout.specs.LayoutOf.{IsLayoutOf};
ghost use Rattle.tac_thread.specs.tools.Numbered.{is_numbered};
ghost use Rattle.tac_thread.specs.tools.Fetched.{found_or_end};
ghost use Rattle.tac_thread.specs.Life.{instr_of};
ghost use Rattle.tac_thread.specs.Doing.{asked, link_write, want_of, silent_next, stepped};
ghost use Rattle.tac_thread.specs.RunsOn.{RunsOn};
ghost use Rattle.tac_thread.specs.Begun.{entry_of};
ghost use Rattle.tac_thread.specs.Guests.{IsHeld};

use crate::doing::{Doing, doing_at};
use crate::domain::Domain;
use crate::fetch::instr_at;
use crate::guest::{Guest, Stage};
use crate::want::Want;
use code_layout::Layout;
use dfi_base::DefNo;
use tac_ir::{Code, Instr};

impl<D: Domain> Guest<D> {
    // The next event, where the thread rests before one.
    pub(crate) fn pending(&self, c: &Code, l: &Layout) -> Option<Want<D::Value>>
        requires form { GoodForm c.now }
        requires laid { IsLayoutOf c.now l.now }
        requires held { IsHeld D.meaning c.now self.now }
        ensures { result ≡ want_of D.meaning c.now self.now }
    {
        match &self.stage {
            Stage::Ready => asked(doing_at::<D>(c, l, &self.top)),
            Stage::Entering(callee) => {
                link_write(
                    instr_at(c, self.top.fun, self.top.at),
                    D::link(&callee.stack),
                )
            }
            Stage::Leaving(_) => Some(Want::Ret),
            Stage::Waiting => Some(Want::Waits),
        }
    }

    // Does one silent instruction, where the thread stands at one.
    fn step(&mut self, c: &Code, l: &Layout) -> bool
        requires form { GoodForm c.now }
        requires laid { IsLayoutOf c.now l.now }
        requires held { IsHeld D.meaning c.now self.old }
        ensures held { IsHeld D.meaning c.now self.new }
        ensures step { silent_next D.meaning c.now self.old ≡ stepped result self.new }
        ensures stays { result ≡ false → self.new ≡ self.old }
    {
        match self.stage {
            Stage::Ready => {}
            _ => return false,
        }
        match doing_at::<D>(c, l, &self.top) {
            Doing::Gives { to, value } => {
                self.top.set(to, value);
                self.top.at += 1;
                true
            }
            Doing::Goes { at } => {
                self.top.at = at;
                true
            }
            Doing::Asks(_) => false,
        }
    }

    // The index at which branch `i` of the fork begins.
    pub(crate) fn entry(&self, c: &Code, i: u32) -> u32
        requires form { GoodForm c.now }
        requires from { 1 ≤ i }
        ensures { result ≡ entry_of (instr_of c.now self.now.top) i }
    {
        match instr_at(c, self.top.fun, self.top.at) {
            Some(Instr::Fork { entries, .. }) => match entries.get((i - 1) as usize) {
                None => 0,
                Some(entry) => *entry,
            },
            _ => 0,
        }
    }

    // Runs on over silent instructions to the next event.
    pub(crate) fn run_on(&mut self, c: &Code, l: &Layout)
        requires form { GoodForm c.now }
        requires laid { IsLayoutOf c.now l.now }
        requires held { IsHeld D.meaning c.now self.old }
        ensures held { IsHeld D.meaning c.now self.new }
        ensures runs { RunsOn D.meaning c.now self.old self.new }
    {
        while self.step(c, l) {}
    }
}

fn asked<V: Copy>(doing: Doing<V>) -> Option<Want<V>>
    ensures { result ≡ asked doing }
{
    match doing {
        Doing::Asks(want) => Some(want),
        _ => None,
    }
}

fn link_write<V>(instr: Option<&Instr>, link: Option<u32>) -> Option<Want<V>>
    requires { IsTrue (is_numbered (found_or_end (option_copied instr))) }
    ensures { result ≡ link_write (found_or_end (option_copied instr.entry)) link }
{
    match (instr, link) {
        (Some(Instr::Call { def, .. }), Some(word)) => Some(Want::Push {
            def: DefNo(*def as u16),
            word,
        }),
        _ => None,
    }
}
