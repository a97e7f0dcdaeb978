ghost use Rattle.std.specs.Prelude.{◌≡◌, ℕ, ◌<◌, ◌↔◌, Some, All, Contains, IsTrue, IfSome, length, true, false, map, replicate, slice_get, slice_set};
ghost use Rattle.dfi_base.specs.Bits.{has};
ghost use Rattle.least_rows.specs.declared.rules.Rule.{Rule as ARule};
ghost use Rattle.least_rows.specs.declared.rules.System.{System as ASystem};
ghost use Rattle.least_rows.specs.Rules.{Table, IsFittingRule};
ghost use Rattle.least_rows.specs.Solutions.{IsAlike, IsAbove, AreClosed};
ghost use Rattle.least_rows.specs.tools.Growing.{IsWritten, IsApplied, IsGrown, IsIndexOf, IsIndexWithin, IsSettled, IsSound, IsReady};

use crate::gather::{gather_loads, gather_meet, gather_moved, gather_row};
use crate::index::{Index, has_member, wake_loads, wake_readers};
use crate::rules::{Rule, System};
use dfi_base::Bits;

/// A table, and the list of the rules that wait to be applied, each at most once.
#[derive(Drop)]
pub struct Solver {
    pub rows: Vec<Bits>,
    pub waiting: Bits,
    pub index: Index,
}

impl Solver {
    /// Adds to a row, and wakes the rules that read it if it grew.
    pub fn write(&mut self, to: u32, more: &Bits) -> bool
        requires to { to < length self.old.rows.items }
        requires more { All (λ row. length row ≡ length more.now) self.old.rows.items }
        requires index { IsIndexWithin (length self.old.waiting) (length self.old.rows.items) self.old.index.readers.items self.old.index.loads.items }
        ensures index { self.new.index ≡ self.old.index }
        ensures alike { IsAlike self.new.rows.items self.old.rows.items }
        ensures waiting { length self.new.waiting ≡ length self.old.waiting }
        ensures written { (s : ASystem) → IsIndexOf s self.old.index.readers.items self.old.index.loads.items → IsWritten s self.old.rows.items self.old.waiting to more.now self.new.rows.items self.new.waiting result }
    {
        let changed = self.rows[to as usize].or(more);
        if changed {
            wake_readers(
                &mut self.waiting,
                self.index.readers[to as usize].as_slice(),
            );
            wake_loads(&mut self.waiting, &self.index.loads, &self.rows, to);
        }
        changed
    }

    /// Adds a row to each row that is a member of `targets`, and wakes the rules that read those that grew.
    fn store(&mut self, targets: u32, from: u32, asked: &mut Bits) -> bool
        requires targets { targets < length self.old.rows.items }
        requires from { from < length self.old.rows.items }
        requires rows { All (λ row. length row ≡ length asked.old) self.old.rows.items }
        requires index { IsIndexWithin (length self.old.waiting) (length self.old.rows.items) self.old.index.readers.items self.old.index.loads.items }
        ensures index { self.new.index ≡ self.old.index }
        ensures long { length asked.new ≡ length asked.old }
        ensures alike { IsAlike self.new.rows.items self.old.rows.items }
        ensures waiting { length self.new.waiting ≡ length self.old.waiting }
        ensures applied { (s : ASystem) → IsIndexOf s self.old.index.readers.items self.old.index.loads.items → Contains s.rules (ARule.Store targets from)
            → IsApplied s (ARule.Store targets from) self.old.rows.items self.old.waiting self.new.rows.items self.new.waiting result }
    {
        asked.copy_from(&self.rows[from as usize]);
        let count = self.rows.len();
        let mut changed = false;
        let mut at = 0;
        while (at as usize) < count {
            let Some(target) = self.rows[targets as usize].next_member(at) else {
                return changed;
            };
            if target as usize >= count {
                return changed;
            }
            changed = self.write(target, asked) | changed;
            at = target + 1;
        }
        changed
    }

    /// Applies a rule once. Answers whether the table changed.
    fn apply(&mut self, system: &System, rule: &Rule, asked: &mut Bits, empty: &Bits) -> bool
        requires rule { IsFittingRule system.now.width (length system.now.masks) (length self.old.rows.items) rule.now }
        requires rows { All (λ row. length row ≡ length asked.old) self.old.rows.items }
        requires masks { All (λ row. length row ≡ length asked.old) system.now.masks }
        requires width { length asked.old ≡ system.now.width }
        requires empty { empty.now ≡ replicate (length asked.old) false }
        requires index { IsIndexWithin (length self.old.waiting) (length self.old.rows.items) self.old.index.readers.items self.old.index.loads.items }
        ensures index { self.new.index ≡ self.old.index }
        ensures long { length asked.new ≡ length asked.old }
        ensures alike { IsAlike self.new.rows.items self.old.rows.items }
        ensures waiting { length self.new.waiting ≡ length self.old.waiting }
        ensures applied { IsIndexOf system.now self.old.index.readers.items self.old.index.loads.items → Contains system.now.rules rule.now
            → IsApplied system.now rule.now self.old.rows.items self.old.waiting self.new.rows.items self.new.waiting result }
    {
        match rule {
            Rule::Has { row, member } => {
                asked.copy_from(empty);
                asked.put(*member, true);
                self.write(*row, asked)
            }
            Rule::Flow { from, mask, to } => {
                gather_row(&self.rows, system.masks.as_slice(), *from, *mask, asked);
                self.write(*to, asked)
            }
            Rule::Shift { from, mask, by, to } => {
                asked.copy_from(empty);
                gather_moved(
                    &self.rows,
                    system.masks.as_slice(),
                    *from,
                    *mask,
                    *by,
                    asked,
                );
                self.write(*to, asked)
            }
            Rule::Meet { first, rest, to } => {
                gather_meet(&self.rows, *first, rest.as_slice(), asked);
                self.write(*to, asked)
            }
            Rule::Guard {
                test,
                member,
                from,
                to,
            } => self.guarded(*test, *member, *from, *to, asked),
            Rule::Store { targets, from } => self.store(*targets, *from, asked),
            Rule::Load { sources, to } => {
                asked.copy_from(empty);
                gather_loads(&self.rows, *sources, asked);
                self.write(*to, asked)
            }
        }
    }

    fn guarded(&mut self, test: u32, member: u32, from: u32, to: u32, asked: &mut Bits) -> bool
        requires test { test < length self.old.rows.items }
        requires from { from < length self.old.rows.items }
        requires to { to < length self.old.rows.items }
        requires rows { All (λ row. length row ≡ length asked.old) self.old.rows.items }
        requires index { IsIndexWithin (length self.old.waiting) (length self.old.rows.items) self.old.index.readers.items self.old.index.loads.items }
        ensures index { self.new.index ≡ self.old.index }
        ensures long { length asked.new ≡ length asked.old }
        ensures alike { IsAlike self.new.rows.items self.old.rows.items }
        ensures waiting { length self.new.waiting ≡ length self.old.waiting }
        ensures applied { (s : ASystem) → IsIndexOf s self.old.index.readers.items self.old.index.loads.items → Contains s.rules (ARule.Guard test member from to)
            → IsApplied s (ARule.Guard test member from to) self.old.rows.items self.old.waiting self.new.rows.items self.new.waiting result }
    {
        if !has_member(&self.rows[test as usize], member) {
            return false;
        }
        asked.copy_from(&self.rows[from as usize]);
        self.write(to, asked)
    }

    /// Applies a rule, which waits no longer unless a row that it reads grew.
    fn visit(&mut self, system: &System, number: u32, asked: &mut Bits, empty: &Bits) -> bool
        requires number { number < length system.now.rules }
        requires ready { IsReady system.now self.old.rows.items self.old.waiting self.old.index.readers.items self.old.index.loads.items asked.old empty.now }
        ensures ready { IsReady system.now self.new.rows.items self.new.waiting self.new.index.readers.items self.new.index.loads.items asked.new empty.now }
        ensures grown { IsGrown system.now (length system.now.rules) self.old.rows.items self.old.waiting self.new.rows.items self.new.waiting result }
        ensures done { result ≡ false → self.new.waiting ≡ slice_set self.old.waiting number false }
    {
        self.waiting.put(number, false);
        let Some(rule) = system.rules.get(number as usize) else {
            return false;
        };
        self.apply(system, rule, asked, empty)
    }

    /// Visits the rules that wait, in order.
    fn sweep(&mut self, system: &System, asked: &mut Bits, empty: &Bits) -> bool
        requires { IsReady system.now self.old.rows.items self.old.waiting self.old.index.readers.items self.old.index.loads.items asked.old empty.now }
        ensures ready { IsReady system.now self.new.rows.items self.new.waiting self.new.index.readers.items self.new.index.loads.items asked.new empty.now }
        ensures grown { IsGrown system.now (length system.now.rules) self.old.rows.items self.old.waiting self.new.rows.items self.new.waiting result }
        ensures idle { result ≡ false → (i : ℕ) → has self.new.waiting i ≡ false }
    {
        let count = self.waiting.len();
        let mut changed = false;
        let mut at = 0;
        while at < count {
            let Some(number) = self.waiting.next_member(at) else {
                return changed;
            };
            changed = self.visit(system, number, asked, empty) | changed;
            at = number + 1;
        }
        changed
    }

    /// Sweeps until no rule waits.
    pub fn settle(&mut self, system: &System, asked: &mut Bits, empty: &Bits)
        requires ready { IsReady system.now self.old.rows.items self.old.waiting self.old.index.readers.items self.old.index.loads.items asked.old empty.now }
        requires settled { IsSettled system.now (length system.now.rules) self.old.rows.items self.old.waiting }
        ensures alike { IsAlike self.new.rows.items self.old.rows.items }
        ensures above { IsAbove self.old.rows.items self.new.rows.items }
        ensures sound { (start : Table) → length start ≡ length self.old.rows.items → IsSound system.now start self.old.rows.items → IsSound system.now start self.new.rows.items }
        ensures closed { AreClosed system.now self.new.rows.items }
    {
        let mut changed = true;
        while changed {
            changed = self.sweep(system, asked, empty);
        }
    }

    pub fn into_rows(self) -> Vec<Bits>
        ensures { result ≡ self.rows }
    {
        self.rows
    }
}
