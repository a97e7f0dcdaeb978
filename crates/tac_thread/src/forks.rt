ghost use Rattle.std.specs.Prelude.{◌≡◌, ℕ, ◌+◌, ◌*◌, ◌<◌, ◌≤◌, ◌^◌, None, IsSome, IfOk, OnErr};
ghost use Rattle.tac_ir.specs.GoodForm.{GoodForm};
ghost use Rattle.code_layout.specs.LayoutOf.{IsLayoutOf};
ghost use Rattle.tac_thread.specs.Threads.{life_in, with_branch, planted, IsTree, IsStuck, TakesStacks, IsSame, Resumes};
ghost use Rattle.tac_thread.specs.Guests.{IsGuestOf};
ghost use Rattle.tac_thread.specs.tools.Settling.{IsWaiting, ArePlantable, IsFreeFor, IsApart};

use crate::domain::Domain;
use crate::guest::Guest;
use crate::tree::{Tree, ended};
use code_layout::Layout;
use dfi_base::Memory;
use std::collections::VecDeque;
use tac_ir::Code;

impl<D: Domain> Tree<D> {
    // The branches of a thread with these stacks.
    pub(crate) fn branches(
        &self,
        c: &Code,
        l: &Layout,
        name: u64,
        s: &[D::Stack],
    ) -> Result<VecDeque<Guest<D>>, Memory>
        requires form { GoodForm c.now }
        requires laid { IsLayoutOf c.now l.now }
        requires tree { IsTree D.meaning c.now (life_in self.now) }
        requires kind { TakesStacks D.meaning c.now (life_in self.now) name s.now }
        ensures { IfOk result (λ v. ArePlantable D.meaning c.now (life_in self.now name) s.now v.items) }
    {
        let mut branches = VecDeque::new(self.alloc);
        let Some(guest) = self.guests.get(&name) else {
            return Ok(branches);
        };
        let mut i = 0;
        for stack in s {
            i += 1;
            let branch = guest.branch(self.alloc, c, l, i, *stack)?;
            branches.push_back(branch)?;
        }
        Ok(branches)
    }

    // Lets the branches of a thread live, but those that have ended.
    pub(crate) fn plant(
        &mut self,
        c: &Code,
        l: &Layout,
        name: u64,
        branches: VecDeque<Guest<D>>,
    ) -> Result<(), Memory>
        requires form { GoodForm c.now }
        requires laid { IsLayoutOf c.now l.now }
        requires small { name < 2 ^ 56 }
        requires free { IsFreeFor D.meaning c.now (life_in self.old) name branches.items }
        ensures planted { IfOk result (λ _. (k : ℕ)
            → life_in self.new k ≡ planted D.meaning c.now (life_in self.old) name 1 branches.items k) }
        ensures done { self.new.done ≡ self.old.done }
        ensures err { OnErr result (IsSame self.old self.new) }
    {
        let mut rest = branches;
        let mut i = 1;
        while let Some(guest) = rest.pop_front() {
            if let Err(fault) = self.plant_one(c, l, 16 * name + i, guest) {
                self.uproot(name);
                return Err(fault);
            }
            i += 1;
        }
        Ok(())
    }

    // Lets a branch live where it has not ended.
    fn plant_one(&mut self, c: &Code, l: &Layout, name: u64, branch: Guest<D>) -> Result<(), Memory>
        requires form { GoodForm c.now }
        requires laid { IsLayoutOf c.now l.now }
        requires guest { IsGuestOf D.meaning c.now branch }
        ensures ok { IfOk result (λ _. (k : ℕ)
            → life_in self.new k ≡ with_branch D.meaning c.now (life_in self.old) name branch k) }
        ensures done { self.new.done ≡ self.old.done }
        ensures err { OnErr result (IsSame self.old self.new) }
    {
        if ended(branch.want(c, l)).is_none() {
            self.guests.insert(name, branch)?;
        }
        Ok(())
    }

    // Lets no branch of a thread live.
    fn uproot(&mut self, name: u64)
        requires { name < 2 ^ 56 }
        ensures branches { (i : ℕ) → 1 ≤ i → i ≤ 15 → life_in self.new (16 * name + i) ≡ None }
        ensures others { (k : ℕ) → IsApart name k → life_in self.new k ≡ life_in self.old k }
        ensures done { self.new.done ≡ self.old.done }
    {
        for i in 1..16 {
            self.remove(16 * name + i);
        }
    }

    // Lets a thread wait for its branches.
    pub(crate) fn wait(&mut self, name: u64)
        requires { IsSome (life_in self.old name) }
        ensures { IsStuck (life_in self.old) self.old.done name (life_in self.new) self.new.done }
    {
        let Some(guest) = self.guests.get_mut(&name) else {
            return;
        };
        guest.wait();
    }

    // Lets a thread go on whose branches have all ended.
    pub(crate) fn resume(&mut self, c: &Code, l: &Layout, name: u64)
        requires form { GoodForm c.now }
        requires laid { IsLayoutOf c.now l.now }
        requires small { name < 2 ^ 56 }
        requires tree { IsTree D.meaning c.now (life_in self.old) }
        requires waits { IsWaiting D.meaning c.now (life_in self.old name) }
        ensures resumes { Resumes D.meaning c.now name (life_in self.old) self.old.done (life_in self.new) self.new.done }
        ensures tree { IsTree D.meaning c.now (life_in self.new) }
    {
        if self.has_branch(name) {
            return;
        }
        self.join(c, l, name);
        self.settle(c, l, name);
    }
}
