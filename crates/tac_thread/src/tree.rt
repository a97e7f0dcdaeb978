ghost use Rattle.std.specs.Prelude.{◌≡◌, ℕ, IsTrue, ◌<◌, ◌^◌, true, false, Some, IfOk, IfSome, OnOk, OnErr, option_map};
ghost use Rattle.std.specs.Option.{option_copied, option_copied_mut};
ghost use Rattle.std.specs.Borrow.{sem};
ghost use Rattle.tac_ir.specs.GoodForm.{GoodForm};
ghost use Rattle.std.specs.Ordering.{nat_cmp};
ghost use Rattle.std.specs.Map.{keys_of};
ghost use Rattle.std.specs.List.Sorted.{IsStrictlySortedBy};
ghost use Rattle.code_layout.specs.LayoutOf.{IsLayoutOf};
ghost use Rattle.tac_thread.specs.tools.Settling.{first_running, IsStepped, IsClosed, IsWaiting, IsJoined};
ghost use Rattle.tac_thread.specs.Threads.{life_in, running, next_in, IsLeastOf, name_number, point_of, stack_of, end_in, ended_of, main_value, changed, HasBranch, Settles, IsFed, IsBegun, Forks, TakesStacks, AreGuests, IsTree, IsSettling, Takes, IsSame};

use crate::deep::is_deep;
use crate::domain::Domain;
use crate::guest::Guest;
use crate::want::{Reply, Want};
use code_layout::Layout;
use dfi_base::{Memory, Name, Point};
use std::alloc::Global;
use std::collections::BTreeMap;
use std::marker::Model;
use tac_ir::Code;

/// All threads of a run. A name that lives twice is two lives.
#[derive(Drop)]
pub struct Tree<D: Domain> {
    pub(crate) alloc: Global,
    pub(crate) guests: BTreeMap<u64, Guest<D>>,
    done: Option<D::Value>,
}

impl<D: Domain> Model for Tree<D> {
    ghost use Rattle.tac_thread.specs.Threads.{Threads};

    ghost Value = { Threads D.Value D.Stack };

    ghost view = { λ t. record { lives = t.guests.entries; done = t.done } };
}

impl<D: Domain> Tree<D> {
    ghost use Rattle.tac_thread.specs.Lent.{LendsLife};

    /// Thread 1 alone, up to its first event.
    pub fn new(alloc: Global, c: &Code, l: &Layout, s: D::Stack) -> Result<Tree<D>, Memory>
        requires form { GoodForm c.now }
        requires laid { IsLayoutOf c.now l.now }
        requires frame { IsTrue (D.meaning.has_frame c.now c.now.main s) }
        ensures begun { IfOk result (λ t. IsBegun D.meaning c.now s (life_in t) t.done) }
        ensures tree { IfOk result (λ t. IsTree D.meaning c.now (life_in t)) }
    {
        let root = Guest::root(alloc, c, l, s)?;
        let mut guests = BTreeMap::new(alloc);
        guests.insert(1, root)?;
        let mut tree = Tree {
            alloc,
            guests,
            done: None,
        };
        tree.settle(c, l, 1);
        Ok(tree)
    }

    /// What a runnable thread wants next; none exactly where the name is not runnable.
    pub fn next(&self, c: &Code, l: &Layout, name: Name) -> Option<Want<D::Value>>
        requires form { GoodForm c.now }
        requires laid { IsLayoutOf c.now l.now }
        requires tree { IsTree D.meaning c.now (life_in self.now) }
        ensures { result ≡ next_in D.meaning c.now (life_in self.now) name.0 }
    {
        match self.running(name) {
            None => None,
            Some(guest) => Some(guest.want(c, l)),
        }
    }

    /// A runnable thread: what it wants next, where it stands, and its stack, by one look-up.
    pub fn running(&self, name: Name) -> Option<&Guest<D>>
        ensures { option_copied result ≡ running (life_in self.now name.0) }
    {
        match self.guests.get(&name.0) {
            None => None,
            Some(guest) => {
                if guest.is_waiting() {
                    return None;
                }
                Some(guest)
            }
        }
    }

    /// A thread that lives, for one event: it tells what it wants, where it stands and its stack, and takes the answer, by one
    /// look-up. Behind an answer `settle` follows, where the thread may have ended.
    pub fn thread_mut(&mut self, name: Name) -> Option<&mut Guest<D>>
        ensures* lent { sem 𝓛 (LendsLife D.row D.Value.row D.Stack.row D.Domain self.entry name.0 result) }
        ensures life { option_copied_mut result ≡ life_in self.old name.0 }
    {
        self.guests.get_mut(&name.0)
    }

    /// The least name of a runnable thread.
    pub fn least(&self) -> Option<Name>
        ensures { IsLeastOf (life_in self.now) (option_map name_number result) }
    {
        match self.first_name() {
            Some(name) => Some(name),
            None => self.first_running(),
        }
    }

    // The least name, where that thread runs.
    fn first_name(&self) -> Option<Name>
        ensures { IfSome result (λ name. IsLeastOf (life_in self.now) (Some name.0)) }
    {
        match self.guests.first_key_value() {
            Some((name, guest)) if !guest.is_waiting() => Some(Name(*name)),
            _ => None,
        }
    }

    /// Where the next event of a runnable thread stands.
    pub fn at(&self, name: Name) -> Option<Point>
        ensures { result ≡ option_map point_of (running (life_in self.now name.0)) }
    {
        match self.running(name) {
            None => None,
            Some(guest) => Some(guest.at()),
        }
    }

    /// The stack of the activation in which the thread stands.
    pub fn stack(&self, name: Name) -> Option<D::Stack>
        ensures { result ≡ option_map stack_of (running (life_in self.now name.0)) }
    {
        match self.running(name) {
            None => None,
            Some(guest) => Some(guest.stack()),
        }
    }

    /// Main's value, where thread 1 has ended.
    pub fn done(&self) -> Option<D::Value>
        ensures { result ≡ self.now.done }
    {
        self.done
    }

    // The first thread that runs, in the order of names.
    fn first_running(&self) -> Option<Name>
        ensures first { option_map name_number result ≡ first_running self.now.lives }
        ensures ordered { IsStrictlySortedBy nat_cmp (keys_of self.now.lives) }
    {
        for (name, guest) in self.guests.iter() {
            if !guest.is_waiting() {
                return Some(Name(*name));
            }
        }
        None
    }

    /// Takes the answer of a thread's next event, and runs on. A thread that has ended lives no more, and where it was
    /// the last branch of its parent, that goes on.
    pub fn feed(&mut self, c: &Code, l: &Layout, name: Name, reply: Reply<D>) -> Result<(), Memory>
        requires form { GoodForm c.now }
        requires laid { IsLayoutOf c.now l.now }
        requires tree { IsTree D.meaning c.now (life_in self.old) }
        requires kind { Takes D.meaning c.now (life_in self.old) name.0 reply }
        ensures fed { IfOk result (λ _. IsFed D.meaning c.now (life_in self.old) self.old.done name.0 reply (life_in self.new) self.new.done) }
        ensures tree { OnOk result (IsTree D.meaning c.now (life_in self.new)) }
        ensures err { OnErr result (IsSame self.old self.new) }
    {
        let may_have_ended = self.feed_guest(c, l, name.0, reply)?;
        if !may_have_ended {
            return Ok(());
        }
        self.settle(c, l, name.0);
        Ok(())
    }

    /// Forks a thread into branches with these stacks. Where none of them lives on, the thread goes on at the join.
    pub fn fork(&mut self, c: &Code, l: &Layout, name: Name, s: &[D::Stack]) -> Result<(), Memory>
        requires form { GoodForm c.now }
        requires laid { IsLayoutOf c.now l.now }
        requires tree { IsTree D.meaning c.now (life_in self.old) }
        requires kind { TakesStacks D.meaning c.now (life_in self.old) name.0 s.now }
        ensures forks { IfOk result (λ _. Forks D.meaning c.now (life_in self.old) self.old.done name.0 s.now (life_in self.new) self.new.done) }
        ensures tree { OnOk result (IsTree D.meaning c.now (life_in self.new)) }
        ensures err { OnErr result (IsSame self.old self.new) }
    {
        if is_deep(name) {
            self.wait(name.0);
            return Ok(());
        }
        let branches = self.branches(c, l, name.0, s)?;
        self.plant(c, l, name.0, branches)?;
        self.wait(name.0);
        self.resume(c, l, name.0);
        Ok(())
    }

    // Lets a thread take an answer and run on. Whether it may have ended.
    fn feed_guest(
        &mut self,
        c: &Code,
        l: &Layout,
        name: u64,
        reply: Reply<D>,
    ) -> Result<bool, Memory>
        requires form { GoodForm c.now }
        requires laid { IsLayoutOf c.now l.now }
        requires threads { AreGuests D.meaning c.now (life_in self.old) }
        requires kind { Takes D.meaning c.now (life_in self.old) name reply }
        ensures fed { IfOk result (λ _. IsStepped D.meaning c.now (life_in self.old) name reply (life_in self.new)) }
        ensures ended { IfOk result (λ ended. ended ≡ false → ended_of D.meaning c.now (life_in self.new name) ≡ None) }
        ensures done { self.new.done ≡ self.old.done }
        ensures err { OnErr result (IsSame self.old self.new) }
    {
        let Some(guest) = self.guests.get_mut(&name) else {
            return Ok(false);
        };
        guest.feed(c, l, reply)?;
        Ok(guest.may_have_ended(c))
    }

    /// Lets a thread that has ended live no more, and its parent go on after the last branch, and so on.
    pub fn settle(&mut self, c: &Code, l: &Layout, name: u64)
        requires form { GoodForm c.now }
        requires laid { IsLayoutOf c.now l.now }
        requires threads { IsSettling D.meaning c.now name (life_in self.old) }
        ensures settles { Settles D.meaning c.now name (life_in self.old) self.old.done (life_in self.new) self.new.done }
        ensures tree { IsTree D.meaning c.now (life_in self.new) }
    {
        let mut here = name;
        while self.close(c, l, here) {
            here /= 16;
        }
    }

    // Does so for one thread. Whether its parent goes on.
    fn close(&mut self, c: &Code, l: &Layout, name: u64) -> bool
        requires form { GoodForm c.now }
        requires laid { IsLayoutOf c.now l.now }
        requires threads { IsSettling D.meaning c.now name (life_in self.old) }
        ensures goes_on { result ≡ true → IsClosed D.meaning c.now name (life_in self.old) self.old.done (life_in self.new) self.new.done }
        ensures stops { result ≡ false → Settles D.meaning c.now name (life_in self.old) self.old.done (life_in self.new) self.new.done }
        ensures tree { result ≡ false → IsTree D.meaning c.now (life_in self.new) }
    {
        let value = match self.ended(c, l, name) {
            None => return false,
            Some(value) => value,
        };
        self.remove(name);
        if name == 1 {
            self.done = Some(main_value::<D>(value));
            return false;
        }
        if self.has_branch(name / 16) {
            return false;
        }
        self.join(c, l, name / 16);
        true
    }

    // Lets a thread live no more.
    pub(crate) fn remove(&mut self, name: u64)
        ensures lives { (k : ℕ) → life_in self.new k ≡ changed (life_in self.old) name None k }
        ensures done { self.new.done ≡ self.old.done }
    {
        self.guests.remove(&name);
    }

    // What a thread has ended with.
    fn ended(&self, c: &Code, l: &Layout, name: u64) -> Option<Option<D::Value>>
        requires form { GoodForm c.now }
        requires laid { IsLayoutOf c.now l.now }
        requires threads { AreGuests D.meaning c.now (life_in self.now) }
        ensures { result ≡ ended_of D.meaning c.now (life_in self.now name) }
    {
        match self.guests.get(&name) {
            None => None,
            Some(guest) => ended(guest.want(c, l)),
        }
    }

    // Lets a thread go on whose branches have all ended.
    pub(crate) fn join(&mut self, c: &Code, l: &Layout, name: u64)
        requires form { GoodForm c.now }
        requires laid { IsLayoutOf c.now l.now }
        requires waits { IsWaiting D.meaning c.now (life_in self.old name) }
        ensures joined { IsJoined D.meaning c.now (life_in self.old) name (life_in self.new) }
        ensures done { self.new.done ≡ self.old.done }
    {
        let Some(guest) = self.guests.get_mut(&name) else {
            return;
        };
        guest.joined(c, l);
    }

    // Whether a branch of the thread lives.
    pub(crate) fn has_branch(&self, name: u64) -> bool
        requires { name < 2 ^ 60 }
        ensures lives { result ≡ true → HasBranch (life_in self.now) name }
        ensures none { result ≡ false → HasBranch (life_in self.now) name → ⊥ }
    {
        for i in 1..16 {
            if self.guests.contains_key(&(16 * name + i)) {
                return true;
            }
        }
        false
    }
}

pub(crate) fn ended<V: Copy>(want: Want<V>) -> Option<Option<V>>
    ensures { result ≡ end_in (Some want) }
{
    match want {
        Want::Ended(value) => Some(value),
        _ => None,
    }
}

// Main's value. Main ends by its return, which has one.
fn main_value<D: Domain>(value: Option<D::Value>) -> D::Value
    ensures { result ≡ main_value D.meaning value }
{
    match value {
        None => D::int(0),
        Some(value) => value,
    }
}
