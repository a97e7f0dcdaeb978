ghost use Rattle.std.specs.Prelude.{◌≤◌, IfOk, IsTrue};
ghost use Rattle.flow_rules.specs.ReachRows.{IsReachOf};
ghost use Rattle.test_flow.specs.Worked.{IsWorked, are_fitting, counts_of};

use crate::program::Program;
use crate::reach::{Spot, Starts, reach_of};
use crate::tables::{Member, points_of};
use dfi_base::{DefNo, Memory, ReadNo};
use flow_rules::{Broken, closed, set_has};
use par_interfere::mhp;
use std::alloc::{AllocError, Global};
use tac_ir::{Code, Facts, Points, Reach};
use test_base::Halt;

/// The tables of a program: those of points and of reach, but for a member and for a fact at a point.
#[derive(Clone, Copy)]
pub struct Tables {
    pub program: Program,
    pub member: Member,
    pub without: Option<Spot>,
}

impl Tables {
    fn starts(self) -> Starts {
        Starts {
            facts: self.program.starts(),
            without: self.without,
        }
    }

    fn points(self, alloc: Global) -> Result<Points, AllocError>
        ensures { IfOk result (λ p. IsTrue (are_fitting (counts_of self.program) p.rows)) }
    {
        points_of(alloc, self.program.others(self.member))
    }

    #[tactic(auto, using(crate::proofs::Forms::fits))]
    fn reach(self, alloc: Global, c: &Code, points: &Points) -> Result<Reach, Halt>
        requires code { IsWorked c.now (counts_of self.program) }
        requires points { IsTrue (are_fitting (counts_of self.program) points.now.rows) }
        ensures { IfOk result (IsReachOf c.now points.now.rows) }
    {
        let count = self.program.counts().points;
        reach_of(alloc, c, points, count, self.starts())
    }

    /// Where they are open.
    pub fn opened(self, alloc: Global) -> Result<Option<Broken>, Halt> {
        let module = self.program.module(alloc)?;
        let points = self.points(alloc)?;
        match self.closing(alloc, &module.code, &points)? {
            Ok(()) => Ok(None),
            Err(broken) => Ok(Some(broken)),
        }
    }

    #[tactic(auto, using(crate::proofs::Forms::fits))]
    fn closing(self, alloc: Global, c: &Code, points: &Points) -> Result<Result<(), Broken>, Halt>
        requires code { IsWorked c.now (counts_of self.program) }
        requires points { IsTrue (are_fitting (counts_of self.program) points.now.rows) }
    {
        let parallel = mhp(alloc, c)?;
        let reach = self.reach(alloc, c, points)?;
        Ok(closed(c, points, &parallel, &reach))
    }

    /// The facts.
    pub fn facts(self, alloc: Global) -> Result<Facts, Halt> {
        let module = self.program.module(alloc)?;
        let points = self.points(alloc)?;
        Ok(self.reach(alloc, &module.code, &points)?.facts)
    }

    /// The definitions that a read may find, none where there is no such read.
    pub fn found(self, alloc: Global, read: u16) -> Result<Vec<u16>, Halt> {
        let module = self.program.module(alloc)?;
        let points = self.points(alloc)?;
        if read == 0 || read > self.program.counts().reads {
            return Ok(Vec::new(alloc));
        }
        self.finding(alloc, &module.code, &points, read)
    }

    #[tactic(auto, using(crate::proofs::Forms::fits))]
    fn finding(self, alloc: Global, c: &Code, points: &Points, read: u16) -> Result<Vec<u16>, Halt>
        requires code { IsWorked c.now (counts_of self.program) }
        requires points { IsTrue (are_fitting (counts_of self.program) points.now.rows) }
        requires low { 1 ≤ read }
        requires high { read ≤ (counts_of self.program).reads }
    {
        let parallel = mhp(alloc, c)?;
        let counts = self.program.counts();
        let reach = self.reach(alloc, c, points)?;
        let mut found = Vec::new(alloc);
        for def in 0..counts.defs {
            if set_has(c, points, &parallel, &reach, ReadNo(read), DefNo(def + 1)) {
                add(&mut found, def + 1)?;
            }
        }
        Ok(found)
    }
}

fn add(found: &mut Vec<u16>, def: u16) -> Result<(), Memory> {
    Ok(found.push(def)?)
}
