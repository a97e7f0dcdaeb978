ghost use Rattle.std.specs.Prelude.{IfOk, IsTrue, ◌↔◌};
ghost use Rattle.tac_ir.specs.GoodForm.{GoodForm};
ghost use Rattle.tac_ir.specs.GoodModule.{IsPoint};

use crate::codes::{calling, forked};
use dfi_base::{Memory, Point};
use par_interfere::mhp;
use std::alloc::{AllocError, Global};
use tac_ir::{Code, Module};
use test_base::{Halt, Row};

#[derive(Clone, Copy)]
pub enum Program {
    Forked,
    Calling,
}

/// A program, and two points of it, each by the number of its function and its index.
#[derive(Clone, Copy)]
pub struct Case(Program, (u32, u32), (u32, u32));

pub static CASES: [Case; 19] = [
    Case(Program::Forked, (0, 4), (0, 6)),
    Case(Program::Forked, (0, 6), (0, 4)),
    Case(Program::Forked, (0, 4), (0, 5)),
    Case(Program::Forked, (0, 1), (0, 6)),
    Case(Program::Forked, (0, 9), (0, 4)),
    Case(Program::Forked, (0, 3), (0, 8)),
    Case(Program::Forked, (0, 5), (0, 8)),
    Case(Program::Forked, (0, 4), (0, 4)),
    Case(Program::Forked, (0, 2), (0, 4)),
    Case(Program::Calling, (0, 2), (0, 4)),
    Case(Program::Calling, (1, 0), (2, 2)),
    Case(Program::Calling, (1, 1), (0, 4)),
    Case(Program::Calling, (1, 0), (1, 2)),
    Case(Program::Calling, (3, 0), (3, 0)),
    Case(Program::Calling, (1, 0), (3, 1)),
    Case(Program::Calling, (3, 1), (0, 2)),
    Case(Program::Calling, (0, 6), (3, 0)),
    Case(Program::Calling, (0, 3), (1, 0)),
    Case(Program::Calling, (0, 0), (2, 0)),
];

impl Row for Case {
    fn text(&self, alloc: Global) -> Result<Vec<u8>, Halt> {
        let Case(program, p, q) = *self;
        let answer = program.answer(alloc, point(p), point(q))?;
        let (f, i) = p;
        let (g, k) = q;
        let title = program.title();
        let text = format!(in alloc; "{title} {f}.{i} and {g}.{k}: {answer}\n")?;
        Ok(text.into_bytes())
    }
}

impl Program {
    fn title(self) -> &'static str {
        match self {
            Program::Forked => "forked",
            Program::Calling => "calling",
        }
    }

    fn module(self, alloc: Global) -> Result<Module, AllocError>
        ensures { IfOk result (λ m. GoodForm m.code) }
    {
        match self {
            Program::Forked => forked(alloc),
            Program::Calling => calling(alloc),
        }
    }

    fn answer(self, alloc: Global, p: Point, q: Point) -> Result<&'static str, Memory> {
        let module = self.module(alloc)?;
        meeting(alloc, &module.code, p, q)
    }
}

fn point(at: (u32, u32)) -> Point {
    let (fun, at) = at;
    Point { fun, at }
}

fn meeting(alloc: Global, c: &Code, p: Point, q: Point) -> Result<&'static str, Memory>
    requires { GoodForm c.now }
{
    let parallel = mhp(alloc, c)?;
    if !is_point(c, p) || !is_point(c, q) {
        return Ok("no points");
    }
    if parallel.meets(c, p, q) {
        Ok("meet")
    } else {
        Ok("apart")
    }
}

fn is_point(c: &Code, p: Point) -> bool
    ensures { IsTrue result ↔ IsPoint c.now p }
{
    match c.funs.get(p.fun as usize) {
        None => false,
        Some(fun) => (p.at as usize) < fun.code.len(),
    }
}
