//! Functions (C99 6.9.1), and the drafts of all of them.

ghost use Rattle.std.specs.Prelude.{take, ◌+◌, ◌<◌, ◌≤◌, ◌≡◌};
ghost use Rattle.c_typed.specs.IsWell.{IsWell};
ghost use Rattle.tac_lower.specs.declared.draft.Ends.{Ends};
ghost use Rattle.tac_lower.specs.CodeOf.{first_numbers};
ghost use Rattle.tac_lower.specs.tools.Drafted.{IsBegun, Writes, Drafts, fault_of, is_pointer};
ghost use Rattle.tac_lower.specs.tools.Emits.{Emits};
ghost use Rattle.tac_lower.specs.tools.Well.{WellStmts};
ghost use Rattle.tac_lower.specs.Functions as spec;
ghost use Rattle.tac_lower.specs.Parts.{in_turn};
ghost use Rattle.tac_lower.specs.Stmts.{around_by};

use crate::draft::{Draft, Numbers};
use crate::fault::{LowerFault, LowerWhat};
use crate::progress::Progress;
use crate::stmts::NO_LOOP;
use crate::structs::Structs;
use crate::writer::{Stop, Writer};
use c_typed::{Function, ObjectType, Typed, Variable};
use dfi_base::Line;
use dfi_base::limits::POINT_LIMIT;
use sqlite_items::Items;
use std::alloc::Global;
use tac_ir::{Instr, Place};

impl Writer {
    /// The arguments are written to the parameters.
    fn parameters(&mut self, alloc: Global, variables: &[Variable]) -> Result<u32, Stop>
        ensures { (ends : Ends) → Emits (in_turn (spec.parameters_from 0 variables.now)) ends self.old self.new result }
    {
        let mut k = 0;
        for variable in variables {
            let place = Place::Local {
                var: k,
                path: Items::new(alloc),
            };
            self.set(variable.line.0, place, k)?;
            k += 1;
        }
        Ok(0)
    }

    /// What a function gives at its closing brace.
    fn default_value(&mut self, line: u32, typing: &Option<ObjectType>) -> Result<u32, Stop>
        ensures { (ends : Ends) → Emits (spec.default line typing.now) ends self.old self.new result }
    {
        if is_pointer(typing) {
            let to = self.next.temp;
            self.fresh(line, Instr::Null { to })
        } else {
            self.constant(line, 0)
        }
    }

    fn function(&mut self, structs: &Structs, in_main: bool, f: &Function) -> Result<u32, Stop>
        requires { WellStmts structs.now f.now.body }
        ensures { Emits (spec.function (around_by structs.now in_main) f.now) spec.no_loop self.old self.new result }
    {
        self.parameters(structs.alloc(), parameters_of(f))?;
        self.stmts(structs, in_main, NO_LOOP, f.body.as_slice())?;
        let a = self.default_value(f.close.0, &f.result)?;
        self.give_back(in_main, f.close.0, a)
    }
}

fn is_pointer(typing: &Option<ObjectType>) -> bool
    ensures { result ≡ is_pointer typing.now }
{
    match typing {
        None => false,
        Some(object) => object.stars > 0,
    }
}

fn parameters_of(f: &Function) -> &[Variable]
    ensures { result.now ≡ take f.now.parameters f.now.variables }
{
    let variables = f.variables.as_slice();
    match variables.get(..f.parameters as usize) {
        None => variables,
        Some(parameters) => parameters,
    }
}

impl Progress {
    /// Before the first function; each global has a starting definition.
    fn new(globals: usize) -> Progress
        requires { globals < 2147483648 }
        ensures { IsBegun globals result }
    {
        let next = Numbers {
            temp: 0,
            def: globals as u32 + 1,
            read: 1,
            at: 0,
        };
        Progress {
            next,
            room: POINT_LIMIT,
        }
    }

    /// The drafts of the next function.
    fn function(
        &mut self,
        structs: &Structs,
        in_main: bool,
        f: &Function,
    ) -> Result<Items<Draft>, Stop>
        requires parameters { f.now.parameters ≤ 2147483648 }
        requires body { WellStmts structs.now f.now.body }
        ensures { Writes (spec.function (around_by structs.now in_main) f.now) f.now self.old self.new result }
    {
        let next = Numbers {
            temp: f.parameters,
            def: self.next.def,
            read: self.next.read,
            at: 0,
        };
        let mut writer = Writer {
            drafts: Items::new(structs.alloc()),
            next,
            room: self.room,
            dry: false,
        };
        writer.function(structs, in_main, f)?;
        self.next = writer.next;
        self.room -= writer.next.at;
        Ok(writer.drafts)
    }
}

fn fault(stop: Stop, line: Line) -> LowerFault
    ensures { result ≡ fault_of stop line }
{
    match stop {
        Stop::Full => LowerFault::Big {
            what: LowerWhat::Points,
            line,
        },
        Stop::Memory => LowerFault::Memory,
    }
}

/// The drafts of all functions, or the line of the one with which there are too many instructions.
pub(crate) fn emit_functions(
    alloc: Global,
    program: &Typed,
) -> Result<Items<Items<Draft>>, LowerFault>
    requires { IsWell program.now }
    ensures { Drafts program.now result }
{
    let mut progress = Progress::new(program.globals.len());
    let items = program.structs.as_slice();
    let structs = Structs::new(alloc, items);
    let functions = program.functions.as_slice();
    let mut drafts = Items::new(alloc);
    for (k, f) in functions.iter().enumerate() {
        let in_main = k == program.main as usize;
        match progress.function(&structs, in_main, f) {
            Ok(function) => drafts.push(function)?,
            Err(stop) => return Err(fault(stop, f.line)),
        }
    }
    Ok(drafts)
}
