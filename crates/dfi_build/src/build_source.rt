ghost use Rattle.std.specs.Prelude.{◌≡◌, ◌<◌, ◌^◌, None, length, IfErr, IfOk};
ghost use Rattle.tac_ir.specs.GoodForm.{GoodForm};
ghost use Rattle.c_lex.specs.IsLexed.{LexesTo};
ghost use Rattle.word_table.specs.Tables.{CanRun};
ghost use Rattle.dfi_build.specs.Builds.{Builds, IsCodeOf, Tells};
ghost use Rattle.dfi_build.specs.Source.{IsParsed, IsTyped};

use crate::fault::BuildFault;
use c_ast::Ast;
use c_lex::{LexFault, Lexed, lex};
use c_parse::{ParseFault, parse};
use c_typed::{TypeFault, Typed};
use c_types::check;
use dfi_base::Memory;
use first_module::make_module;
use std::alloc::Global;
use tac_ir::{Code, Module};
use tac_lower::{LowerFault, lower};

fn tokens_of(alloc: Global, bytes: &[u8]) -> Result<Lexed, BuildFault>
    requires { length bytes.now < 2 ^ 31 }
    ensures tokens { IfOk result (λ lexed. LexesTo bytes.now lexed) }
    ensures fault { IfErr result (Tells bytes.now) }
{
    match lex(alloc, bytes) {
        Ok(lexed) => Ok(lexed),
        Err(LexFault::Memory) => Err(BuildFault::Memory),
        Err(fault) => Err(BuildFault::Lex(fault)),
    }
}

fn tree_of(alloc: Global, bytes: &[u8]) -> Result<Ast, BuildFault>
    requires { length bytes.now < 2 ^ 31 }
    ensures tree { IfOk result (IsParsed bytes.now) }
    ensures fault { IfErr result (Tells bytes.now) }
{
    let lexed = tokens_of(alloc, bytes)?;
    match parse(alloc, lexed) {
        Ok(tree) => Ok(tree),
        Err(ParseFault::Memory) => Err(BuildFault::Memory),
        Err(fault) => Err(BuildFault::Parse(fault)),
    }
}

fn program_of(alloc: Global, bytes: &[u8]) -> Result<Typed, BuildFault>
    requires { length bytes.now < 2 ^ 31 }
    ensures program { IfOk result (IsTyped bytes.now) }
    ensures fault { IfErr result (Tells bytes.now) }
{
    let tree = tree_of(alloc, bytes)?;
    match check(alloc, tree) {
        Ok(program) => Ok(program),
        Err(TypeFault::Memory) => Err(BuildFault::Memory),
        Err(fault) => Err(BuildFault::Types(fault)),
    }
}

fn code_of(alloc: Global, bytes: &[u8]) -> Result<Code, BuildFault>
    requires { length bytes.now < 2 ^ 31 }
    ensures code { IfOk result (IsCodeOf bytes.now) }
    ensures form { IfOk result (λ c. GoodForm c) }
    ensures fault { IfErr result (Tells bytes.now) }
{
    let program = program_of(alloc, bytes)?;
    match lower(alloc, &program) {
        Ok(code) => Ok(code),
        Err(LowerFault::Memory) => Err(BuildFault::Memory),
        Err(fault) => Err(BuildFault::Lower(fault)),
    }
}

/// The module of a source, or the first fault of its text, of the order of its tokens, of its types or of its size.
pub fn build(alloc: Global, bytes: &[u8]) -> Result<Module, BuildFault>
    requires { length bytes.now < 2 ^ 31 }
    ensures module { Builds bytes.now result }
    ensures runs { IfOk result (λ m. CanRun m) }
{
    let code = code_of(alloc, bytes)?;
    match make_module(alloc, code) {
        Ok(module) => Ok(module),
        Err(Memory) => Err(BuildFault::Memory),
    }
}
