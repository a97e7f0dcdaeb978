ghost use Rattle.std.specs.Prelude.{◌≡◌, IfOk, codes};
ghost use Rattle.c_lex.specs.Bytes.{line_at};
ghost use Rattle.fault_text.specs.FaultText.{big_code, big_type, lex_text, lower_text, parse_text, told_at, type_text};

use c_lex::{LexFault, newlines};
use c_parse::ParseFault;
use c_typed::{BigWhat, TypeFault};
use dfi_base::Memory;
use std::alloc::Global;
use tac_lower::{LowerFault, LowerWhat};

/// The line of a fault, by its number and its words.
fn told_at(alloc: Global, line: u64, words: &str) -> Result<Vec<u8>, Memory>
    ensures { IfOk result (λ text. text.items ≡ told_at line words.now) }
{
    let mut text = String::new(alloc);
    writeln!(text, "line {line}: {words}")?;
    Ok(text.into_bytes())
}

/// The line, from 1, of the byte at a place.
fn line_at(source: &[u8], at: u32) -> u64
    ensures { result ≡ line_at source.now at }
{
    let before = source.get(..at as usize).unwrap_or(source);
    1 + newlines(before) as u64
}

pub(crate) fn lex_line(alloc: Global, source: &[u8], fault: &LexFault) -> Result<Vec<u8>, Memory>
    ensures { IfOk result (λ text. text.items ≡ lex_text source.now fault.now) }
{
    match fault {
        LexFault::BadByte { at } => told_at(alloc, line_at(source, *at), "bad byte"),
        LexFault::BadNumber { at } => told_at(alloc, line_at(source, *at), "bad number"),
        LexFault::BigNumber { at } => told_at(alloc, line_at(source, *at), "big number"),
        LexFault::OpenComment { at } => told_at(alloc, line_at(source, *at), "open comment"),
        LexFault::TooMany { at } => told_at(alloc, line_at(source, *at), "too many tokens"),
        LexFault::Memory => Err(Memory),
    }
}

pub(crate) fn parse_line(alloc: Global, fault: &ParseFault) -> Result<Vec<u8>, Memory>
    ensures { IfOk result (λ text. text.items ≡ parse_text fault.now) }
{
    match fault {
        ParseFault::Unexpected { line, .. } => told_at(alloc, line.0 as u64, "unexpected token"),
        ParseFault::Deep { line } => told_at(alloc, line.0 as u64, "nested too deep"),
        ParseFault::Memory => Err(Memory),
    }
}

fn big_type(what: BigWhat) -> &'static str
    ensures { result.now ≡ big_type what }
{
    match what {
        BigWhat::Functions => "too big: functions",
        BigWhat::Shape => "too big: type",
        BigWhat::Globals => "too big: globals",
        BigWhat::Frame => "too big: frame",
    }
}

pub(crate) fn type_line(alloc: Global, fault: &TypeFault) -> Result<Vec<u8>, Memory>
    ensures { IfOk result (λ text. text.items ≡ type_text fault.now) }
{
    match fault {
        TypeFault::Unknown { line } => told_at(alloc, line.0 as u64, "unknown name"),
        TypeFault::Twice { line } => told_at(alloc, line.0 as u64, "name twice"),
        TypeFault::Mismatch { line } => told_at(alloc, line.0 as u64, "types differ"),
        TypeFault::NotLvalue { line } => told_at(alloc, line.0 as u64, "no lvalue"),
        TypeFault::Escape { line } => told_at(alloc, line.0 as u64, "leaves its branch"),
        TypeFault::Branches { line } => told_at(alloc, line.0 as u64, "branches"),
        TypeFault::Big { what, line } => told_at(alloc, line.0 as u64, big_type(*what)),
        TypeFault::NoMain { line } => told_at(alloc, line.0 as u64, "no main"),
        TypeFault::Memory => Err(Memory),
    }
}

fn big_code(what: LowerWhat) -> &'static str
    ensures { result.now ≡ big_code what }
{
    match what {
        LowerWhat::Points => "too big: points",
        LowerWhat::Defs => "too big: definitions",
        LowerWhat::Nodes => "too big: nodes",
    }
}

pub(crate) fn lower_line(alloc: Global, fault: &LowerFault) -> Result<Vec<u8>, Memory>
    ensures { IfOk result (λ text. text.items ≡ lower_text fault.now) }
{
    match fault {
        LowerFault::Big { what, line } => told_at(alloc, line.0 as u64, big_code(*what)),
        LowerFault::Memory => Err(Memory),
    }
}
