//! How many definitions and reads the instructions of code make.
ghost use Rattle.std.specs.Prelude.{◌≡◌, ◌+◌, ◌<◌, ◌≤◌, ◌^◌, length};
ghost use Rattle.tac_ir.specs.GoodForm.{GoodForm};
ghost use Rattle.tac_ir.specs.Numbers.{defs_in_code, new_def, new_read, numbers_in, numbers_in_funs, reads_made};
ghost use Rattle.def_classes.specs.tools.Counted.{counted};

use tac_ir::{Code, Fun, Instr, Lined};

/// How many definitions and reads there are.
#[derive(Clone, Copy)]
pub(crate) struct Counts {
    pub definitions: u32,
    pub reads: u32,
}

/// Counts one instruction more.
fn with_instr(counts: Counts, instr: &Instr) -> Counts
    requires definitions { counts.definitions + counted (new_def instr.now) < 2 ^ 32 }
    requires reads { counts.reads + counted (new_read instr.now) < 2 ^ 32 }
    ensures definitions { result.definitions ≡ counts.definitions + counted (new_def instr.now) }
    ensures reads { result.reads ≡ counts.reads + counted (new_read instr.now) }
{
    let Counts { definitions, reads } = counts;
    match instr {
        Instr::Set { .. } | Instr::Store { .. } | Instr::Call { .. } => Counts {
            definitions: definitions + 1,
            reads,
        },
        Instr::Get { .. } | Instr::Load { .. } | Instr::Ret { read: Some(_), .. } => Counts {
            definitions,
            reads: reads + 1,
        },
        _ => counts,
    }
}

/// Counts the instructions of one function more.
fn with_code(counts: Counts, code: &[Lined]) -> Counts
    requires definitions { counts.definitions + length (numbers_in new_def code.now) < 2 ^ 32 }
    requires reads { counts.reads + length (numbers_in new_read code.now) < 2 ^ 32 }
    ensures definitions { result.definitions
        ≡ counts.definitions + length (numbers_in new_def code.now) }
    ensures reads { result.reads ≡ counts.reads + length (numbers_in new_read code.now) }
{
    let mut counts = counts;
    for lined in code {
        counts = with_instr(counts, &lined.instr);
    }
    counts
}

/// Counts the instructions of all functions.
fn count(funs: &[Fun]) -> Counts
    requires definitions { length (numbers_in_funs new_def funs.now) < 2 ^ 32 }
    requires reads { length (numbers_in_funs new_read funs.now) < 2 ^ 32 }
    ensures definitions { result.definitions ≡ length (numbers_in_funs new_def funs.now) }
    ensures reads { result.reads ≡ length (numbers_in_funs new_read funs.now) }
{
    let mut counts = Counts {
        definitions: 0,
        reads: 0,
    };
    for fun in funs {
        counts = with_code(counts, fun.code.as_slice());
    }
    counts
}

/// How many definitions and reads code has, with the starting definitions of globals.
pub(crate) fn count_in_code(code: &Code) -> Counts
    requires { GoodForm code.now }
    ensures definitions { result.definitions ≡ defs_in_code code.now }
    ensures few { result.definitions ≤ 4096 }
    ensures reads { result.reads ≡ length (reads_made code.now) }
    ensures few_reads { result.reads ≤ 16384 }
{
    let Counts { definitions, reads } = count(code.funs.as_slice());
    Counts {
        definitions: code.globals.len() as u32 + definitions,
        reads,
    }
}
