ghost use Rattle.std.specs.Prelude.{◌≡◌, suc, max};
ghost use Rattle.tac_ir.specs.Counts.{temps_named, past, temps_in};

use tac_ir::{Instr, Lined};

/// How many temporaries these lines need, and at least so many.
pub fn temps_in(least: u64, code: &[Lined]) -> u64
    ensures { result ≡ temps_in least code.now }
{
    let mut count = least;
    for line in code {
        count = past_instr(count, &line.instr);
    }
    count
}

fn past_instr(count: u64, instr: &Instr) -> u64
    ensures { result ≡ past count (temps_named instr.now) }
{
    match instr {
        Instr::Const { to, .. }
        | Instr::Null { to }
        | Instr::Addr { to, .. }
        | Instr::Get { to, .. }
        | Instr::In { to }
        | Instr::Left { to } => past(count, *to),
        Instr::Un { to, a, .. }
        | Instr::Field { to, a, .. }
        | Instr::Decay { to, a, .. }
        | Instr::Load { to, a, .. }
        | Instr::New { to, a, .. } => past(past(count, *to), *a),
        Instr::Bin { to, a, b, .. }
        | Instr::Index { to, a, b, .. }
        | Instr::Same { to, a, b, .. } => { past(past(past(count, *to), *a), *b) }
        Instr::Store { a, b, .. } => past(past(count, *a), *b),
        Instr::Set { a, .. }
        | Instr::Free { a }
        | Instr::Out { a }
        | Instr::Ret { a, .. }
        | Instr::Test { a, .. } => past(count, *a),
        Instr::Call { to, args, .. } => past_all(past(count, *to), args.as_slice()),
        Instr::Jump { .. } | Instr::Turn | Instr::Fork { .. } | Instr::End => count,
    }
}

fn past_all(least: u64, temps: &[u32]) -> u64
    ensures { result ≡ past least temps.now }
{
    let mut count = least;
    for temp in temps {
        count = past(count, *temp);
    }
    count
}

fn past(least: u64, temp: u32) -> u64
    ensures { result ≡ max least (suc temp) }
{
    least.max(temp as u64 + 1)
}
