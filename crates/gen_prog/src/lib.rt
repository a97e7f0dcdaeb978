//! Writes programs of a given size, which run many threads and put out a known sum.
#![tactic(auto)]

mod lines;

ghost use Rattle.std.specs.Prelude.{◌≡◌, ◌≤◌, IfOk};
ghost use Rattle.gen_prog.specs.Program.{text_of};

use crate::lines::{push_array, push_branches, push_functions, push_sum};
use dfi_base::Memory;
use std::alloc::Global;

/// A program of `n` functions, each of which two threads call. It puts out `6175 * n * (n + 1) / 2`.
pub fn generate(alloc: Global, n: u32) -> Result<Vec<u8>, Memory>
    requires least { 1 ≤ n }
    requires most { n ≤ 200 }
    ensures { IfOk result (λ text. text.items ≡ text_of n) }
{
    let mut text = String::new(alloc);
    push_array(&mut text, n)?;
    push_functions(&mut text, n)?;
    writeln!(text, "int main() {{")?;
    push_branches(&mut text, n)?;
    push_sum(&mut text, n)?;
    Ok(text.into_bytes())
}
