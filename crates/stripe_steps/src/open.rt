ghost use Rattle.std.specs.Prelude.{◌≡◌, ◌<◌, ◌≤◌, ◌^◌, ℕ, [], IfOk, length, replicate};
ghost use Rattle.tac_ir.specs.Tables.{CanRun};
ghost use Rattle.stripe_rule.specs.Terms.{terms_of};
ghost use Rattle.stripe_rule.specs.Views.{root};
ghost use Rattle.stripe_rule.specs.Laws.{IsBlank};
ghost use Rattle.stripe_steps.specs.Opened.{AreStripes};

use crate::steps::Steps;
use atomic_table::{Seat, Table};
use dfi_base::Memory;
use heap_desk::Desk;
use std::alloc::Global;
use stripe_events::Tables;
use stripe_rule::{Content, Plan, View};
use tac_ir::Module;
use word_table::WordTable;

impl<'m> Steps<'m> {
    /// The locks of a memory before its first step, with the seat of thread 1.
    pub fn new(
        alloc: Global,
        m: &'m Module,
        input: &[i32],
        stripes: u32,
        budget: u64,
    ) -> Result<(Steps<'m>, Seat<Content, View>), Memory>
        requires can_run { CanRun m.now }
        requires input { length input.now < 2 ^ 31 }
        requires limits { (1 ≤ stripes) × (stripes ≤ 64) × (budget ≤ 4000000) }
        ensures plan { IfOk result (λ r. terms_of r.0.plan ≡ record { md = m.now; input = input.now; stripes = stripes; budget = budget }) }
        ensures seat { IfOk result (λ r. (r.1.table_id ≡ r.0.table.shared.table_id) × (r.1.me ≡ (root (record { md = m.now; input = input.now; stripes = stripes; budget = budget }), []))) }
    {
        let tables = Tables::new(alloc, m)?;
        let contents = contents_of(alloc, m, input, stripes)?;
        let plan = Plan {
            md: m,
            input: Vec::from_slice(alloc, input)?,
            stripes: stripes as usize,
            budget,
        };
        let words = zeros(alloc, stripes as usize + 3)?;
        let Ok((table, seat)) = Table::new(alloc, words.as_slice(), contents, &plan) else {
            return Err(Memory);
        };
        let steps = Steps {
            table,
            plan,
            tables,
        };
        Ok((steps, seat))
    }
}

fn zeros(alloc: Global, count: usize) -> Result<Vec<u64>, Memory>
    ensures { IfOk result (λ zeros. zeros.items ≡ replicate count 0) }
{
    Ok(vec![in alloc; 0u64; count]?)
}

// What lies under the locks before the first step.
fn contents_of(
    alloc: Global,
    m: &Module,
    input: &[i32],
    stripes: u32,
) -> Result<Vec<Content>, Memory>
    requires can_run { CanRun m.now }
    requires input { length input.now < 2 ^ 31 }
    requires limits { (1 ≤ stripes) × (stripes ≤ 64) }
    ensures { IfOk result (λ contents. (budget : ℕ) → IsBlank (record { md = m.now; input = input.now; stripes = stripes; budget = budget }) contents.items) }
{
    let words = WordTable::new(alloc, m)?;
    let desk = Desk::new(alloc, input, m.size)?;
    let mut contents = stripes_of(alloc, &words, stripes)?;
    contents.push(Content::Desk(desk))?;
    Ok(contents)
}

// The stripes of a memory's words.
fn stripes_of(alloc: Global, words: &WordTable, stripes: u32) -> Result<Vec<Content>, Memory>
    requires few { (length words.now.values < 2 ^ 31) × (length words.now.classes < 2 ^ 31) }
    ensures { IfOk result (λ contents. AreStripes words.now stripes stripes contents.items) }
{
    let mut contents = Vec::new(alloc);
    for stripe in 0..stripes {
        let part = words.stripe(alloc, stripe, stripes)?;
        contents.push(Content::Words(part))?;
    }
    Ok(contents)
}
