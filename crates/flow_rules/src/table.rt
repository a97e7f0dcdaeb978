ghost use Rattle.std.specs.Prelude.{◌≡◌, ◌+◌, ◌<◌, ℕ, All, IfOk, OnOk, length};
ghost use Rattle.dfi_base.specs.Bits as bits;
ghost use Rattle.dfi_base.specs.declared.numbers.Point.{Point};
ghost use Rattle.tac_ir.specs.Accesses.{facts_of};
ghost use Rattle.tac_ir.specs.Answers.{has};
ghost use Rattle.tac_ir.specs.GoodModule.{GoodModule, fact_count};
ghost use Rattle.flow_rules.specs.PointNumber.{point_at};
ghost use Rattle.flow_rules.specs.ReachRows.{IsReachOf, reach_rows};
ghost use Rattle.flow_rules.specs.Tables.{facts_at, reach_in};
ghost use Rattle.flow_rules.specs.tools.RowsBefore.{AreRowsBefore, IsRowWith};

use crate::fact_list::facts;
use crate::points::lines_of;
use dfi_base::{Bits, Memory, Point};
use sqlite_items::Items;
use std::alloc::Global;
use tac_ir::{Module, Reach, ReachRow};

/// The rows of reach of a module, as rows of bits.
pub fn reach_of(alloc: Global, md: &Module) -> Result<Reach, Memory>
    requires form { GoodModule md.now }
    ensures rows { IfOk result (λ r. IsReachOf md.now.code md.now.points r) }
    ensures table { IfOk result (λ r. (p : Point) (d a : ℕ) → reach_rows md.now.code r p d a ≡ reach_in md.now p d a) }
{
    match facts(alloc, &md.code, &md.points) {
        Err(_) => Err(Memory),
        Ok(facts) => {
            let rows = rows_of(alloc, md, facts.pairs.len() as u32)?;
            Ok(Reach { facts, rows })
        }
    }
}

// A row for each point.
fn rows_of(alloc: Global, md: &Module, len: u32) -> Result<Items<Bits>, Memory>
    requires form { GoodModule md.now }
    requires len { len ≡ fact_count md.now }
    ensures { IfOk result (λ rows. AreRowsBefore md.now (point_at (length md.now.code.funs) 0) rows) }
{
    let mut rows = Items::new(alloc);
    for fun in 0..md.code.funs.len() as u32 {
        push_rows(alloc, md, len, fun, &mut rows)?;
    }
    Ok(rows)
}

fn push_rows(
    alloc: Global,
    md: &Module,
    len: u32,
    fun: u32,
    rows: &mut Items<Bits>,
) -> Result<(), Memory>
    requires form { GoodModule md.now }
    requires len { len ≡ fact_count md.now }
    requires fun { fun < length md.now.code.funs }
    requires before { AreRowsBefore md.now (point_at fun 0) rows.old }
    ensures { OnOk result (AreRowsBefore md.now (point_at (fun + 1) 0) rows.new) }
{
    for at in 0..lines_of(&md.code, fun).len() as u32 {
        let row = row_with(alloc, len, facts_at(md.reach.as_slice(), Point { fun, at }))?;
        rows.push(row)?;
    }
    Ok(())
}

// The numbers of the facts that reach a point.
fn facts_at(rows: &[ReachRow], p: Point) -> &[u32]
    ensures { result.now ≡ facts_at rows.now p }
{
    for row in rows {
        if row.point.fun == p.fun && row.point.at == p.at {
            return row.facts.as_slice();
        }
    }
    &[]
}

// A row that has these bits and no other.
fn row_with(alloc: Global, len: u32, bits: &[u32]) -> Result<Bits, Memory>
    requires { All (λ k. k < len) bits.now }
    ensures { IfOk result (λ row. IsRowWith len bits.now row) }
{
    let mut row = Bits::new(alloc, len)?;
    for bit in bits {
        row.put(*bit, true);
    }
    Ok(row)
}
