ghost use Rattle.std.specs.Prelude.{◌≡◌, IfOk, length, All};
ghost use Rattle.flow_rules.specs.ReachRows.{ArePointsOf, IsReachOf};
ghost use Rattle.tac_ir.specs.GoodForm.{GoodForm};
ghost use Rattle.tac_ir.specs.Counts.{points_in_code};
ghost use Rattle.test_flow.specs.Worked.{AreRows};

use dfi_base::{Bits, Memory};
use flow_rules::{FactsFault, facts};
use sqlite_items::Items;
use std::alloc::Global;
use tac_ir::{Code, Points, Reach};
use test_base::Halt;

/// A fact and a point, by their numbers.
#[derive(Clone, Copy)]
pub struct Spot {
    pub fact: u32,
    pub point: u32,
}

/// Each fact reaches from the point with this number on, but for one fact at one point.
#[derive(Clone, Copy)]
pub struct Starts {
    pub facts: &'static [u32],
    pub without: Option<Spot>,
}

/// The table of reach of code with so many points.
pub fn reach_of(
    alloc: Global,
    c: &Code,
    points: &Points,
    count: u32,
    starts: Starts,
) -> Result<Reach, Halt>
    requires form { GoodForm c.now }
    requires points { ArePointsOf c.now points.now.rows }
    requires count { points_in_code c.now ≡ count }
    ensures { IfOk result (λ r. IsReachOf c.now points.now.rows r) }
{
    let facts = match facts(alloc, c, points) {
        Ok(facts) => facts,
        Err(FactsFault::Wide { .. }) => return Err(Halt::Long),
        Err(FactsFault::Memory) => return Err(Halt::Memory),
    };
    let rows = rows_of(alloc, count, facts.pairs.len() as u32, starts)?;
    Ok(Reach { facts, rows })
}

fn rows_of(alloc: Global, count: u32, width: u32, starts: Starts) -> Result<Items<Bits>, Memory>
    ensures { IfOk result (AreRows count width) }
{
    let mut rows = Items::new(alloc);
    for point in 0..count {
        rows.push(row_of(alloc, width, starts, point)?)?;
    }
    Ok(rows)
}

fn row_of(alloc: Global, width: u32, starts: Starts, point: u32) -> Result<Bits, Memory>
    ensures { IfOk result (λ row. length row ≡ width) }
{
    let mut row = Bits::new(alloc, width)?;
    for fact in 0..width {
        row.put(fact, starts.reaches(fact, point));
    }
    Ok(row)
}

impl Starts {
    fn reaches(self, fact: u32, point: u32) -> bool {
        match (self.facts.get(fact as usize), self.without) {
            (Some(start), Some(spot)) => {
                *start <= point && (spot.fact != fact || spot.point != point)
            }
            (Some(start), None) => *start <= point,
            (None, _) => false,
        }
    }
}
