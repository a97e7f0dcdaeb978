ghost use Rattle.std.specs.Prelude.{◌≡◌, ◌↔◌, IsTrue, length};
ghost use Rattle.dfi_base.specs.declared.numbers.Point.{Point};
ghost use Rattle.tac_ir.specs.Bodies.{Parallel};
ghost use Rattle.tac_ir.specs.GoodForm.{GoodForm};
ghost use Rattle.tac_ir.specs.Counts.{points_in_code};
ghost use Rattle.tac_ir.specs.GoodModule.{IsPoint};
ghost use Rattle.flow_rules.specs.IsMhp.{IsMhp, IsSquare, meets};

use crate::points::point_number;
use dfi_base::{Bits, Point};
use std::marker::Model;
use tac_ir::Code;

/// Which points may run beside which: a row of bits for each point, in the order of the code.
#[derive(Drop)]
pub struct Mhp {
    rows: Vec<Bits>,
}

impl Model for Mhp {
    ghost use Rattle.std.specs.Prelude.{List, Bool};
    ghost use Rattle.flow_rules.specs.IsMhp.{IsSquare};

    ghost Value = { List (List Bool) };

    ghost view = { λ mhp. mhp.rows.items };

    ghost invariant = { λ mhp. IsSquare mhp.rows.items };
}

impl Mhp {
    pub fn of(rows: Vec<Bits>) -> Mhp
        requires { IsSquare rows.items }
        ensures { result ≡ rows.items }
    {
        Mhp { rows }
    }

    /// Whether q may run beside p.
    pub fn meets(&self, c: &Code, p: Point, q: Point) -> bool
        requires p { IsPoint c.now p }
        requires q { IsPoint c.now q }
        requires rows { length self.now ≡ points_in_code c.now }
        ensures { result ≡ meets self.now c.now p q }
    {
        let row = &self.rows[point_number(c, p)];
        let at = point_number(c, q);
        at < row.len() as usize && row.get(at as u32)
    }

    // Whether no point may run beside p.
    pub(crate) fn is_alone(&self, c: &Code, p: Point) -> bool
        requires p { IsPoint c.now p }
        requires parallel { IsMhp c.now self.now }
        requires form { GoodForm c.now }
        ensures { IsTrue result ↔ ((q : Point) → Parallel c.now p q → ⊥) }
    {
        match self.rows[point_number(c, p)].next_member(0) {
            None => true,
            Some(_) => false,
        }
    }
}
