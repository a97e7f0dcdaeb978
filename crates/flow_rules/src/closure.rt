ghost use Rattle.std.specs.Prelude.{◌≡◌, ◌↔◌, ◌<◌, ℕ, IsTrue, length};
ghost use Rattle.dfi_base.specs.declared.numbers.Point.{Point};
ghost use Rattle.tac_ir.specs.GoodForm.{GoodForm};
ghost use Rattle.tac_ir.specs.GoodModule.{IsPoint};
ghost use Rattle.flow_rules.specs.FirstOpen.{IsTold};
ghost use Rattle.flow_rules.specs.IsMhp.{IsMhp};
ghost use Rattle.flow_rules.specs.PointNumber.{entry};
ghost use Rattle.flow_rules.specs.PointsClosed.{PointsClosedAt};
ghost use Rattle.flow_rules.specs.ReachClosed.{ReachClosedAt};
ghost use Rattle.flow_rules.specs.ReachRows.{ArePointsOf, IsReachOf, reach_rows};
ghost use Rattle.flow_rules.specs.Tables.{points_by};
ghost use Rattle.flow_rules.specs.Touches.{touches};
ghost use Rattle.flow_rules.specs.tools.ReachRules.{HasRows, StartsHold};
ghost use Rattle.flow_rules.specs.tools.Scan.{IsFound, IsOpenIn};

use crate::flows::{edges_hold, starts_hold};
use crate::joins::joins_hold;
use crate::kills::killed_at;
use crate::mhp::Mhp;
use crate::point_rules::points_hold;
use crate::points::lines_of;
use crate::rule::{Broken, Rule};
use dfi_base::Point;
use tac_ir::{Code, Points, Reach};

/// Whether tables are closed under the rules of points, and under those of reach. If not, the first rule that is open is told, and
/// the first point at which it is.
pub fn closed(c: &Code, p: &Points, m: &Mhp, r: &Reach) -> Result<(), Broken>
    requires form { GoodForm c.now }
    requires points { ArePointsOf c.now p.now.rows }
    requires parallel { IsMhp c.now m.now }
    requires reach { IsReachOf c.now p.now.rows r.now }
    ensures { IsTold c.now p.now.rows (reach_rows c.now r.now) result }
{
    if let Some(point) = open_for_points(c, p) {
        return Err(Broken {
            rule: Rule::Points,
            point,
        });
    }
    if let Some(point) = open_for_reach(c, p, m, r) {
        return Err(Broken {
            rule: Rule::Reach,
            point,
        });
    }
    Ok(())
}

// The first point at which a rule of points is open.
fn open_for_points(c: &Code, p: &Points) -> Option<Point>
    requires form { GoodForm c.now }
    requires points { ArePointsOf c.now p.now.rows }
    ensures { IsFound c.now (PointsClosedAt c.now (touches c.now p.now.rows) (points_by p.now.rows)) result }
{
    for fun in 0..c.funs.len() as u32 {
        if let Some(at) = open_for_points_in(c, p, fun) {
            return Some(Point { fun, at });
        }
    }
    None
}

fn open_for_points_in(c: &Code, p: &Points, fun: u32) -> Option<u32>
    requires form { GoodForm c.now }
    requires points { ArePointsOf c.now p.now.rows }
    ensures { IsOpenIn c.now (PointsClosedAt c.now (touches c.now p.now.rows) (points_by p.now.rows)) fun result }
{
    for at in 0..lines_of(c, fun).len() as u32 {
        if !points_hold(c, p, Point { fun, at }) {
            return Some(at);
        }
    }
    None
}

// The first point at which a rule of reach is open.
fn open_for_reach(c: &Code, p: &Points, m: &Mhp, r: &Reach) -> Option<Point>
    requires form { GoodForm c.now }
    requires points { ArePointsOf c.now p.now.rows }
    requires parallel { IsMhp c.now m.now }
    requires reach { IsReachOf c.now p.now.rows r.now }
    ensures { IsFound c.now (λ q. (a : ℕ) → ReachClosedAt c.now (touches c.now p.now.rows) (reach_rows c.now r.now) a q) result }
{
    for fun in 0..c.funs.len() as u32 {
        if let Some(at) = open_for_reach_in(c, p, m, r, fun) {
            return Some(Point { fun, at });
        }
    }
    None
}

fn open_for_reach_in(c: &Code, p: &Points, m: &Mhp, r: &Reach, fun: u32) -> Option<u32>
    requires form { GoodForm c.now }
    requires points { ArePointsOf c.now p.now.rows }
    requires parallel { IsMhp c.now m.now }
    requires reach { IsReachOf c.now p.now.rows r.now }
    ensures { IsOpenIn c.now (λ q. (a : ℕ) → ReachClosedAt c.now (touches c.now p.now.rows) (reach_rows c.now r.now) a q) fun result }
{
    for at in 0..lines_of(c, fun).len() as u32 {
        if !reach_holds(c, p, m, r, Point { fun, at }) {
            return Some(at);
        }
    }
    None
}

// Whether the rules of reach hold at a point.
fn reach_holds(c: &Code, points: &Points, m: &Mhp, r: &Reach, p: Point) -> bool
    requires form { GoodForm c.now }
    requires points { ArePointsOf c.now points.now.rows }
    requires parallel { IsMhp c.now m.now }
    requires reach { IsReachOf c.now points.now.rows r.now }
    requires point { IsPoint c.now p }
    ensures { IsTrue result ↔ ((a : ℕ) → ReachClosedAt c.now (touches c.now points.now.rows) (reach_rows c.now r.now) a p) }
{
    let begun = begins_well(c, r, p);
    let led = edges_hold(c, r, killed_at(c, m, p), p);
    let joined = joins_hold(c, r, p);
    begun & led & joined
}

fn begins_well(c: &Code, r: &Reach, p: Point) -> bool
    requires form { GoodForm c.now }
    requires rows { HasRows c.now r.now }
    requires point { IsPoint c.now p }
    ensures { IsTrue result ↔ (p ≡ entry c.now.main → StartsHold c.now r.now p (length r.now.facts.pairs)) }
{
    p.fun != c.main || p.at != 0 || starts_hold(c, r, p)
}
