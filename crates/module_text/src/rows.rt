//! Rows with rising keys are read.

ghost use Rattle.std.specs.Prelude.{◌≡◌, ◌<◌, ◌^◌, map, suc, [], true};
ghost use Rattle.line_format.specs.tools.Format.{read, loop};
ghost use Rattle.line_format.specs.tools.Keys.{after_pair};
ghost use Rattle.line_format.specs.tools.Rows.{row, next_row};
ghost use Rattle.line_format.specs.tools.Reads.{Reads, ReadsAs};
ghost use Rattle.line_format.specs.tools.Words.{one_of as one_format};
ghost use Rattle.line_format.specs.tools.Members.{members as members_format};
ghost use Rattle.text_law.specs.tools.Keys.{behind_key, behind_point, key as key_format, key_words, key_body, temp_key as temp_format, node_key as node_format, next_key, next_point, point_key as point_format, temps, nodes, points_rows as points_format, reach_rows as reach_format};
ghost use Rattle.text_law.specs.tools.Whole.{points, reach};

use code_reader::count;
use dfi_base::Point;
use line_format::{
    Cursor, Failure, GREATEST, key_after, members, number_and, one_of, pair_key, word,
};
use sqlite_items::Items;
use std::alloc::Global;
use tac_ir::{Key, PointsRow, ReachRow};

const KEY_WORDS: [(&str, bool); 2] = [("temp ", true), ("node ", false)];

const NODE_WORD: [(&str, bool); 1] = [("node ", false)];

/// Whether a temporary or a node comes. No temporary comes behind the last one.
fn key_word(cursor: &mut Cursor<'_>, least: (u64, u64)) -> Result<bool, Failure>
    ensures { Reads (read (one_format (key_words least)) cursor.old) result cursor.new }
{
    if least.0 <= GREATEST {
        one_of(cursor, &KEY_WORDS)
    } else {
        one_of(cursor, &NODE_WORD)
    }
}

fn node_key(cursor: &mut Cursor<'_>, least: u64, owed: u64) -> Result<Key, Failure>
    requires { least < 2 ^ 33 }
    ensures { Reads (read (node_format least owed) cursor.old) result cursor.new }
{
    let most = GREATEST.saturating_sub(owed);
    let node = number_and(cursor, b' ', least, most)?;
    Ok(Key::Node(node as u32))
}

fn temp_key(cursor: &mut Cursor<'_>, least: (u64, u64)) -> Result<Key, Failure>
    requires first { least.0 < 2 ^ 33 }
    requires second { least.1 < 2 ^ 33 }
    ensures { Reads (read (temp_format least) cursor.old) result cursor.new }
{
    let (fun, temp) = pair_key(cursor, least, 0)?;
    Ok(Key::Temp { fun, temp })
}

/// A temporary from the least on, or any node.
fn any_key(cursor: &mut Cursor<'_>, least: (u64, u64), owed: u64) -> Result<Key, Failure>
    requires first { least.0 < 2 ^ 33 }
    requires second { least.1 < 2 ^ 33 }
    ensures { Reads (read (key_format (temps least) owed) cursor.old) result cursor.new }
{
    if key_word(cursor, least)? {
        temp_key(cursor, least)
    } else {
        node_key(cursor, 0, owed)
    }
}

/// A key behind that of a temporary.
fn key_behind_temp(cursor: &mut Cursor<'_>, fun: u32, temp: u32, owed: u64) -> Result<Key, Failure>
    ensures { Reads (read (key_format (temps (after_pair (fun, temp))) owed) cursor.old) result cursor.new }
{
    any_key(cursor, key_after(fun, temp), owed)
}

/// A node from the least on.
fn node_from(cursor: &mut Cursor<'_>, least: u64, owed: u64) -> Result<Key, Failure>
    requires { least < 2 ^ 33 }
    ensures { Reads (read (key_format (nodes least) owed) cursor.old) result cursor.new }
{
    word(cursor, b"node ")?;
    node_key(cursor, least, owed)
}

/// A node behind this one.
fn key_behind_node(cursor: &mut Cursor<'_>, node: u32, owed: u64) -> Result<Key, Failure>
    ensures { Reads (read (key_format (nodes (suc node)) owed) cursor.old) result cursor.new }
{
    node_from(cursor, u64::from(node) + 1, owed)
}

fn key_behind(cursor: &mut Cursor<'_>, last: Key, owed: u64) -> Result<Key, Failure>
    ensures { Reads (read (key_format (next_key last) owed) cursor.old) result cursor.new }
{
    match last {
        Key::Temp { fun, temp } => key_behind_temp(cursor, fun, temp, owed),
        Key::Node(node) => key_behind_node(cursor, node, owed),
    }
}

fn rising_key(cursor: &mut Cursor<'_>, last: Option<Key>, owed: u64) -> Result<Key, Failure>
    ensures { Reads (read (key_format (behind_key last) owed) cursor.old) result cursor.new }
{
    match last {
        None => any_key(cursor, (0, 0), owed),
        Some(last) => key_behind(cursor, last, owed),
    }
}

#[tactic(auto, using(text_law::proofs::Instructions::spaced))]
fn row_members(alloc: Global, cursor: &mut Cursor<'_>) -> Result<Items<u32>, Failure>
    ensures { Reads (read (members_format [] 32 10 true) cursor.old) result cursor.new }
{
    members(alloc, cursor, b"", b' ', b'\n', true)
}

fn points_row(
    alloc: Global,
    cursor: &mut Cursor<'_>,
    last: Option<Key>,
    owed: u64,
) -> Result<PointsRow, Failure>
    ensures { ReadsAs (λ r. (r.key, r.nodes)) (read (row key_format next_key (behind_key last) owed) cursor.old) result cursor.new }
{
    let key = rising_key(cursor, last, owed)?;
    let nodes = row_members(alloc, cursor)?;
    Ok(PointsRow { key, nodes })
}

fn more_points(
    alloc: Global,
    cursor: &mut Cursor<'_>,
    behind: u64,
) -> Result<Items<PointsRow>, Failure>
    ensures { ReadsAs (λ rows. map (λ r. (r.key, r.nodes)) rows) (read (loop (next_row key_format next_key) ([], (temps (0, 0), behind))) cursor.old) result cursor.new }
{
    let mut found = Items::new(alloc);
    let mut last = None;
    let mut owed = behind;
    for _ in 0..cursor.left() + 1 {
        let row = points_row(alloc, cursor, last, owed)?;
        last = Some(row.key);
        found.push(row)?;
        if owed == 0 {
            return Ok(found);
        }
        owed -= 1;
    }
    Err(Failure::At(cursor.left()))
}

/// So many rows of points.
fn points_rows(
    alloc: Global,
    cursor: &mut Cursor<'_>,
    many: u64,
) -> Result<Items<PointsRow>, Failure>
    ensures { ReadsAs (λ rows. map (λ r. (r.key, r.nodes)) rows) (read (points_format many) cursor.old) result cursor.new }
{
    if many == 0 {
        Ok(Items::new(alloc))
    } else {
        more_points(alloc, cursor, many - 1)
    }
}

pub(crate) fn points(alloc: Global, cursor: &mut Cursor<'_>) -> Result<Items<PointsRow>, Failure>
    ensures { ReadsAs (λ rows. map (λ r. (r.key, r.nodes)) rows) (read points cursor.old) result cursor.new }
{
    let many = count(cursor, b"points ")?;
    points_rows(alloc, cursor, u64::from(many))
}

/// The least point that may come behind the last one.
fn least_point(last: Option<Point>) -> (u64, u64)
    ensures answer { result ≡ behind_point last }
    ensures first { result.0 < 2 ^ 33 }
    ensures second { result.1 < 2 ^ 33 }
{
    match last {
        None => (0, 0),
        Some(point) => key_after(point.fun, point.at),
    }
}

/// A point from the least on.
fn point_from(cursor: &mut Cursor<'_>, least: (u64, u64), owed: u64) -> Result<Point, Failure>
    requires first { least.0 < 2 ^ 33 }
    requires second { least.1 < 2 ^ 33 }
    requires owed { owed < 2 ^ 33 }
    ensures { Reads (read (point_format least owed) cursor.old) result cursor.new }
{
    word(cursor, b"at ")?;
    let (fun, at) = pair_key(cursor, least, owed)?;
    Ok(Point { fun, at })
}

fn point_key(cursor: &mut Cursor<'_>, last: Option<Point>, owed: u64) -> Result<Point, Failure>
    requires { owed < 2 ^ 33 }
    ensures { Reads (read (point_format (behind_point last) owed) cursor.old) result cursor.new }
{
    point_from(cursor, least_point(last), owed)
}

fn reach_row(
    alloc: Global,
    cursor: &mut Cursor<'_>,
    last: Option<Point>,
    owed: u64,
) -> Result<ReachRow, Failure>
    requires { owed < 2 ^ 33 }
    ensures { ReadsAs (λ r. (r.point, r.facts)) (read (row point_format next_point (behind_point last) owed) cursor.old) result cursor.new }
{
    let point = point_key(cursor, last, owed)?;
    let facts = row_members(alloc, cursor)?;
    Ok(ReachRow { point, facts })
}

fn more_reach(
    alloc: Global,
    cursor: &mut Cursor<'_>,
    behind: u64,
) -> Result<Items<ReachRow>, Failure>
    requires { behind < 2 ^ 32 }
    ensures { ReadsAs (λ rows. map (λ r. (r.point, r.facts)) rows) (read (loop (next_row point_format next_point) ([], ((0, 0), behind))) cursor.old) result cursor.new }
{
    let mut found = Items::new(alloc);
    let mut last = None;
    let mut owed = behind;
    for _ in 0..cursor.left() + 1 {
        let row = reach_row(alloc, cursor, last, owed)?;
        last = Some(row.point);
        found.push(row)?;
        if owed == 0 {
            return Ok(found);
        }
        owed -= 1;
    }
    Err(Failure::At(cursor.left()))
}

/// So many rows of reach.
fn reach_rows(alloc: Global, cursor: &mut Cursor<'_>, many: u32) -> Result<Items<ReachRow>, Failure>
    ensures { ReadsAs (λ rows. map (λ r. (r.point, r.facts)) rows) (read (reach_format many) cursor.old) result cursor.new }
{
    if many == 0 {
        Ok(Items::new(alloc))
    } else {
        more_reach(alloc, cursor, u64::from(many) - 1)
    }
}

pub(crate) fn reach(alloc: Global, cursor: &mut Cursor<'_>) -> Result<Items<ReachRow>, Failure>
    ensures { ReadsAs (λ rows. map (λ r. (r.point, r.facts)) rows) (read reach cursor.old) result cursor.new }
{
    let many = count(cursor, b"reach ")?;
    reach_rows(alloc, cursor, many)
}
