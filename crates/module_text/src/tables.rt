//! The tables of a module are read.

ghost use Rattle.std.specs.Prelude.{◌≡◌, codes, map, length, [], IfOk};
ghost use Rattle.line_format.specs.tools.Format.{read, loop};
ghost use Rattle.line_format.specs.tools.Times.{next_one, times as times_format};
ghost use Rattle.line_format.specs.tools.Reads.{Reads, ReadsAs};
ghost use Rattle.text_law.specs.ModuleText.{beside};
ghost use Rattle.text_law.specs.tools.Instrs.{pair};
ghost use Rattle.text_law.specs.tools.Parts.{set as set_format, class as class_format, section as section_format};
ghost use Rattle.text_law.specs.tools.Whole.{points as points_format, reach as reach_format, tables as tables_format};

use crate::rows::{points, reach};
use crate::words::check_word;
use code_reader::{count, section};
use line_format::{Cursor, Failure, Part, any_members};
use sqlite_items::Items;
use std::alloc::Global;
use tac_ir::{PointsRow, ReachRow};

/// What was found out about the code, but for the classes.
#[derive(Drop)]
pub(crate) struct Findings {
    pub removed: Items<bool>,
    pub sets: Items<Items<u32>>,
    pub points: Items<PointsRow>,
    pub reach: Items<ReachRow>,
}

/// The lines of classes.
struct ClassLine;

impl Part for ClassLine {
    type Value = u32;

    ghost format = { class_format };

    fn read(_alloc: Global, cursor: &mut Cursor<'_>) -> Result<u32, Failure> {
        count(cursor, b"class ")
    }
}

/// The mark of a read, and its set.
#[tactic(auto, using(text_law::proofs::Instructions::spaced))]
fn set(alloc: Global, cursor: &mut Cursor<'_>) -> Result<(bool, Items<u32>), Failure>
    ensures { Reads (read set_format cursor.old) result cursor.new }
{
    let removed = check_word(cursor)?;
    let members = any_members(alloc, cursor, b"", b' ', b'\n', true)?;
    Ok((removed, members))
}

/// One, and as many as are owed behind it.
fn more_sets(
    alloc: Global,
    cursor: &mut Cursor<'_>,
    behind: u64,
) -> Result<(Items<bool>, Items<Items<u32>>), Failure>
    ensures answer { ReadsAs (λ p. beside p.0 p.1) (read (loop (next_one set_format) ([], behind)) cursor.old) result cursor.new }
    ensures even { IfOk result (λ p. length p.0 ≡ length p.1) }
{
    let mut removed = Items::new(alloc);
    let mut sets = Items::new(alloc);
    let mut owed = behind;
    for _ in 0..cursor.left() + 1 {
        let (mark, members) = set(alloc, cursor)?;
        removed.push(mark)?;
        sets.push(members)?;
        if owed == 0 {
            return Ok((removed, sets));
        }
        owed -= 1;
    }
    Err(Failure::At(cursor.left()))
}

/// So many.
fn many_sets(
    alloc: Global,
    cursor: &mut Cursor<'_>,
    many: u32,
) -> Result<(Items<bool>, Items<Items<u32>>), Failure>
    ensures answer { ReadsAs (λ p. beside p.0 p.1) (read (times_format set_format many) cursor.old) result cursor.new }
    ensures even { IfOk result (λ p. length p.0 ≡ length p.1) }
{
    if many == 0 {
        Ok((Items::new(alloc), Items::new(alloc)))
    } else {
        more_sets(alloc, cursor, u64::from(many) - 1)
    }
}

fn all_sets(
    alloc: Global,
    cursor: &mut Cursor<'_>,
) -> Result<(Items<bool>, Items<Items<u32>>), Failure>
    ensures answer { ReadsAs (λ p. beside p.0 p.1) (read (section_format (codes "reads ") set_format) cursor.old) result cursor.new }
    ensures even { IfOk result (λ p. length p.0 ≡ length p.1) }
{
    let many = count(cursor, b"reads ")?;
    many_sets(alloc, cursor, many)
}

/// The rows of points, and those of reach.
fn all_rows(
    alloc: Global,
    cursor: &mut Cursor<'_>,
) -> Result<(Items<PointsRow>, Items<ReachRow>), Failure>
    ensures { ReadsAs (λ p. (map (λ r. (r.key, r.nodes)) p.0, map (λ r. (r.point, r.facts)) p.1)) (read (pair points_format reach_format) cursor.old) result cursor.new }
{
    let points = points(alloc, cursor)?;
    let reach = reach(alloc, cursor)?;
    Ok((points, reach))
}

/// The sets with their marks, and the rows.
fn sets_and_rows(alloc: Global, cursor: &mut Cursor<'_>) -> Result<Findings, Failure>
    ensures answer { ReadsAs (λ f. (beside f.removed f.sets, (map (λ r. (r.key, r.nodes)) f.points, map (λ r. (r.point, r.facts)) f.reach))) (read (pair (section_format (codes "reads ") set_format) (pair points_format reach_format)) cursor.old) result cursor.new }
    ensures even { IfOk result (λ f. length f.removed ≡ length f.sets) }
{
    let (removed, sets) = all_sets(alloc, cursor)?;
    let (points, reach) = all_rows(alloc, cursor)?;
    Ok(Findings {
        removed,
        sets,
        points,
        reach,
    })
}

/// The classes, and what else was found out.
pub(crate) fn all_tables(
    alloc: Global,
    cursor: &mut Cursor<'_>,
) -> Result<(Items<u32>, Findings), Failure>
    ensures answer { ReadsAs (λ t. (t.0, (beside t.1.removed t.1.sets, (map (λ r. (r.key, r.nodes)) t.1.points, map (λ r. (r.point, r.facts)) t.1.reach)))) (read tables_format cursor.old) result cursor.new }
    ensures even { IfOk result (λ t. length t.1.removed ≡ length t.1.sets) }
{
    let classes = section::<ClassLine>(alloc, cursor, b"definitions ")?;
    let findings = sets_and_rows(alloc, cursor)?;
    Ok((classes, findings))
}
