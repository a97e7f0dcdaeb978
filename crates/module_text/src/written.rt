//! Tables are written.

ghost use Rattle.std.specs.Prelude.{◌≡◌, ◌++◌, ◌∷◌, [], codes, map, length, OnOk, IfErr};
ghost use Rattle.std.specs.Fmt.{decimal};
ghost use Rattle.std.specs.String.{string_bytes};
ghost use Rattle.tac_ir.specs.declared.module.Key.{Key};
ghost use Rattle.line_format.specs.Lines.{line, lines};
ghost use Rattle.line_writer.specs.Writes.{Writes, Passes};
ghost use Rattle.line_writer.specs.declared.fault.WriteFault.{WriteFault};
ghost use Rattle.text_law.specs.IsModule.{Is32Bits, Are32Bits, Counted, IsKey, IsPointsRow, IsReachRow};
ghost use Rattle.text_law.specs.ModuleText.{class_words, key_words, points_words, reach_words, check_word as check_text, set_words, beside, section as section_text};

use dfi_base::Memory;
use line_writer::{Line, WriteFault, count, numbers_to_end, section, within_limit};
use sqlite_items::Items;
use tac_ir::{Key, PointsRow, ReachRow};

struct ClassLine;

impl Line for ClassLine {
    type Value = u32;

    ghost words = { class_words };

    ghost fits = { Is32Bits };

    fn write(text: &mut String, value: &u32) -> Result<(), Memory> {
        let class = *value;
        writeln!(text, "class {class}")?;
        Ok(())
    }
}

fn temp_row(text: &mut String, fun: u32, temp: u32, nodes: &[u32]) -> Result<(), Memory>
    ensures text { OnOk result (string_bytes text.new ≡ string_bytes text.old ++ line (key_words (Key.Temp fun temp) (map decimal nodes.now)) []) }
    ensures fit { OnOk result (IsKey (Key.Temp fun temp) × Are32Bits nodes.now) }
{
    write!(text, "temp {fun} {temp}")?;
    numbers_to_end(text, " ", nodes)?;
    Ok(())
}

fn node_row(text: &mut String, node: u32, nodes: &[u32]) -> Result<(), Memory>
    ensures text { OnOk result (string_bytes text.new ≡ string_bytes text.old ++ line (key_words (Key.Node node) (map decimal nodes.now)) []) }
    ensures fit { OnOk result (IsKey (Key.Node node) × Are32Bits nodes.now) }
{
    write!(text, "node {node}")?;
    numbers_to_end(text, " ", nodes)?;
    Ok(())
}

struct PointsLine;

impl Line for PointsLine {
    type Value = PointsRow;

    ghost words = { points_words };

    ghost fits = { IsPointsRow };

    fn write(text: &mut String, value: &PointsRow) -> Result<(), Memory> {
        match value.key {
            Key::Temp { fun, temp } => temp_row(text, fun, temp, value.nodes.as_slice()),
            Key::Node(node) => node_row(text, node, value.nodes.as_slice()),
        }
    }
}

fn point_row(text: &mut String, fun: u32, at: u32, facts: &[u32]) -> Result<(), Memory>
    ensures text { OnOk result (string_bytes text.new ≡ string_bytes text.old ++ line (codes "at" ∷ decimal fun ∷ decimal at ∷ map decimal facts.now) []) }
    ensures fit { OnOk result ((Is32Bits fun × Is32Bits at) × Are32Bits facts.now) }
{
    write!(text, "at {fun} {at}")?;
    numbers_to_end(text, " ", facts)?;
    Ok(())
}

struct ReachLine;

impl Line for ReachLine {
    type Value = ReachRow;

    ghost words = { reach_words };

    ghost fits = { IsReachRow };

    fn write(text: &mut String, value: &ReachRow) -> Result<(), Memory> {
        point_row(
            text,
            value.point.fun,
            value.point.at,
            value.facts.as_slice(),
        )
    }
}

fn check_word(removed: bool) -> &'static str
    ensures { result.now ≡ check_text removed }
{
    if removed { "removed" } else { "checked" }
}

/// The mark of a read, and its set.
fn set(text: &mut String, removed: bool, members: &[u32]) -> Result<(), Memory>
    ensures text { OnOk result (string_bytes text.new ≡ string_bytes text.old ++ line (set_words (removed, members.now)) []) }
    ensures fit { OnOk result (Are32Bits members.now) }
{
    let word = check_word(removed);
    write!(text, "{word}")?;
    numbers_to_end(text, " ", members)?;
    Ok(())
}

/// A line for each mark and its set.
fn set_lines(text: &mut String, removed: &[bool], sets: &[Items<u32>]) -> Result<(), WriteFault>
    requires { length removed.now ≡ length sets.now }
    ensures text { OnOk result (Writes (lines set_words (beside removed.now sets.now)) (string_bytes text.old) (string_bytes text.new)) }
    ensures long { IfErr result (λ fault. fault ≡ WriteFault.Long → Passes (lines set_words (beside removed.now sets.now)) (string_bytes text.old)) }
    ensures fit { OnOk result (Counted Are32Bits sets.now) }
{
    for at in 0..sets.len() {
        set(text, removed[at], sets[at].as_slice())?;
        within_limit(text)?;
    }
    Ok(())
}

/// How many marks and sets there are, and they.
pub(crate) fn sets(
    text: &mut String,
    removed: &[bool],
    sets: &[Items<u32>],
) -> Result<(), WriteFault>
    requires { length removed.now ≡ length sets.now }
    ensures text { OnOk result (Writes (section_text (codes "reads") set_words (beside removed.now sets.now)) (string_bytes text.old) (string_bytes text.new)) }
    ensures long { IfErr result (λ fault. fault ≡ WriteFault.Long → Passes (section_text (codes "reads") set_words (beside removed.now sets.now)) (string_bytes text.old)) }
    ensures fit { OnOk result (Counted Are32Bits sets.now) }
{
    count(text, "reads", sets.len())?;
    set_lines(text, removed, sets)
}

/// The class of each definition.
pub(crate) fn classes(text: &mut String, rows: &[u32]) -> Result<(), WriteFault>
    ensures text { OnOk result (Writes (section_text (codes "definitions") class_words rows.now) (string_bytes text.old) (string_bytes text.new)) }
    ensures long { IfErr result (λ fault. fault ≡ WriteFault.Long → Passes (section_text (codes "definitions") class_words rows.now) (string_bytes text.old)) }
    ensures fit { OnOk result (Counted Is32Bits rows.now) }
{
    section::<ClassLine>(text, "definitions", rows)
}

/// What each temporary and node may point to.
pub(crate) fn points(text: &mut String, rows: &[PointsRow]) -> Result<(), WriteFault>
    ensures text { OnOk result (Writes (section_text (codes "points") points_words rows.now) (string_bytes text.old) (string_bytes text.new)) }
    ensures long { IfErr result (λ fault. fault ≡ WriteFault.Long → Passes (section_text (codes "points") points_words rows.now) (string_bytes text.old)) }
    ensures fit { OnOk result (Counted IsPointsRow rows.now) }
{
    section::<PointsLine>(text, "points", rows)
}

/// The facts that reach each point.
pub(crate) fn reach(text: &mut String, rows: &[ReachRow]) -> Result<(), WriteFault>
    ensures text { OnOk result (Writes (section_text (codes "reach") reach_words rows.now) (string_bytes text.old) (string_bytes text.new)) }
    ensures long { IfErr result (λ fault. fault ≡ WriteFault.Long → Passes (section_text (codes "reach") reach_words rows.now) (string_bytes text.old)) }
    ensures fit { OnOk result (Counted IsReachRow rows.now) }
{
    section::<ReachLine>(text, "reach", rows)
}
