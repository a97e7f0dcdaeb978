//! A module is read.

ghost use Rattle.std.specs.Prelude.{◌≡◌, map, length, IfOk};
ghost use Rattle.tac_ir.specs.Module.{IsOrdered};
ghost use Rattle.line_format.specs.tools.Format.{read};
ghost use Rattle.line_format.specs.tools.Reads.{Reads, ReadsAs};
ghost use Rattle.text_law.specs.ModuleText.{beside};
ghost use Rattle.text_law.specs.tools.Instrs.{pair};
ghost use Rattle.text_law.specs.tools.Parts.{code as code_format};
ghost use Rattle.text_law.specs.tools.Whole.{parts, tables as tables_format, whole};
ghost use Rattle.module_text.specs.Reading.{IsTold};

use crate::fault::TextFault;
use crate::tables::{Findings, all_tables};
use crate::words::first_line;
use code_reader::code_sections;
use line_format::{Cursor, Failure, word};
use sqlite_items::Items;
use std::alloc::Global;
use tac_ir::{Classes, Code, Module, Points, Sets, Size};

fn with_findings(size: Size, code: Code, classes: Items<u32>, findings: Findings) -> Module
    requires { IsOrdered findings.sets findings.removed findings.points findings.reach }
    ensures { result ≡ record { size = size; code = code; classes = classes; sets = findings.sets; removed = findings.removed; points = findings.points; reach = findings.reach } }
{
    Module {
        size,
        code,
        classes: Classes { list: classes },
        sets: Sets {
            lists: findings.sets,
        },
        removed: findings.removed,
        points: Points {
            rows: findings.points,
        },
        reach: findings.reach,
    }
}

/// The code and the tables.
fn code_and_tables(
    alloc: Global,
    cursor: &mut Cursor<'_>,
) -> Result<(Code, (Items<u32>, Findings)), Failure>
    ensures answer { ReadsAs (λ t. (t.0, (t.1.0, (beside t.1.1.removed t.1.1.sets, (map (λ r. (r.key, r.nodes)) t.1.1.points, map (λ r. (r.point, r.facts)) t.1.1.reach))))) (read (pair code_format tables_format) cursor.old) result cursor.new }
    ensures even { IfOk result (λ t. length t.1.1.removed ≡ length t.1.1.sets) }
{
    let code = code_sections(alloc, cursor)?;
    let tables = all_tables(alloc, cursor)?;
    Ok((code, tables))
}

/// All but the last line.
fn all_parts(
    alloc: Global,
    cursor: &mut Cursor<'_>,
) -> Result<(Size, (Code, (Items<u32>, Findings))), Failure>
    ensures answer { ReadsAs (λ t. (t.0, (t.1.0, (t.1.1.0, (beside t.1.1.1.removed t.1.1.1.sets, (map (λ r. (r.key, r.nodes)) t.1.1.1.points, map (λ r. (r.point, r.facts)) t.1.1.1.reach)))))) (read parts cursor.old) result cursor.new }
    ensures even { IfOk result (λ t. length t.1.1.1.removed ≡ length t.1.1.1.sets) }
{
    let size = first_line(cursor)?;
    let rest = code_and_tables(alloc, cursor)?;
    Ok((size, rest))
}

fn whole_module(alloc: Global, cursor: &mut Cursor<'_>) -> Result<Module, Failure>
    ensures { Reads (read whole cursor.old) result cursor.new }
{
    let (size, (code, (classes, findings))) = all_parts(alloc, cursor)?;
    word(cursor, b"end\n")?;
    Ok(with_findings(size, code, classes, findings))
}

/// A text of the new kinds: its module, or its first fault.
pub(crate) fn read_text(alloc: Global, bytes: &[u8]) -> Result<Module, TextFault>
    ensures { IsTold bytes.now result }
{
    let mut cursor = Cursor::new(bytes);
    match whole_module(alloc, &mut cursor) {
        Ok(module) => {
            let left = cursor.left();
            if left == 0 {
                Ok(module)
            } else {
                Err(TextFault::At {
                    at: bytes.len() as u64 - left,
                })
            }
        }
        Err(Failure::At(left)) => Err(TextFault::At {
            at: bytes.len() as u64 - left,
        }),
        Err(Failure::Memory) => Err(TextFault::Memory),
    }
}
