//! Lines of shapes, globals, sites and variables are written.

ghost use Rattle.std.specs.Prelude.{◌≡◌, ◌++◌, ◌∷◌, [], OnOk};
ghost use Rattle.std.specs.String.{string_bytes};
ghost use Rattle.line_format.specs.Lines.{line};
ghost use Rattle.text_law.specs.ModuleText.{shape_words, global_words, site_words, var_words};
ghost use Rattle.text_law.specs.IsModule.{Is32Bits, Are32Bits, IsShape, IsGlobal, IsSite};
ghost use Rattle.tac_ir.specs.declared.code.Shape.{Shape};

use dfi_base::Memory;
use line_writer::{Line, numbers_to_end};
use tac_ir::{Global as Variable, Shape, Site};

fn array_line(text: &mut String, len: u32, item: u32) -> Result<(), Memory>
    ensures text { OnOk result (string_bytes text.new ≡ string_bytes text.old ++ line (shape_words (Shape.Array len item)) []) }
    ensures fit { OnOk result (IsShape (Shape.Array len item)) }
{
    writeln!(text, "array {len} {item}")?;
    Ok(())
}

fn struct_line(text: &mut String, parts: &[u32]) -> Result<(), Memory>
    ensures text { OnOk result (string_bytes text.new ≡ string_bytes text.old ++ line (shape_words (Shape.Struct parts.now)) []) }
    ensures fit { OnOk result (Are32Bits parts.now) }
{
    write!(text, "struct")?;
    numbers_to_end(text, " ", parts)?;
    Ok(())
}

pub(crate) struct ShapeLine;

impl Line for ShapeLine {
    type Value = Shape;

    ghost words = { shape_words };

    ghost fits = { IsShape };

    fn write(text: &mut String, value: &Shape) -> Result<(), Memory> {
        match value {
            Shape::Int => writeln!(text, "int")?,
            Shape::Ptr => writeln!(text, "ptr")?,
            Shape::Array { len, item } => array_line(text, *len, *item)?,
            Shape::Struct { parts } => struct_line(text, parts.as_slice())?,
        }
        Ok(())
    }
}

pub(crate) struct GlobalLine;

impl Line for GlobalLine {
    type Value = Variable;

    ghost words = { global_words };

    ghost fits = { IsGlobal };

    fn write(text: &mut String, value: &Variable) -> Result<(), Memory> {
        let Variable { shape, start, line } = *value;
        writeln!(text, "{shape} {start} {line}")?;
        Ok(())
    }
}

pub(crate) struct SiteLine;

impl Line for SiteLine {
    type Value = Site;

    ghost words = { site_words };

    ghost fits = { IsSite };

    fn write(text: &mut String, value: &Site) -> Result<(), Memory> {
        let Site { shape, line } = *value;
        writeln!(text, "{shape} {line}")?;
        Ok(())
    }
}

pub(crate) struct VarLine;

impl Line for VarLine {
    type Value = u32;

    ghost words = { var_words };

    ghost fits = { Is32Bits };

    fn write(text: &mut String, value: &u32) -> Result<(), Memory> {
        let shape = *value;
        writeln!(text, "var {shape}")?;
        Ok(())
    }
}
