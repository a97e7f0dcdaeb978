//! Words of operators.

ghost use Rattle.std.specs.Prelude.{◌≡◌};
ghost use Rattle.text_law.specs.ModuleText.{un_word as un_spec, bin_word as bin_spec, bin_name as name_spec, equality as equality_spec};

use tac_ir::{BinOp, UnOp};

pub(crate) fn un_word(op: UnOp) -> &'static str
    ensures { result.now ≡ un_spec op }
{
    match op {
        UnOp::Neg => "neg",
        UnOp::Not => "not",
        UnOp::Com => "com",
    }
}

pub(crate) fn bin_word(op: BinOp) -> &'static str
    ensures { result.now ≡ bin_spec op }
{
    match op {
        BinOp::Add => "add",
        BinOp::Sub => "sub",
        BinOp::Mul => "mul",
        BinOp::And => "and",
        BinOp::Or => "or",
        BinOp::Xor => "xor",
        BinOp::Shl => "shl",
        BinOp::Shr => "shr",
        BinOp::Lt => "lt",
        BinOp::Gt => "gt",
        BinOp::Le => "le",
        BinOp::Ge => "ge",
        BinOp::Eq => "eq",
        BinOp::Ne => "ne",
        BinOp::Quo => "quo",
        BinOp::Rem => "rem",
    }
}

/// A quotient and a remainder have a word of their own.
pub(crate) fn bin_name(op: BinOp) -> &'static str
    ensures { result.now ≡ name_spec op }
{
    match op {
        BinOp::Quo | BinOp::Rem => "div",
        _ => "bin",
    }
}

pub(crate) fn equality(ne: bool) -> &'static str
    ensures { result.now ≡ equality_spec ne }
{
    if ne { "ne" } else { "eq" }
}
