//! Words of instructions and shapes, each with the byte that ends it.

ghost use Rattle.std.specs.Prelude.{◌≡◌};
ghost use Rattle.line_format.specs.tools.Format.{read};
ghost use Rattle.line_format.specs.tools.Words.{one_of as one_format};
ghost use Rattle.line_format.specs.tools.Reads.{Reads};
ghost use Rattle.text_law.specs.tools.Opcodes.{opcodes, un_words, bin_words, div_words, equalities, place_words};
ghost use Rattle.text_law.specs.tools.Parts.{shape_words};

use line_format::{Cursor, Failure, one_of};
use tac_ir::{BinOp, UnOp};
use text_law::{Opcode, ShapeWord};

const OPCODES: [(&str, Opcode); 26] = [
    ("const ", Opcode::Const),
    ("null ", Opcode::Null),
    ("un ", Opcode::Un),
    ("bin ", Opcode::Bin),
    ("div ", Opcode::Div),
    ("addr ", Opcode::Addr),
    ("field ", Opcode::Field),
    ("decay ", Opcode::Decay),
    ("index ", Opcode::Index),
    ("get ", Opcode::Get),
    ("load ", Opcode::Load),
    ("set ", Opcode::Set),
    ("store ", Opcode::Store),
    ("same ", Opcode::Same),
    ("new ", Opcode::New),
    ("free ", Opcode::Free),
    ("in ", Opcode::In),
    ("left ", Opcode::Left),
    ("out ", Opcode::Out),
    ("call ", Opcode::Call),
    ("ret ", Opcode::Ret),
    ("jump ", Opcode::Jump),
    ("test ", Opcode::Test),
    ("turn\n", Opcode::Turn),
    ("fork ", Opcode::Fork),
    ("end\n", Opcode::End),
];

const UN_WORDS: [(&str, UnOp); 3] = [
    ("neg ", UnOp::Neg),
    ("not ", UnOp::Not),
    ("com ", UnOp::Com),
];

const BIN_WORDS: [(&str, BinOp); 14] = [
    ("add ", BinOp::Add),
    ("sub ", BinOp::Sub),
    ("mul ", BinOp::Mul),
    ("and ", BinOp::And),
    ("or ", BinOp::Or),
    ("xor ", BinOp::Xor),
    ("shl ", BinOp::Shl),
    ("shr ", BinOp::Shr),
    ("lt ", BinOp::Lt),
    ("gt ", BinOp::Gt),
    ("le ", BinOp::Le),
    ("ge ", BinOp::Ge),
    ("eq ", BinOp::Eq),
    ("ne ", BinOp::Ne),
];

const DIV_WORDS: [(&str, BinOp); 2] = [("quo ", BinOp::Quo), ("rem ", BinOp::Rem)];

const EQUALITIES: [(&str, bool); 2] = [("eq ", false), ("ne ", true)];

const PLACE_WORDS: [(&str, bool); 2] = [("g", true), ("l", false)];

const SHAPE_WORDS: [(&str, ShapeWord); 4] = [
    ("int\n", ShapeWord::Int),
    ("ptr\n", ShapeWord::Ptr),
    ("array ", ShapeWord::Array),
    ("struct", ShapeWord::Struct),
];

pub(crate) fn instr_word(cursor: &mut Cursor<'_>) -> Result<Opcode, Failure>
    ensures { Reads (read (one_format opcodes) cursor.old) result cursor.new }
{
    one_of(cursor, &OPCODES)
}

pub(crate) fn un_op(cursor: &mut Cursor<'_>) -> Result<UnOp, Failure>
    ensures { Reads (read (one_format un_words) cursor.old) result cursor.new }
{
    one_of(cursor, &UN_WORDS)
}

pub(crate) fn bin_op(cursor: &mut Cursor<'_>) -> Result<BinOp, Failure>
    ensures { Reads (read (one_format bin_words) cursor.old) result cursor.new }
{
    one_of(cursor, &BIN_WORDS)
}

pub(crate) fn div_op(cursor: &mut Cursor<'_>) -> Result<BinOp, Failure>
    ensures { Reads (read (one_format div_words) cursor.old) result cursor.new }
{
    one_of(cursor, &DIV_WORDS)
}

/// Whether it is `ne`.
pub(crate) fn equality(cursor: &mut Cursor<'_>) -> Result<bool, Failure>
    ensures { Reads (read (one_format equalities) cursor.old) result cursor.new }
{
    one_of(cursor, &EQUALITIES)
}

/// Whether the place is a global's.
pub(crate) fn place_word(cursor: &mut Cursor<'_>) -> Result<bool, Failure>
    ensures { Reads (read (one_format place_words) cursor.old) result cursor.new }
{
    one_of(cursor, &PLACE_WORDS)
}

pub(crate) fn shape_word(cursor: &mut Cursor<'_>) -> Result<ShapeWord, Failure>
    ensures { Reads (read (one_format shape_words) cursor.old) result cursor.new }
{
    one_of(cursor, &SHAPE_WORDS)
}
