//! Which operator a token is.

ghost use Rattle.std.specs.Prelude.{◌≡◌};
ghost use Rattle.c_parse.specs.Operators as spec;
ghost use Rattle.c_parse.specs.tools.ExprParser as exprs;

use c_ast::{AssignOp, BinaryOp, UnaryOp};
use c_lex::{Kind, Mark};

/// The levels of the operators between two operands.
#[derive(Clone, Copy, PartialEq, Eq)]
pub enum Tier {
    LogicalOr,
    LogicalAnd,
    BitwiseOr,
    BitwiseXor,
    BitwiseAnd,
    Equality,
    Relational,
    Shift,
    Additive,
    Multiplicative,
}

/// The tiers, lowest first.
pub const TIERS: [Tier; 10] = [
    Tier::LogicalOr,
    Tier::LogicalAnd,
    Tier::BitwiseOr,
    Tier::BitwiseXor,
    Tier::BitwiseAnd,
    Tier::Equality,
    Tier::Relational,
    Tier::Shift,
    Tier::Additive,
    Tier::Multiplicative,
];

/// Before an operand.
pub fn unary_op(mark: Mark) -> Option<UnaryOp>
    ensures { result ≡ spec.unary_op mark }
{
    match mark {
        Mark::Minus => Some(UnaryOp::Minus),
        Mark::Plus => Some(UnaryOp::Plus),
        Mark::Not => Some(UnaryOp::Not),
        Mark::Tilde => Some(UnaryOp::Complement),
        Mark::Star => Some(UnaryOp::Deref),
        Mark::And => Some(UnaryOp::Address),
        _ => None,
    }
}

/// Between two operands, with its level.
pub fn binary_op(mark: Mark) -> Option<(Tier, BinaryOp)>
    ensures { result ≡ spec.binary_op mark }
{
    match mark {
        Mark::OrOr => Some((Tier::LogicalOr, BinaryOp::Or)),
        Mark::AndAnd => Some((Tier::LogicalAnd, BinaryOp::And)),
        Mark::Or => Some((Tier::BitwiseOr, BinaryOp::BitOr)),
        Mark::Xor => Some((Tier::BitwiseXor, BinaryOp::BitXor)),
        Mark::And => Some((Tier::BitwiseAnd, BinaryOp::BitAnd)),
        Mark::Equal => Some((Tier::Equality, BinaryOp::Equal)),
        Mark::NotEqual => Some((Tier::Equality, BinaryOp::NotEqual)),
        Mark::Less => Some((Tier::Relational, BinaryOp::Less)),
        Mark::Greater => Some((Tier::Relational, BinaryOp::Greater)),
        Mark::LessEqual => Some((Tier::Relational, BinaryOp::LessEqual)),
        Mark::GreaterEqual => Some((Tier::Relational, BinaryOp::GreaterEqual)),
        Mark::ShiftLeft => Some((Tier::Shift, BinaryOp::ShiftLeft)),
        Mark::ShiftRight => Some((Tier::Shift, BinaryOp::ShiftRight)),
        Mark::Plus => Some((Tier::Additive, BinaryOp::Add)),
        Mark::Minus => Some((Tier::Additive, BinaryOp::Sub)),
        Mark::Star => Some((Tier::Multiplicative, BinaryOp::Mul)),
        Mark::Slash => Some((Tier::Multiplicative, BinaryOp::Div)),
        Mark::Percent => Some((Tier::Multiplicative, BinaryOp::Rem)),
        _ => None,
    }
}

/// Where the token is an operator of this tier.
pub fn binary_in(tier: Tier, kind: Option<Kind>) -> Option<BinaryOp>
    ensures { result ≡ exprs.binary_in tier kind }
{
    match kind {
        Some(Kind::Mark(mark)) => match binary_op(mark) {
            Some((found, op)) if found == tier => Some(op),
            _ => None,
        },
        _ => None,
    }
}

pub fn is_binary(tier: Tier, kind: Option<Kind>) -> bool
    ensures { result ≡ exprs.is_binary tier kind }
{
    binary_in(tier, kind).is_some()
}

pub fn assign_op(mark: Mark) -> Option<AssignOp>
    ensures { result ≡ spec.assign_op mark }
{
    match mark {
        Mark::Assign => Some(AssignOp::Plain),
        Mark::PlusAssign => Some(AssignOp::Add),
        Mark::MinusAssign => Some(AssignOp::Sub),
        Mark::StarAssign => Some(AssignOp::Mul),
        Mark::SlashAssign => Some(AssignOp::Div),
        Mark::PercentAssign => Some(AssignOp::Rem),
        Mark::AndAssign => Some(AssignOp::BitAnd),
        Mark::OrAssign => Some(AssignOp::BitOr),
        Mark::XorAssign => Some(AssignOp::BitXor),
        Mark::ShiftLeftAssign => Some(AssignOp::ShiftLeft),
        Mark::ShiftRightAssign => Some(AssignOp::ShiftRight),
        _ => None,
    }
}
