use crate::token::Token;
use dfi_base::{Line, Text};
use sqlite_items::Items;
use std::marker::Model;

/// The tokens of a source, its names by their numbers, and the line of its last byte (1 where it has none). Each value of
/// this type is what some source is lexed to.
#[derive(Drop)]
pub struct Lexed {
    pub tokens: Items<Token>,
    pub names: Items<Text>,
    pub last: Line,
}

impl Model for Lexed {
    ghost use Rattle.c_lex.specs.IsLexed.{Lexed, IsLexed};

    ghost Value = { Lexed };

    ghost view = { λ l. record { tokens = l.tokens; names = l.names; last = l.last } };

    ghost invariant = { λ l. IsLexed (record { tokens = l.tokens; names = l.names; last = l.last }) };
}
