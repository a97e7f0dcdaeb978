//! The canonical text of a syntax tree: its tokens with one space between each two, and parentheses only where the grammar needs them.
#![tactic(auto)]

mod decl;
mod expr;
mod law;
mod params;
mod precedence;
mod program;
mod sign;
mod simple;
mod spelling;
mod stmt;
mod text;
mod tokens;
mod types;

pub use law::{keeps_tokens, keeps_tree, no_spare_parens, one_text, parse_gives_trees, reads_back};
pub use text::print;
