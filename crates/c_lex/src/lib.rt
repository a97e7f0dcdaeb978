//! The tokens of a source (C99 6.4, in this profile), or the first fault in its text. `specs/` has what they are.
#![tactic(auto)]

mod comment;
mod constant;
mod fault;
mod law;
mod lexed;
mod lexer;
mod mark;
mod names;
mod piece;
mod scan;
mod token;
mod word;

pub use fault::LexFault;
pub use law::{comment_is_space, one_meaning};
pub use lexed::Lexed;
pub use lexer::{lex, newlines};
pub use mark::mark_text;
pub use token::{Kind, Mark, Token, Word};
pub use word::word_text;
