//! Reserved words and marks as text.

use c_lex::Word;

/// A reserved word, and of all words with no use that it is one.
pub fn word_text(word: Word) -> &'static str {
    match word {
        Word::Unused => "unused",
        _ => c_lex::word_text(word),
    }
}
