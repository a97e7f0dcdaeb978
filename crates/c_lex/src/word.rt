ghost use Rattle.std.specs.Prelude.{◌≡◌, bytes_eq};
ghost use Rattle.c_lex.specs.Words.{found_text, look_up, same_word, word_of, word_text};

use crate::token::Word;

/// The reserved words: those that the grammar uses, and the other keywords of C99 (6.4.1).
const WORDS: [(&str, Word); 39] = [
    ("int", Word::Int),
    ("void", Word::Void),
    ("struct", Word::Struct),
    ("if", Word::If),
    ("else", Word::Else),
    ("while", Word::While),
    ("for", Word::For),
    ("return", Word::Return),
    ("break", Word::Break),
    ("continue", Word::Continue),
    ("par", Word::Par),
    ("sizeof", Word::Sizeof),
    ("NULL", Word::Null),
    ("auto", Word::Unused),
    ("case", Word::Unused),
    ("char", Word::Unused),
    ("const", Word::Unused),
    ("default", Word::Unused),
    ("do", Word::Unused),
    ("double", Word::Unused),
    ("enum", Word::Unused),
    ("extern", Word::Unused),
    ("float", Word::Unused),
    ("goto", Word::Unused),
    ("inline", Word::Unused),
    ("long", Word::Unused),
    ("register", Word::Unused),
    ("restrict", Word::Unused),
    ("short", Word::Unused),
    ("signed", Word::Unused),
    ("static", Word::Unused),
    ("switch", Word::Unused),
    ("typedef", Word::Unused),
    ("union", Word::Unused),
    ("unsigned", Word::Unused),
    ("volatile", Word::Unused),
    ("_Bool", Word::Unused),
    ("_Complex", Word::Unused),
    ("_Imaginary", Word::Unused),
];

/// The word beside this text in a table.
fn beside(table: &[(&str, Word)], text: &[u8]) -> Option<Word>
    ensures { result ≡ look_up (λ row. bytes_eq text.now row.0.now) (λ row. row.1) table.now }
{
    for row in table {
        if text == row.0.as_bytes() {
            return Some(row.1);
        }
    }
    None
}

/// The reserved word that the text spells, if any.
#[tactic(auto, unfolding(crate::specs::Words::word_of, crate::specs::Words::words))]
pub fn word_of(text: &[u8]) -> Option<Word>
    ensures { result ≡ word_of text.now }
{
    beside(&WORDS, text)
}

/// The first text beside a word in a table.
fn text_beside(table: &[(&'static str, Word)], word: Word) -> &'static str
    ensures { result.now ≡ found_text (look_up (λ row. same_word row.1 word) (λ row. row.0.now) table.now) }
{
    for row in table {
        if row.1 == word {
            return row.0;
        }
    }
    ""
}

/// How a reserved word is written. One with no use has many spellings, of which this is one.
#[tactic(auto, unfolding(crate::specs::Words::word_text, crate::specs::Words::words))]
pub fn word_text(word: Word) -> &'static str
    ensures { result.now ≡ word_text word }
{
    text_beside(&WORDS, word)
}
