//! Laws of the definition.
ghost use Rattle.std.specs.Prelude.{ℕ, List};
ghost use Rattle.c_lex.specs.CommentIsSpace.{CommentIsSpace};
ghost use Rattle.c_lex.specs.OneMeaning.{OneMeaning, SomeMeaning};

/// Bytes mean one thing: their tokens are unique, so is their first fault, and they never have both. So no two faults
/// stand at one place.
pub fn one_meaning()
    ensures one { (bytes : List ℕ) → OneMeaning bytes }
    ensures some { (bytes : List ℕ) → SomeMeaning bytes }
{}

/// One space in place of a comment changes tokens, or the first fault, in nothing but their places (C99 5.1.1.2p1.3).
pub fn comment_is_space()
    ensures { CommentIsSpace }
{}
