//! Laws of printed texts.

ghost use Rattle.c_print.specs.NoSpareParens.{NoSpareParens};
ghost use Rattle.c_print.specs.OneText.{PrintsTheSame, TellsApart};
ghost use Rattle.c_print.specs.ReadsBack.{KeepsTokens, KeepsTree, ParseGivesTrees, ReadsBack};

/// What `parse` gives is a tree as the other laws ask for.
pub fn parse_gives_trees()
    ensures { ParseGivesTrees }
{}

/// A printed text is a source of the tree that was printed, all on line 1. It may be nested deeper than `parse` takes, also where the
/// source of the tree was not: without parentheses that fell away, fewer operators are over before the next one.
pub fn reads_back()
    ensures { ReadsBack }
{}

/// `lex` gives the tokens of the tree.
pub fn keeps_tokens()
    ensures { KeepsTokens }
{}

/// `parse` gives the tree from them, exactly where they are not nested too deep.
pub fn keeps_tree()
    ensures { KeepsTree }
{}

/// Printing again what was read back changes nothing, and different trees have different texts.
pub fn one_text()
    ensures again { PrintsTheSame }
    ensures apart { TellsApart }
{}

/// Each source of a tree has the tokens of the tree's text in their order, and beside them nothing but parentheses.
pub fn no_spare_parens()
    ensures { NoSpareParens }
{}
