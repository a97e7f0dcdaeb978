ghost use Rattle.std.specs.Prelude.{◌≡◌, ℕ, List, ◌++◌};
ghost use Rattle.parse_law.specs.BracketSums.{Token, Tree, Sums};
ghost use Rattle.parse_law.specs.Nesting.{Anywhere};
ghost use Rattle.parse_law.specs.FirstFault.{Continues};
ghost use Rattle.parse_law.specs.Tells.{HasOneAnswer};

/// A list of tokens is a sum or has a first fault, and not two of these.
pub fn one_answer()
    ensures { (limit : ℕ) (ts : List Token) → HasOneAnswer Sums limit ts }
{}

/// However deep it is, a list of tokens has no two trees.
pub fn one_tree()
    ensures { (ts : List Token) (a b : Tree) → Sums Anywhere ts a → Sums Anywhere ts b → a ≡ b }
{}

/// A beginning of tokens that go on goes on.
pub fn prefix_continues()
    ensures { (ts us : List Token) → Continues Sums (ts ++ us) → Continues Sums ts }
{}
