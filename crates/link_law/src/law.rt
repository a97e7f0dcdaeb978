ghost use Rattle.std.specs.Prelude.{◌≡◌, ℕ, Bool, true};
ghost use Rattle.dfi_base.specs.declared.numbers.Point.{Point};
ghost use Rattle.link_law.specs.Laws.{LinksNameTheirCalls, ReturnsGoHome, LinkedLaw};

use chain_law as _;
use path_law as _;
use tree_law as _;

/// A link read that goes on is answered the definition of the call that made its frame, dirty runs included.
pub fn links_name_their_calls()
    ensures { LinksNameTheirCalls }
{}

/// And the return goes on behind that call.
pub fn returns_go_home()
    ensures { ReturnsGoHome }
{}

/// Where facts are closed under the rules on links, and the sets of link reads are what these facts give, the set of each link read has
/// the definition of the call that made its frame.
pub fn linked_law()
    ensures { (facts : Point → ℕ → ℕ → Bool) → LinkedLaw (λ p d f. facts p d f ≡ true) }
{}
