ghost use Rattle.dfi_checker.specs.Laws.{AcceptedBreaksNone, LinesAscend, OneFault};

use dfi_base as _;
use line_format as _;
use tac_ir as _;
use text_law as _;

/// A module that is accepted breaks no rule at any line.
pub fn accepted_breaks_none()
    ensures { AcceptedBreaksNone }
{}

/// A module that is refused is refused for one rule at one line.
pub fn one_fault()
    ensures { OneFault }
{}

/// Instructions that stand later in the code stand later in the text.
pub fn lines_ascend()
    ensures { LinesAscend }
{}
