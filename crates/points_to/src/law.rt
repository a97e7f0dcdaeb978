ghost use Rattle.points_to.specs.Laws.{SolutionsArePoints};

use dfi_base as _;
use flow_rules as _;
use least_rows as _;
use tac_ir as _;

/// In the solution of the system of a code, above an empty table, the row of a temporary or a node has exactly that to which it may point.
pub fn solutions_are_points()
    ensures { SolutionsArePoints }
{}
