ghost use Rattle.least_rows.specs.Solutions.{SolutionsAreLeast};

/// A solution lies within each table above the start in which each rule is closed.
pub fn solutions_are_least()
    ensures { SolutionsAreLeast }
{}
