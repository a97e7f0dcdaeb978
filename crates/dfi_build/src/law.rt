ghost use Rattle.dfi_build.specs.Laws.{NoFaultOfModule, OneFault, OneModule};

/// A source has one module and no fault, or one first fault.
pub fn one_build()
    ensures module { OneModule }
    ensures either { NoFaultOfModule }
    ensures fault { OneFault }
{}
