ghost use Rattle.dfi_io.specs.Laws.{TellsLoadFaults, TellsWriteFaults};

use crate::library::Library;
use crate::sink::Sink;

/// Over any library and any sink a fault is told exactly where the count of faults rose, for each count below its greatest value.
pub fn faults_counted<L: Library, K: Sink>()
    ensures load { TellsLoadFaults L.tells }
    ensures write { TellsWriteFaults K.tells }
{}
