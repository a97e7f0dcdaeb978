ghost use Rattle.std.specs.Prelude.{◌≡◌, ◌≤◌, length, IfOk};
ghost use Rattle.tac_ir.specs.Threads.{root_start};
ghost use Rattle.guest_log.specs.Shared.{Shared, history_of};
ghost use Rattle.merge_law.specs.Logs.{IsLogOf};
ghost use Rattle.merge_law.specs.AtRest as at_rest;
ghost use Rattle.merge_law.specs.AtRest.{IsAtRest};
ghost use Rattle.merge_law.specs.MergeLaws.{IsWholeRun};

use crate::rest::Rest;
use dfi_base::Memory;
use guest_log::{Log, Stamped};
use sqlite_items::Items;
use std::alloc::Global;
use tac_ir::{Answer, End, Journal, Limit, Module};

/// The core run that the log of thread 1 is: its entries up to and with the first that stops the run.
pub fn journal_of(
    alloc: Global,
    m: &Module,
    input: &[i32],
    log: &Log,
    budget: u64,
    rest: Rest,
) -> Result<Journal, Memory>
    requires log { IsLogOf m.now 1 (root_start m.now) (history_of log.now.items) }
    requires shared { Shared m.now input.now log.now.items }
    requires budget { length log.now.items ≤ budget }
    requires rest { IsAtRest m.now budget (history_of log.now.items) rest }
    ensures journal { IfOk result (λ j. j ≡ at_rest.journal_of rest (history_of log.now.items)) }
    ensures run { IfOk result (λ j. IsWholeRun m.now input.now budget j) }
{
    journal_at_rest(alloc, log.items(), rest)
}

/// The journal of any list of entries that came to rest so, whether a run made it or not.
pub fn journal_at_rest(alloc: Global, log: &[Stamped], rest: Rest) -> Result<Journal, Memory>
    ensures { IfOk result (λ j. j ≡ at_rest.journal_of rest (history_of log.now)) }
{
    let mut entries = Vec::new(alloc);
    for stamped in log {
        entries.push(stamped.entry)?;
        if let Answer::Stop(stop) = stamped.entry.answer {
            return Ok(Journal {
                entries: Items::from_vec(entries),
                end: stop.end(),
            });
        }
    }
    Ok(Journal {
        entries: Items::from_vec(entries),
        end: end_at_rest(rest),
    })
}

// The end of a log without a stop.
fn end_at_rest(rest: Rest) -> End
    ensures { result ≡ at_rest.end_at_rest rest }
{
    match rest {
        Rest::Returned(value) => End::Done(value),
        Rest::Stopped | Rest::LeftOff => End::Limit(Limit::Budget),
    }
}
