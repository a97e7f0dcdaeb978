ghost use Rattle.std.specs.Prelude.{◌≡◌, ◌<◌, true, All};
ghost use Rattle.guest_log.specs.Tickets.{Differ};

use guest_log::Stamped;

/// Whether this ticket is newer than those of a log.
pub fn is_newer(ticket: u64, log: &[Stamped]) -> bool
    ensures { result ≡ true → All (λ older. older.ticket < ticket) log.now }
{
    for stamped in log {
        if stamped.ticket >= ticket {
            return false;
        }
    }
    true
}

/// Whether no entry of the one log has a ticket of the other.
pub fn differ(first: &[Stamped], second: &[Stamped]) -> bool
    ensures { result ≡ true → Differ first.now second.now }
{
    for stamped in first {
        if !lacks(second, stamped.ticket) {
            return false;
        }
    }
    true
}

// Whether no entry of a log has this ticket.
fn lacks(log: &[Stamped], ticket: u64) -> bool
    ensures { result ≡ true → All (λ stamped. ticket ≡ stamped.ticket → ⊥) log.now }
{
    for stamped in log {
        if stamped.ticket == ticket {
            return false;
        }
    }
    true
}
