use heap_desk::Desk;
use word_table::StripeTable;

/// What lies under a lock: the words of a stripe, or the desk.
#[derive(Drop)]
pub enum Content {
    Words(StripeTable),
    Desk(Desk),
}
