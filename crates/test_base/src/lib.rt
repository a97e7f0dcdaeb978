//! What each test program does with its table: rows that stand in code, or orders that come as lines.
#![tactic(auto)]

mod halt;
mod table;

pub use halt::Halt;
pub use table::{Orders, Row, ended, run_orders, run_rows};
