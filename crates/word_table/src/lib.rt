//! The words of a guest's memory, and the class of each word's last writer: what decides each read.
#![tactic(auto)]

mod areas;
mod bits;
mod classes;
mod rows;
mod stripe;
mod table;

pub use rows::ReadRows;
pub use stripe::{StripeTable, stripes_of_a_memory};
pub use table::WordTable;
