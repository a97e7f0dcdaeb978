//! Texts whose values end by their own bytes, read with the exact first fault.
#![tactic(auto)]

mod choices;
mod cursor;
mod keys;
mod law;
mod lists;
mod numbers;
mod parts;
mod signed;
mod words;

pub use choices::one_of;
pub use cursor::{Cursor, Failure};
pub use keys::{key_after, pair_key};
pub use law::numbers_are_told;
pub use lists::{any_members, members, number_and_members, number_and_option};
pub use numbers::{End, GREATEST, Turn, number, number_and};
pub use parts::{Part, times};
pub use signed::signed_and;
pub use words::word;
