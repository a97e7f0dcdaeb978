pub mod bytes;
pub mod long;
pub mod words;
