pub mod forks;
pub mod limits;
pub mod orders;
pub mod overruns;
pub mod stores;
pub mod traps;
pub mod written;
