#![tactic(auto)]

pub mod fresh;
mod memory;
pub mod title;

pub use memory::{Part, table_part};
