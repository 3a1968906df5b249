#![tactic(auto)]

pub mod answer;
mod areas;
mod field;
mod frame;
mod grid;
pub mod join;
mod lanes;
mod measures;
mod nodes;
mod output;
mod placed;
mod sha256;
pub mod split;

pub use placed::digest_placed;
pub use sha256::digest;
