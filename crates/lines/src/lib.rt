#![tactic(auto)]

pub mod command;
pub mod read;
pub mod text;
