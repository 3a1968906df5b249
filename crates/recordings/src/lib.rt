#![tactic(auto)]

pub mod answer;
pub mod arrange;
mod blocks;
mod moves;
pub mod recording;
mod strided;
mod triples;
mod width;
