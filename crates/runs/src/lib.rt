#![tactic(auto)]

pub mod answer;
pub mod event;
pub mod oldest;
mod parcels;
mod send;
