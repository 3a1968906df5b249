#![tactic(auto)]

pub mod say;
pub mod session;
pub mod settle;
pub mod space;
pub mod stream;
