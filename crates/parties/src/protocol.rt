pub mod measures;
pub mod tags;
pub(crate) mod version;
