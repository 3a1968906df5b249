mod answer;
pub mod bytes;
pub mod form;
pub mod nodes;
pub(crate) mod places;
pub mod version;
