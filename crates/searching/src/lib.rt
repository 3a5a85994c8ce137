//! Nodes read from the pages of a store, and the way down from the root to the leaf of a key.
#![tactic(auto)]

pub mod arrival;
mod descent;
mod reading;

pub use arrival::Descent;
pub use descent::descend;
pub use reading::read_node;
