//! Page stores over memory, and the stripe that joins two stores.
#![tactic(auto)]

pub mod flat;
pub mod sealed;
pub mod slotted;
pub mod stripe;
