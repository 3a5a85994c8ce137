//! Batch files: checking one, the open batch as a value that ends merged or withdrawn, its reversal,
//! and the check of its kind and keys.
#![tactic(auto)]

pub use checking::check;
pub use key_check::check_kind_and_keys;
pub use laws::files_are_read_back;
pub use line::{Line, Sign};
pub use open::OpenBatch;
pub use reversing::reverse;
pub use rows::{BatchRow, OpenRow};
pub use walking::{Lines, Rows};

mod checking;
mod key_check;
mod laws;
pub mod line;
pub mod open;
mod reading;
mod reversing;
pub mod rows;
mod walking;
