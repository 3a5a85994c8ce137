//! A plain book that runs: owned lists of postings, each key's with its inline postings and records.
#![tactic(auto)]

pub use account::Account;
pub use failure::Failure;
pub use kept::PlainBook;
pub use looked::{Listing, Looked};
pub use typed::BookOf;

pub mod account;
pub mod failure;
pub mod kept;
mod listing;
pub mod looked;
mod looking;
mod merging;
mod position;
pub mod typed;
