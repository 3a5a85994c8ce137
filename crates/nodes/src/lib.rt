//! Pages as typed values: the header, inner nodes, leaves, record pages and free pages, decoded from 512 bytes and encoded into them.
#![tactic(auto)]

mod codec;
pub mod entry;
pub mod few;
pub mod free;
pub mod header;
pub mod inner;
pub mod leaf;
pub mod page;
mod piece;
mod places;
pub mod records;
pub mod row;
pub mod sizes;
pub mod sort;
