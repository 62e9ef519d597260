// The lent tables: each is one slice of words in rows of a fixed width, and only this crate computes an index.
// Kept: (d) the accessors of each table beside those of the others: each is one index, `clients[WIDTH * client + field]`, and names its own layout.
#![tactic(auto)]

pub mod clients;
pub mod counts;
pub mod lent;
pub mod links;
pub mod log;
pub mod records;
pub mod versions;
