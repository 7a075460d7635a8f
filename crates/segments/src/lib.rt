//! The table: rows in a lent slice of words, four words each, and the bytes of the arena. No function here keeps anything: the caller hands in how many
//! rows are in use.
#![tactic(auto)]

mod bytes;
mod census;
mod cutting;
mod editing;
mod joining;
mod replacing;
mod row_list;
mod row_words;
mod searching;
mod words;

pub use bytes::{fill, is_filled, move_bytes};
pub use census::Census;
pub use cutting::{pieces, split_row};
pub use editing::{insert_row, remove_row};
pub use joining::{join_rows, release_row};
pub use replacing::replace_row;
pub use row_list::RowList;
pub use row_words::{put_row, row};
pub use searching::Place;
pub use words::{reset, zero_from};
