// Records in words that the caller lends. How a record is written into words is said where the record is declared.
#![tactic(auto)]

pub mod parts;
pub mod table;
pub mod view;

pub use parts::{Few, split};
pub use table::{Full, Mark, Record, Table};
pub use view::View;
