// The language of programs to be verified: tokens, nodes, and programs in lent words.
#![tactic(auto)]

pub mod code;
pub mod position;
pub mod program;
pub mod scan;
pub mod syntax;
pub mod token;
pub mod width;
