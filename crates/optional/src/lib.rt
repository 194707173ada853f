// The optional part of an initial address message is gone through parameter by parameter, and written from a list of parameters.

#![tactic(auto)]

pub mod list;
pub mod part;
pub mod reader;
pub mod search;
pub mod survey;
pub mod write;
