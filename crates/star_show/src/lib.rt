// What `star_cases` is written with: lines and their notation, tables that are kept, and what is printed of them.
#![tactic(auto)]

pub mod compare;
pub mod float;
pub mod kept;
pub mod notation;
pub mod print;
pub mod split;
pub mod words;
