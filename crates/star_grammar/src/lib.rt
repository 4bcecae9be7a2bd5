// The grammar over tokens: definitions in specs/ and theorems in proofs/, and the sorts that it knows. The code that reads by them is star_parse.
#![tactic(auto)]

pub mod sort;
