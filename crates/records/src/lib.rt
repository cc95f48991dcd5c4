// Block records: document 01, "Records". `writer` stores their bytes into a lent buffer. The definitions stand in specs/; crate `walker` reads.
#![tactic(auto)]

pub mod writer;
