// Where things stand in the lent words: the header with the checks behind 8, and the words of each worker, slot and
// bucket record. Every function takes any words that pass the checks.
// Kept as indices of one slice: the caller lends the words, nothing allocates, and a table may be anywhere in memory.
#![tactic(auto)]

pub mod addresses;
pub mod shape;
