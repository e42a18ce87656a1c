//! What the four tables of a database hold, as lists that are functions of their rows, and that
//! these are the lists that the statements speak of.
#![tactic(auto)]
