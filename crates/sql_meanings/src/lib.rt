//! What the statements mean that rows are kept with: each text as its command, and what each form
//! of command makes of the tables.
#![tactic(auto)]
