//! Sums over what the passes of a table know, for the crates that keep a rule over them. It has no code.
#![tactic(auto)]
