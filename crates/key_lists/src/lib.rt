//! Lists whose items hold a key: lemmas on what a change of one key does to them. There is no code.
#![tactic(auto)]
