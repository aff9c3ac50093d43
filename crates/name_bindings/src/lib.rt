//! Which ring each name has: the words that the machine of names and the judge of names share. It has no code.
#![tactic(auto)]
