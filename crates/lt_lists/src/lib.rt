//! Words and lemmas on lists, sums and searches by number.
#![tactic(auto)]
