// Necklaces counted: definitions and laws only.
#![tactic(auto)]
