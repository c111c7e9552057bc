// The starred specimens of document 01, as one list and one theorem.
#![tactic(auto)]
