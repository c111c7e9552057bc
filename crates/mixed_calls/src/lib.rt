// Lists of openings, steps, puts, fetches, looks and takes, mixed. Definitions and laws, no code.
#![tactic(auto)]
