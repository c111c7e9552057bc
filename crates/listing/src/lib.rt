// The drawer's book: its lines with their prices, what it answers to steps, and what it names. Definitions and laws, no code.
#![tactic(auto)]
