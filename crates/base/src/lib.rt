// Definitions and laws alone: bits, lists of bits and computed tests. No function runs.
#![tactic(auto)]
