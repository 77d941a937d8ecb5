// The nearest whole number to a float, and how far a rounded product lies from the exact one: definitions and theory.
// No function runs.
#![tactic(auto)]
