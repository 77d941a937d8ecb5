// The phases of the three kernels in values: what each symbol's score is, path by path. No function runs.
#![tactic(auto)]
