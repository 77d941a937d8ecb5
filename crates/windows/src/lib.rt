// The decoding windows of the kernels, the tables of their phases, and the laws of a step and of following. No function runs.
#![tactic(auto)]
