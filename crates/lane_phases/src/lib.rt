// Sixteen kernels side by side: what their rows hold at a phase, and the laws by which a step's rows hold it. No function runs.
#![tactic(auto)]
