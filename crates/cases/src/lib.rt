// The starred bench cases and the kernels' partial distances: tables, and theorems over them about the definitions. No function runs.
#![tactic(auto)]
