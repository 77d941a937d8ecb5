// Channel values: definitions of their folds, and the laws of scores by values. No function runs.
#![tactic(auto)]
