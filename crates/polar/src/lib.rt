// Theory alone: codes, what their words pay, scores, frames and undoing, for any sizes and any invertible kernel. No function runs.
#![tactic(auto)]
