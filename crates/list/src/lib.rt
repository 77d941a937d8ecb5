// Theory alone: list decoding over any code, costs, marks and list size, and the order of candidates. No function runs.
#![tactic(auto)]
