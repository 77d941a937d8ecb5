// Laws alone: a run of two stages goes on by a run of its inner code.
#![tactic(auto)]
