// Values from marks under a scale: how near its values are to the exact products, and that scale 32 gives what the fixed
// factor gave. No function runs.
#![tactic(auto)]
