#![tactic(auto)]

// No code: what holds of the promises of all crates together.
