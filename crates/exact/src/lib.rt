#![tactic(auto)]

// No code: the crate holds definitions in specs/ and laws in proofs/ that readers of any byte format can cite.
