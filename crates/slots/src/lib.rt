#![tactic(auto)]

// No code: what the shared profile cache is, the bytes that stand for it, and the theorems over histories of calls.
