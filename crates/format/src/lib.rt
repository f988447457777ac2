#![tactic(auto)]

// No code: what a file, its tables, its sheet and its image are, and the theorems that tie them.
