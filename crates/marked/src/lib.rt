#![tactic(auto)]

// No code: the marked table of document 01, proved row by row under one statement.
