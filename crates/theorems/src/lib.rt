#![tactic(auto)]
// Theorems about runs, transcripts and replay: no code.
