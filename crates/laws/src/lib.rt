// Definitions and laws that every layer cites; no code.
#![tactic(auto)]
