// Lemmas over the definitions that the code is proved to equal, for the theorems of demands; no code.
#![tactic(auto)]
