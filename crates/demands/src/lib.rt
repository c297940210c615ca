// Theorems over the definitions that the code is proved to equal: what the customer asked; no code.
#![tactic(auto)]
