// Theorems about the definitions of `rules` alone, in specs/. No code stands here.
#![tactic(auto)]
