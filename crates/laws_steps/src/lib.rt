// Theorems about the definitions of `rules` on preparing, check and run, in specs/. No code stands here.
#![tactic(auto)]
