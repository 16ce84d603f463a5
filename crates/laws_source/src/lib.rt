// The source's readers as they stand, in specs/, and theorems that the rules read as they do, in proofs/. No code stands here.
#![tactic(auto)]
