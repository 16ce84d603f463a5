// The page that is signed: specs/Promises.antt states the release's demands of the public calls, proofs/Kept.antt proves each. No code
// stands here.
#![tactic(auto)]
