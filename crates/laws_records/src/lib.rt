// The text of a step record, and the theorems that preparing it gives the record again, in specs/. No code stands here.
#![tactic(auto)]
