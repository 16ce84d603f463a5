// General lemmas on tests, lists and signed numbers: their one home. The crate has no code.
#![tactic(auto)]
