// The normal form in one pass: a machine over the bytes of a text, that it writes the normal form of every text, and what follows for lengths, separators and steps. The crate has no code.
#![tactic(auto)]
