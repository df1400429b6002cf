// What a customer reads first: the three demands, as theorems. See specs/. This crate has no code.
#![tactic(auto)]
