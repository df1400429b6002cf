// The rules of the key book are definitions: see specs/. This crate has no code.
#![tactic(auto)]
