// The figures of the key book: what single keys, rights, loads and messages are, and what each of them answers by itself.
#![tactic(auto)]

pub mod accounts;
pub mod held;
pub mod keys;
pub mod limits;
pub mod loads;
pub mod names;
pub mod policies;
pub mod replies;
pub mod rights;
