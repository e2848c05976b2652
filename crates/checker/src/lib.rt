// The rules, and checking a sheet that was read.
#![tactic(auto)]

pub mod asked;
mod asking;
pub mod calls;
pub mod check;
mod conditions;
pub mod finding;
mod first;
pub mod laws;
mod making;
mod proper;
mod rules;
pub mod run;
pub mod stage;
mod steps;
mod store;
mod visit;
mod walk;
