// Registers: what names are bound to.
#![tactic(auto)]

pub mod empty;
pub mod library;
pub mod register;
mod standing;
mod table;
pub mod told;
