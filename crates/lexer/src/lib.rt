// Reads a sheet: from bytes to tokens, numbers as exact decimals, and strings as code units.
#![tactic(auto)]

mod classes;
pub mod decimal;
pub mod decimals;
mod escapes;
mod exponent;
mod gaps;
pub mod kinds;
mod mantissa;
mod marks;
mod numbers;
pub mod positions;
pub mod read;
pub mod reader;
pub mod reasons;
pub mod refusal;
mod runs;
pub mod scan;
mod sizes;
pub mod strings;
mod tokens;
