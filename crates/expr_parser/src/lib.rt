//! Reads expressions and patterns by descent from the signs of a text: each function reads what the grammar has there, and stops
//! where the grammar has nothing. `parse_expr` reads a whole expression; the other calls are what the reading of declarations
//! and files is made of.
#![tactic(auto)]

mod answer;
mod cursor;
mod exprs;
mod form;
mod name;
mod names;
mod nesting;
mod one_expr;
mod patterns;
mod quantifier;
mod refuse;
mod stop;
mod token;

pub use answer::{settle_front, settle_whole};
pub use cursor::Signs;
pub use exprs::{read_expr, read_typed};
pub use name::name_of;
pub use names::{read_name, read_names};
pub use nesting::count_shallow;
pub use one_expr::parse_expr;
pub use patterns::read_elims;
pub use stop::Stop;
pub use token::sign_of;
