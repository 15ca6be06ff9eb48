// Texts as bytes: numbers and lines read off the start of a text, and pieces of text put into a lent buffer.
// The page, what is printed of it and the programs all read and write by these calls, so that a digit, a
// number and a line are said once.
//
// No call has a `requires`. A reader answers a value, or that none stands there. A writer puts a piece whole
// or not at all.
#![tactic(auto)]

mod double;
mod line;
mod list;
mod number;
mod piece;
mod printed;
mod write;

pub use double::{double_of, put_double};
pub use line::{Read, byte_at, decimal_line, digit_of, hex, starts};
pub use list::list_line;
pub use number::magnitude;
pub use piece::{put, put_decimal, put_hex, put_line, put_list, put_signed};
pub use printed::Printed;
