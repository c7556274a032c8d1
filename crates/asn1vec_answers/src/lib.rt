//! The answers of the program `asn1vec`: what a line asks for, how it is read, and how it is shown.
#![tactic(auto)]

mod answer;
mod any;
mod digits;
mod distinguished;
mod holders;
mod identifiers;
mod leaves;
mod lists;
mod names;
mod numbers;
mod options;
mod pdv;
mod request;
mod shown;
mod strings;
mod tags;
mod text;
mod times;
mod types;

pub use answer::{LONGEST_LINE, answer_line, members_ascend, one_answer};
pub use request::{Rule, one_request, split_once};
