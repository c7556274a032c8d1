//! Names of X.509: lists of relative names, which are sets of attributes (RFC 5280, 4.1.2.4). They are read and written
//! by DER.
#![tactic(auto)]

mod attribute;
mod header;
mod name;
mod relative_name;
mod set;

pub use attribute::AttributeTypeAndValue;
pub use name::{Name, name_vec, read_name, write_name};
pub use relative_name::RelativeDistinguishedName;
