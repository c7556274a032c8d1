//! The text of ASN.1 modules (ITU-T X.680), read to the tables of `asn1_schema`.
#![tactic(auto)]

mod components;
mod defaults;
mod definitions;
mod identifiers;
mod leads;
pub mod mistake;
pub mod modules;
mod places;
mod reader;
mod scopes;
pub mod syntax;
pub mod tokens;
mod values;
