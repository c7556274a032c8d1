//! Variable bindings of the Simple Network Management Protocol (RFC 3416), and messages of communities, version 2
//! (RFC 1901), as structs of fields and choices. They are read by BER exactly where their grammar says, and borrowed
//! from the octets. They are written as their one strict encoding.
//!
//! The thirteen types of a variable's value are divided in parts of five at most, each a choice. The eight kinds of
//! what a message holds are divided in two choices of four.
#![tactic(auto)]

mod application;
mod binding;
mod message;
mod notices;
mod numbers;
mod object;
mod pdu;
mod pdus;
mod requests;
mod simple;
mod value;

pub use application::{
    ApplicationSyntax, ApplicationSyntaxArms, IpAddress, Opaque, has_four_octets,
};
pub use binding::{VarBind, VarBindRow, bindings_vec, read_bindings, read_bindings_whole};
pub use message::{Message, MessageRow, message_vec, read_message, read_message_whole};
pub use notices::{InformRequest, NoticePdus, NoticePdusArms, Report, Response, Trap};
pub use numbers::{
    ApplicationNumber, ApplicationNumberArms, Counter32, Counter64, TimeTicks, Unsigned32,
};
pub use object::{ObjectSyntax, ObjectSyntaxArms};
pub use pdu::{BindingNumber, BulkPdu, BulkPduRow, ErrorStatus, Pdu, PduRow};
pub use pdus::{Pdus, PdusArms};
pub use requests::{
    GetBulkRequest, GetNextRequest, GetRequest, RequestPdus, RequestPdusArms, SetRequest,
};
pub use simple::{ShortString, SimpleSyntax, SimpleSyntaxArms, is_short};
pub use value::{BindingValue, BindingValueArms, EndOfView, NoSuchInstance, NoSuchObject};
