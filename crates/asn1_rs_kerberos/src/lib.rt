//! The first request of Kerberos, AS-REQ (RFC 4120, 5.4.1), as structs of fields. It is read by DER exactly where its
//! grammar says, and borrowed from the octets. It is written as its one strict encoding.
#![tactic(auto)]

mod asked;
mod body;
mod data;
mod names;
mod request;
mod ticket;

use asn1_rs::{Error, TaggedExplicit};
pub use body::{KdcReqBody, KdcReqBodyRow};
pub use data::{EncryptedData, EncryptedDataRow, HostAddress, HostAddressRow, PaData, PaDataRow};
pub use names::{PrincipalName, PrincipalNameRow};
pub use request::{AsReq, KdcReq, KdcReqRow, RequestType, read_request, request_vec};
pub use ticket::{Ticket, TicketFields, TicketRow, Version5};

/// A value under an explicit, context-specific tag.
pub type Under<T, const TAG: u32> = TaggedExplicit<T, Error, TAG>;
