//! Headers of elements and their contents octets (ITU-T X.690 8.1): how they are read, how they are written, and why
//! both may be refused.
//!
//! It is the layer below `asn1_rs`, which gives a caller what is needed of it under its own name. Name this crate in
//! `crates.txt` for the words of clauses, and import code from `asn1_rs`.
//!
//! - `Header`, `Class`, `Tag`, `Length`: what stands in front of contents octets.
//! - `Err`, `Needed`, `Error`, `SerializeError`: the refusals of readers and writers. `ParseResult` and
//!   `SerializeResult` are the answers.
//! - `BerParser`, `DerParser`: the two rules, as types.
//! - `DerWrite`, `Told`: writers, and the wrapper that makes one of a writer of std.
//! - `DerBuffer`: octets that grow at the front.
//!
//! `Answers` in `specs/` has what a reader may answer, and `Writer` what a writer was given. A writer takes octets by
//! this call, whose contract holds whether it is refused or not:
//!
//! ```rust
//! pub fn put_all<W: DerWrite>(w: &mut W, piece: &[u8]) -> SerializeResult<usize>
//!     ensures wrote { Wrote piece.now (W.state w.old) (W.state w.new) result }
//!     ensures failed { IfErr result (MayRefuse false 0) }
//!     ensures calls { PutInCalls W.puts piece.now w.old w.new result }
//!     ensures nothing { piece.now ≡ [] → (result ≡ Ok 0) × (w.new ≡ w.old) }
//! ```
//!
//! On an Ok the octets were appended, and the answer is their number. On an Err a beginning of them was appended, and
//! the writer is marked as failed.
//!
//! `Class::number` and `Tag::is_container` are public since `asn1_rs` calls them.
#![tactic(auto)]

pub mod ber;
pub mod buffer;
pub mod class;
pub mod content;
pub mod der;
pub mod error;
pub mod header;
pub mod length;
pub mod message;
pub mod tag;
mod texts;
pub mod walk;
pub mod writer;
