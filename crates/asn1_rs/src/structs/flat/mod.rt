//! Rows of fields as flat calls, of one to sixteen fields: what puts them, what states or asks something
//! of each of them, and their types.
//!
//! A row of references ([`BorrowedRow`](crate::structs::row::BorrowedRow)) does the same as nested pairs, of fewer
//! fields: the checker passes a lifetime for each of its pairs.

pub(crate) mod assert_valid;
pub(crate) mod der_form;
pub(crate) mod in_der;
pub(crate) mod puts;
pub(crate) mod rows;
