//! The types of elements.
ghost use Rattle.std.specs.Prelude.{◌≡◌, ◌∷◌, []};

pub mod any;
pub mod bit_string;
pub mod boolean;
pub mod embedded_pdv;
pub mod end_of_content;
pub mod enumerated;
pub mod integer;
pub mod kept;
pub mod lists;
pub mod null;
pub mod octet_string;
pub mod oid;
pub mod option;
pub mod sequence;
pub mod set;
pub mod strings;
pub mod tagged;
pub mod texts;
pub mod times;

use crate::traits::Tagged;
use bit_string::BitString;
use integer::octets::Integer;
use kept::kinds::{Sequence, Set};
use octet_string::OctetString;

/// The tag numbers of types that borrow: of bit strings, integers, octet strings, octets, sequences and sets.
pub fn numbers_of_borrowed_types() -> [u32; 6]
    ensures { result ≡ 3 ∷ 2 ∷ 4 ∷ 4 ∷ 16 ∷ 17 ∷ [] }
{
    [
        BitString::TAG.0,
        Integer::TAG.0,
        OctetString::TAG.0,
        <&[u8] as Tagged>::TAG.0,
        Sequence::TAG.0,
        Set::TAG.0,
    ]
}
