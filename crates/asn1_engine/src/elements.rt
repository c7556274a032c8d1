//! Whether octets are elements.
ghost use Rattle.std.specs.Prelude.{IfOk};
ghost use Rattle.asn1_engine.specs.Findings.{TellsElements};

use asn1_walk::{Step, Walk};
use std::alloc::{AllocError, Global};

/// Whether the octets are elements by BER, one after the other, and no more.
pub fn are_elements(alloc: Global, octets: &[u8]) -> Result<bool, AllocError>
    ensures { IfOk result (TellsElements octets.now) }
{
    let mut walk = Walk::new(alloc, octets);
    loop {
        match walk.step()? {
            Step::Line(_) => {}
            Step::Closed => {}
            Step::End => return Ok(true),
            Step::Refused(_) => return Ok(false),
        }
    }
}
