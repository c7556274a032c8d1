//! Object identifiers and relative ones as they are made, of arcs or of text (X.690 8.19, 8.20).
ghost use Rattle.std.specs.Prelude.{◌≡◌, [], ◌∷◌, ◌++◌, ◌^◌, ◌<◌, false, true, Err, IfErr, IfNone, IfOk, IfSome};
ghost use Rattle.x690.specs.Arcs.{AreAbsoluteArcs, subidentifier_octets, with_first_joined};
ghost use Rattle.x690.specs.Strict.{tag_digits};
ghost use Rattle.asn1_rs.specs.Oid.Making.{ArcsRead, OidMade, OidReadFrom, RefusesArcs, SaysArc, SaysArcs, arc_said};
ghost use Rattle.asn1_rs.specs.Oid.Making.{arcs_said, parts_between_points};
ghost use Rattle.asn1_rs.specs.declared.asn1_types.oid.making.OidParseError.TheVariants as refusals;

use crate::asn1_types::oid::Oid;
use std::alloc::{AllocError, Global};
use std::borrow::CowSlice;
use x690::digits::subidentifier_into;

/// Why no object identifier is made of arcs or of a text.
#[derive(Debug, Clone, Copy, PartialEq, Eq, thiserror::Error)]
pub enum OidParseError {
    /// Too few arcs: none, or, of an absolute identifier, one alone that is not 0.
    #[error("too few arcs")]
    TooShort,
    /// A first pair that 40 * X + Y can't say. The first arc is past 2, or the second past 39 under 0 and 1 (X.690
    /// 8.19.4).
    #[error("first two arcs too large")]
    FirstComponentsTooLarge,
    /// A part between points that is no number in decimal, or one past `u64`.
    #[error("arc that is no number")]
    ParseIntError,
    /// There was not enough memory.
    #[error("out of memory")]
    OutOfMemory,
}

impl From<AllocError> for OidParseError {
    ghost from_gives = { λ _ e. e ≡ refusals.OutOfMemory };

    fn from(_e: AllocError) -> OidParseError {
        OidParseError::OutOfMemory
    }
}

/// The first subidentifier of an object identifier, and the arcs behind it (X.690 8.19.3, 8.19.4).
fn join_first(arcs: &[u64]) -> Result<(u128, &[u64]), OidParseError>
    ensures joined { IfOk result (λ p. AreAbsoluteArcs arcs.now
        × (with_first_joined arcs.now ≡ p.0 ∷ p.1.now)) }
    ensures small { IfOk result (λ p. p.0 < 2 ^ 70) }
    ensures refused { IfErr result (RefusesArcs false arcs.now) }
{
    match arcs {
        [0] => Ok((0, &arcs[1..])),
        [first, second, more @ ..] => {
            if *first > 2 || *first < 2 && *second > 39 {
                return Err(OidParseError::FirstComponentsTooLarge);
            }
            Ok((40 * u128::from(*first) + u128::from(*second), more))
        }
        _ => Err(OidParseError::TooShort),
    }
}

/// Appends the shortest octets of a subidentifier (X.690 8.19.2). Refused only where memory is.
fn push_subidentifier(octets: &mut Vec<u8>, number: u128) -> Result<(), AllocError>
    requires { number < 2 ^ 70 }
    ensures { IfOk result (λ _. octets.new.items ≡ octets.old.items ++ tag_digits number) }
{
    let mut digits = [0; 10];
    let len = subidentifier_into(number, &mut digits);
    octets.extend_from_slice(&digits[..len])
}

/// Appends the shortest octets of each subidentifier. Refused only where memory is.
fn push_subidentifiers(octets: &mut Vec<u8>, numbers: &[u64]) -> Result<(), AllocError>
    ensures { IfOk result (λ _. octets.new.items
        ≡ octets.old.items ++ subidentifier_octets numbers.now) }
{
    for number in numbers {
        push_subidentifier(octets, u128::from(*number))?;
    }
    Ok(())
}

/// The arcs that a text has between its points. Each part is read, also where there is no memory for all of them.
// So a text with a part that is no number is `ParseIntError` whatever memory there is.
fn arcs_of_text(alloc: Global, s: &str) -> Result<Vec<u64>, OidParseError>
    ensures { ArcsRead s.now result }
{
    let mut arcs = Vec::new(alloc);
    let mut kept = true;
    for part in s.split('.') {
        let Ok(arc) = part.parse::<u64>() else {
            return Err(OidParseError::ParseIntError);
        };
        kept = kept && arcs.push(arc).is_ok();
    }
    if kept {
        Ok(arcs)
    } else {
        Err(OidParseError::OutOfMemory)
    }
}

/// Why no object identifier is made of arcs for which there is no memory: as [`Oid::from`] refuses them, else for this.
fn refused_without_memory(arcs: &[u64]) -> OidParseError
    ensures { OidMade false arcs.now (Err result) }
{
    match join_first(arcs) {
        Ok(_) => OidParseError::OutOfMemory,
        Err(e) => e,
    }
}

/// The text before the first point, and that behind it, where there is one.
fn first_part(s: &str) -> (&str, Option<&str>)
    ensures one { IfNone result.1 (parts_between_points s.now ≡ result.0.now ∷ []) }
    ensures more { IfSome result.1
        (λ others. parts_between_points s.now ≡ result.0.now ∷ parts_between_points others.now) }
{
    match s.split_once('.') {
        Some((part, others)) => (part, Some(others)),
        None => (s, None),
    }
}

/// The arc that a part of a text says.
fn arc_of_part(part: &str) -> u64
    requires { SaysArc part.now }
    ensures { result ≡ arc_said part.now }
{
    part.parse().unwrap_or(0)
}

/// Why no object identifier is made of the arcs that a text says, where there is no memory for them. The first two
/// decide whether they are refused, so they alone are looked at.
fn text_refused_without_memory(s: &str) -> OidParseError
    requires { SaysArcs s.now }
    ensures { OidMade false (arcs_said s.now) (Err result) }
{
    let (part, others) = first_part(s);
    let first = arc_of_part(part);
    let Some(others) = others else {
        return refused_without_memory(&[first]);
    };
    let (part, _) = first_part(others);
    refused_without_memory(&[first, arc_of_part(part)])
}

impl Oid<'_> {
    /// The object identifier of these arcs, by its shortest contents octets, in memory of its own (X.690 8.19). Its
    /// arcs are those given, but that 0, 0 has the contents octets of the one arc 0.
    ///
    /// Refused with `TooShort` where there is no arc, or one alone that is not 0. Refused with
    /// `FirstComponentsTooLarge` where the first arc is past 2, or the second past 39 under 0 and 1. Then refused with
    /// `OutOfMemory`.
    pub fn from(alloc: Global, s: &[u64]) -> Result<Oid<'static>, OidParseError>
        ensures { OidMade false s.now result }
    {
        let (first, more) = join_first(s)?;
        let mut octets = Vec::with_capacity(alloc, s.len())?;
        push_subidentifier(&mut octets, first)?;
        push_subidentifiers(&mut octets, more)?;
        Ok(Oid::new(CowSlice::Owned(octets)))
    }

    /// The relative object identifier of these arcs, by its shortest contents octets,
    /// in memory of its own (X.690 8.20).
    ///
    /// Refused with `TooShort` where there is no arc; then where memory is, with `OutOfMemory`.
    pub fn from_relative(alloc: Global, s: &[u64]) -> Result<Oid<'static>, OidParseError>
        ensures { OidMade true s.now result }
    {
        if s.is_empty() {
            return Err(OidParseError::TooShort);
        }
        let mut octets = Vec::with_capacity(alloc, s.len())?;
        push_subidentifiers(&mut octets, s)?;
        Ok(Oid::new_relative(CowSlice::Owned(octets)))
    }

    /// The object identifier of the arcs that a text has in decimal between its points, as [`Oid::from`] makes it
    /// (X.690 8.19). Each part is read as `str::parse` reads a `u64`, so a plus may stand in front of it.
    ///
    /// Refused with `ParseIntError` where a part is no such number, as the one part of the empty text is. Once all are
    /// read it is refused as [`Oid::from`] refuses their arcs, whatever memory there is.
    pub fn from_str(alloc: Global, s: &str) -> Result<Oid<'static>, OidParseError>
        ensures { OidReadFrom s.now result }
    {
        match arcs_of_text(alloc, s) {
            Ok(arcs) => Oid::from(alloc, &arcs),
            Err(OidParseError::OutOfMemory) => Err(text_refused_without_memory(s)),
            Err(e) => Err(e),
        }
    }
}
