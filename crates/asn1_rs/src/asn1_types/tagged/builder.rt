//! Builders of the readers of [`TaggedParser`], and readers of one tag number.
ghost use Rattle.std.specs.Prelude.{◌≡◌};
ghost use Rattle.asn1_headers.specs.Answers.{seen};
ghost use Rattle.asn1_rs.specs.Tagged.{ThenByDer, ThenByBer};
ghost use Rattle.asn1_rs.specs.Tagged.Parser.{TakesExplicit, TakesWholeContent, TakesImplicit, ChecksAndConverts};
ghost use Rattle.asn1_rs.specs.Tagged.Parser.{TagCheckGives};
ghost use Rattle.asn1_rs.specs.Tagged.Parser.{HasTag, Asks, Expects};
ghost use Rattle.asn1_headers.specs.declared.class.Class.TheVariants as classes;
ghost use Rattle.asn1_headers.specs.declared.tag.Tag.{Tag};

use crate::asn1_types::tagged::parser::TaggedParser;
use crate::asn1_types::tagged::{Explicit, Implicit};
use crate::traits::{CheckDerConstraints, FromAny, FromBer, FromDer, Tagged};
use asn1_headers::class::Class;
use asn1_headers::error::{Err, Error, ParseResult};
use asn1_headers::tag::Tag;
use std::alloc::Global;
use std::marker::PhantomData;

/// Builds a reader of values of this class and tag number, under tags of the kind.
#[derive_where(Debug, Clone, Copy)]
pub struct TaggedParserBuilder<Kind, E> {
    class: Class,
    tag: Tag,
    of_types: PhantomData<(Kind, E)>,
}

impl<Kind, E> TaggedParserBuilder<Kind, E> {
    /// The universal class and tag number 0.
    pub const fn new() -> Self
        ensures class { result.class ≡ classes.Universal }
        ensures tag { result.tag ≡ record { 0 = 0 } }
    {
        TaggedParserBuilder {
            class: Class::Universal,
            tag: Tag(0),
            of_types: PhantomData,
        }
    }

    /// The same builder with another class.
    pub const fn with_class(self, class: Class) -> Self
        ensures class { result.class ≡ class }
        ensures tag { result.tag ≡ self.tag }
    {
        TaggedParserBuilder {
            class,
            tag: self.tag,
            of_types: PhantomData,
        }
    }

    /// The same builder with another tag number.
    pub const fn with_tag(self, tag: Tag) -> Self
        ensures class { result.class ≡ self.class }
        ensures tag { result.tag ≡ tag }
    {
        TaggedParserBuilder {
            class: self.class,
            tag,
            of_types: PhantomData,
        }
    }
}

/// The universal class and tag number 0.
impl<Kind, E> Default for TaggedParserBuilder<Kind, E> {
    ghost is_default = { λ b. (b.class ≡ classes.Universal) × (b.tag ≡ record { 0 = 0 }) };

    fn default() -> Self {
        TaggedParserBuilder::new()
    }
}

impl<E> TaggedParserBuilder<Explicit, E> {
    /// A builder for explicit tags: the universal class and tag number 0.
    pub const fn explicit() -> Self
        ensures class { result.class ≡ classes.Universal }
        ensures tag { result.tag ≡ record { 0 = 0 } }
    {
        TaggedParserBuilder::new()
    }
}

impl<E> TaggedParserBuilder<Implicit, E> {
    /// A builder for implicit tags: the universal class and tag number 0.
    pub const fn implicit() -> Self
        ensures class { result.class ≡ classes.Universal }
        ensures tag { result.tag ≡ record { 0 = 0 } }
    {
        TaggedParserBuilder::new()
    }
}

impl<E: From<Error>> TaggedParserBuilder<Explicit, E> {
    /// Reads a value by BER, as [`TaggedParser::parse_ber`] does.
    pub fn ber_parser<'a, T>(
        self,
        alloc: Global,
        bytes: &'a [u8],
    ) -> ParseResult<'a, TaggedParser<'a, Explicit, T, E>, E>
    where
        T: FromBer<'a, E> + Drop,
        ensures { Expects (ThenByBer E.from_gives
            (TakesExplicit T.ber_gives)) (HasTag self.class self.tag) E.from_gives bytes.now
            (seen result) }
    {
        TaggedParser::<'a, Explicit, T, E>::parse_ber(alloc, self.class, self.tag, bytes)
    }

    /// Reads a value by DER, as [`TaggedParser::parse_der`] does.
    pub fn der_parser<'a, T>(
        self,
        alloc: Global,
        bytes: &'a [u8],
    ) -> ParseResult<'a, TaggedParser<'a, Explicit, T, E>, E>
    where
        T: FromDer<'a, E> + Drop,
        ensures { Expects (ThenByDer E.from_gives
            (TakesWholeContent T.der_gives E.from_gives)) (HasTag self.class self.tag) E.from_gives
            bytes.now (seen result) }
    {
        TaggedParser::<'a, Explicit, T, E>::parse_der(alloc, self.class, self.tag, bytes)
    }
}

impl<E: From<Error>> TaggedParserBuilder<Implicit, E> {
    /// Reads a value by BER, as [`TaggedParser::parse_ber`] does.
    pub fn ber_parser<'a, T>(
        self,
        alloc: Global,
        bytes: &'a [u8],
    ) -> ParseResult<'a, TaggedParser<'a, Implicit, T, E>, E>
    where
        T: FromAny<'a, Error = E> + Tagged + Drop,
        ensures { Expects (ThenByBer E.from_gives
            (TakesImplicit T.TAG T.any_gives)) (HasTag self.class self.tag) E.from_gives
            bytes.now (seen result) }
    {
        TaggedParser::<'a, Implicit, T, E>::parse_ber(alloc, self.class, self.tag, bytes)
    }

    /// Reads a value by DER, as [`TaggedParser::parse_der`] does.
    pub fn der_parser<'a, T>(
        self,
        alloc: Global,
        bytes: &'a [u8],
    ) -> ParseResult<'a, TaggedParser<'a, Implicit, T, E>, E>
    where
        T: FromAny<'a, Error = E> + CheckDerConstraints + Tagged + Drop,
        ensures { Expects (ThenByDer E.from_gives
            (TakesImplicit T.TAG (ChecksAndConverts T.check_gives T.any_gives E.from_gives)))
            (HasTag self.class self.tag) E.from_gives bytes.now (seen result) }
    {
        TaggedParser::<'a, Implicit, T, E>::parse_der(alloc, self.class, self.tag, bytes)
    }
}

/// What was read, where it has this tag number.
fn with_number<'a, Kind, T: Drop, E: From<Error>>(
    rest: &'a [u8],
    parser: TaggedParser<'a, Kind, T, E>,
    tag: Tag,
) -> ParseResult<'a, TaggedParser<'a, Kind, T, E>, E>
    ensures { Asks (TagCheckGives tag) E.from_gives rest.now parser.entry (seen result) }
{
    match parser.assert_tag(tag) {
        Ok(()) => Ok((rest, parser)),
        Err(e) => Err(Err::Error(E::from(e))),
    }
}

/// Reads a value under an explicit tag by DER, as [`TaggedParser`] is read, and then looks at its tag number. The class
/// is not looked at.
///
/// Refused as the reading is; with `UnexpectedTag`.
pub fn parse_der_tagged_explicit<'a, IntoTag, T, E>(
    alloc: Global,
    tag: IntoTag,
    bytes: &'a [u8],
) -> ParseResult<'a, TaggedParser<'a, Explicit, T, E>, E>
where
    IntoTag: Into<Tag>,
    T: FromDer<'a, E> + Drop,
    E: From<Error>,
    ensures { (number : Tag) × IntoTag.converts tag number
        × Expects (ThenByDer E.from_gives
        (TakesWholeContent T.der_gives E.from_gives)) (TagCheckGives number) E.from_gives bytes.now
        (seen result) }
{
    let tag = tag.into();
    match TaggedParser::<'a, Explicit, T, E>::from_der(alloc, bytes) {
        Ok((rest, parser)) => with_number(rest, parser, tag),
        Err(e) => Err(e),
    }
}

/// Reads a value under an implicit tag by DER, and goes on as [`parse_der_tagged_explicit`] does.
pub fn parse_der_tagged_implicit<'a, IntoTag, T, E>(
    alloc: Global,
    tag: IntoTag,
    bytes: &'a [u8],
) -> ParseResult<'a, TaggedParser<'a, Implicit, T, E>, E>
where
    IntoTag: Into<Tag>,
    T: FromAny<'a, Error = E> + CheckDerConstraints + Tagged + Drop,
    E: From<Error>,
    ensures { (number : Tag) × IntoTag.converts tag number
        × Expects (ThenByDer E.from_gives
        (TakesImplicit T.TAG (ChecksAndConverts T.check_gives T.any_gives E.from_gives)))
        (TagCheckGives number) E.from_gives bytes.now (seen result) }
{
    let tag = tag.into();
    match TaggedParser::<'a, Implicit, T, E>::from_der(alloc, bytes) {
        Ok((rest, parser)) => with_number(rest, parser, tag),
        Err(e) => Err(e),
    }
}
