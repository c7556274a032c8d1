//! Requirements of strict DER in words.
ghost use Rattle.std.specs.Prelude.{◌≡◌};
ghost use Rattle.asn1_engine.specs.Wording.{words_of};

use asn1_strict::Requirement;

/// Of a requirement the section of X.690, what is wrong where it is not met, and what would be right.
pub type Words = (&'static str, &'static str, &'static str);

const WHOLE: Words = (
    "8.1.1",
    "octets are missing",
    "all octets that the length counts",
);

const IDENTIFIER: Words = (
    "8.1.2",
    "identifier octets without an end, or a tag number of 2^32 or more",
    "a last identifier octet below 80",
);

const SHORTEST_IDENTIFIER: Words = (
    "8.1.2.4",
    "identifier octets that are not the fewest",
    "one octet for a tag number below 31, else no 80 behind the first octet",
);

const LENGTH: Words = (
    "8.1.3.5",
    "a first length octet ff, or a length of 2^64 or more",
    "another first length octet",
);

const SHORTEST_LENGTH: Words = (
    "10.1",
    "length octets that are not the fewest",
    "one octet for a length below 128, else no 00 behind the first octet",
);

const DEFINITE_LENGTH: Words = (
    "10.1",
    "an indefinite length",
    "a length that counts the contents octets",
);

const TYPED_TAG: Words = (
    "8.1.5",
    "the universal tag 0, which no type has",
    "a tag of a type",
);

const FORM: Words = (
    "8.9.1, 8.11.1, 10.2",
    "a form that the type does not have",
    "constructed for SEQUENCE, SET and their kin, primitive for all others",
);

const BOOLEAN: Words = ("11.1", "a BOOLEAN of other octets", "00 or ff");

const SHORTEST_INTEGER: Words = (
    "8.3.2",
    "an integer without octets, or not of the fewest",
    "an octet at least, the first nine bits not all alike",
);

const UNUSED_BITS: Words = (
    "8.6.2, 11.2",
    "unused bits that are not 0, or a false count of them",
    "a count of 0 to 7, 00 where no bits follow, and 0 in unused bits",
);

const NULL: Words = ("8.8.2", "a NULL with contents octets", "no contents octets");

const SHORTEST_ARCS: Words = (
    "8.19.2",
    "arcs that are not whole, or not of the fewest octets",
    "an arc at least, none beginning with 80, and the last octet below 80",
);

const CHARACTERS: Words = (
    "8.23",
    "octets that are no characters of the type",
    "characters of the type alone",
);

const SET_ORDER: Words = (
    "10.3, 11.6",
    "the components of a set in another order",
    "ascending tags, or for a SET OF ascending octets",
);

const UTC_TIME: Words = ("11.8", "a time of another form", "YYMMDDhhmmssZ");

const GENERALIZED_TIME: Words = (
    "11.7",
    "a time of another form",
    "YYYYMMDDhhmmssZ, or with a point and a fraction that does not end in 0",
);

const NOTHING_BEHIND: Words = (
    "8.1.1",
    "octets behind the element",
    "the end of the octets",
);

/// The words of a requirement.
pub fn words_of(requirement: Requirement) -> Words
    ensures { (result.0.now, result.1.now, result.2.now) ≡ words_of requirement }
{
    match requirement {
        Requirement::Whole => WHOLE,
        Requirement::Identifier => IDENTIFIER,
        Requirement::ShortestIdentifier => SHORTEST_IDENTIFIER,
        Requirement::Length => LENGTH,
        Requirement::ShortestLength => SHORTEST_LENGTH,
        Requirement::DefiniteLength => DEFINITE_LENGTH,
        Requirement::TypedTag => TYPED_TAG,
        Requirement::Form => FORM,
        Requirement::Boolean => BOOLEAN,
        Requirement::ShortestInteger => SHORTEST_INTEGER,
        Requirement::UnusedBits => UNUSED_BITS,
        Requirement::Null => NULL,
        Requirement::ShortestArcs => SHORTEST_ARCS,
        Requirement::Characters => CHARACTERS,
        Requirement::SetOrder => SET_ORDER,
        Requirement::UtcTime => UTC_TIME,
        Requirement::GeneralizedTime => GENERALIZED_TIME,
        Requirement::NothingBehind => NOTHING_BEHIND,
    }
}
