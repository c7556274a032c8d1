//! Why a reading or a writing is refused.
ghost use Rattle.std.specs.Prelude.{◌≡◌, ◌↔◌, IsTrue, ℕ, Bool, true, false};
ghost use Rattle.asn1_headers.specs.Error.{Converted, ErrorIs, FlattenedTo, IsTruncated, needed_of, tells_of_io};
ghost use Rattle.asn1_headers.specs.Error.{written_refusal, vector_refusal};
ghost use Rattle.asn1_headers.specs.declared.error.Err.TheVariants.{Error as refused};
ghost use Rattle.asn1_headers.specs.declared.error.Error.TheVariants as errors;
ghost use Rattle.asn1_headers.specs.declared.error.SerializeError.TheVariants as serialize_errors;
ghost use Rattle.asn1_headers.specs.Writer.{MayRefuse};

use crate::class::Class;
use crate::message::Message;
use crate::tag::Tag;
use crate::texts::{write_classes, write_tags};
use std::alloc::{AllocError, AllocFailed};
use std::io;
use std::str::Utf8Error;

/// How many octets are missing.
#[derive(Debug, Clone, Copy, PartialEq, Eq)]
pub enum Needed {
    /// Nobody knows how many. The library never answers this.
    Unknown,
    /// So many octets, at least one.
    Size(usize),
}

impl Needed {
    /// So many octets, where 0 means that nobody knows.
    pub fn new(n: usize) -> Needed
        ensures { result ≡ needed_of n }
    {
        if n == 0 {
            Needed::Unknown
        } else {
            Needed::Size(n)
        }
    }
}

/// What a reader answers in place of a value.
///
/// The library makes no `Failure`; one that a caller's reader makes is passed on.
#[derive(Debug, Clone, Drop, PartialEq, Eq)]
pub enum Err<E> {
    /// Octets are missing at the end of the input. At a value under an explicit tag, and at what a closure reads, they
    /// may be missing within a whole part. There more input does not help.
    Incomplete(Needed),
    /// The input is refused, whatever follows, unless memory was out. An input that ends within identifier octets in
    /// high form is refused with `InvalidTag` too, and more octets may help.
    Error(E),
    /// As `Error`, where no other reading may be tried.
    Failure(E),
}

/// What a reader answers over an input of type `I`: the rest and the value, or a refusal.
pub type IResult<I, O, E> = Result<(I, O), Err<E>>;

/// What a reader of octets answers: the octets that follow, and the value.
pub type ParseResult<'a, T, E> = IResult<&'a [u8], T, E>;

/// What a writer answers.
pub type SerializeResult<T> = Result<T, SerializeError>;

impl<E> Err<E> {
    /// The same refusal with its error converted. What is missing stays as it is.
    pub fn convert<F>(e: Err<F>) -> Err<E>
    where
        E: From<F>,
        ensures { Converted E.from_gives e result }
    {
        match e {
            Err::Incomplete(n) => Err::Incomplete(n),
            Err::Error(e) => Err::Error(E::from(e)),
            Err::Failure(e) => Err::Failure(E::from(e)),
        }
    }

    /// The same refusal with its error changed by the closure, which is not called on `Incomplete`.
    pub fn map<F, C: FnOnce(E) -> F + Drop>(self, f: C) -> Err<F>
        requires { ErrorIs (C.pre f) self }
        ensures { Converted (C.post f) self result }
    {
        match self {
            Err::Incomplete(n) => Err::Incomplete(n),
            Err::Error(e) => Err::Error(f(e)),
            Err::Failure(e) => Err::Failure(f(e)),
        }
    }

    /// Whether octets are missing.
    pub fn is_incomplete(&self) -> bool
        ensures { IsTrue result ↔ IsTruncated self.now }
    {
        matches!(self, Err::Incomplete(_))
    }
}

/// The error that a refusal holds, or error `Incomplete` where octets are missing.
pub fn from_nom_error<E, F>(e: Err<E>) -> F
where
    F: From<E> + From<Error>,
    ensures { FlattenedTo F.From-1.from_gives F.From-2.from_gives e result }
{
    match e {
        Err::Incomplete(n) => F::from(Error::Incomplete(n)),
        Err::Error(e) => F::from(e),
        Err::Failure(e) => F::from(e),
    }
}

/// A rule of DER that was broken (X.690, sections 10 and 11).
#[derive(Debug, Clone, Copy, PartialEq, Eq, thiserror::Error)]
pub enum DerConstraint {
    /// An indefinite length (10.1).
    #[error("indefinite length")]
    IndefiniteLength,
    /// A constructed encoding. The library never answers this.
    #[error("constructed encoding")]
    Constructed,
    /// A primitive encoding. The library never answers this.
    #[error("primitive encoding")]
    NotConstructed,
    /// A time that is not given in `Z` (11.7.1, 11.8.1).
    #[error("time zone missing")]
    MissingTimeZone,
    /// A time whose seconds are not as they must be (11.7.2, 11.8.2).
    #[error("seconds missing")]
    MissingSeconds,
    /// Unused bits of a bit string that are not zero (11.2.1).
    #[error("unused bits not zero")]
    UnusedBitsNotZero,
    /// A truth value other than 00 and ff (11.1).
    #[error("truth value neither 00 nor ff")]
    InvalidBoolean,
    /// An integer without contents octets (8.3.1).
    #[error("empty integer")]
    IntegerEmpty,
    /// An integer with a spare leading 00 (8.3.2).
    #[error("integer with spare leading zeros")]
    IntegerLeadingZeroes,
    /// An integer with a spare leading ff (8.3.2).
    #[error("integer with spare leading ff")]
    IntegerLeadingFF,
    /// Identifier octets that are not the shortest: the high form of a number up to 30, or a first digit of 0
    /// (8.1.2.2, 8.1.2.4).
    #[error("identifier octets not the shortest")]
    TagNotShortest,
    /// Length octets that are not the shortest (10.1).
    #[error("length octets not the shortest")]
    LengthNotShortest,
    /// Octets are left behind the last element of a part with a known number of elements. It is an explicit tag
    /// (8.14.2), or the fields of a sequence (8.9.2).
    #[error("trailing octets")]
    TrailingOctets,
}

/// Why a reading, a conversion or a count is refused.
#[derive(Debug, Clone, Drop, PartialEq, Eq, thiserror::Error)]
pub enum Error {
    /// For users; the library never answers this.
    #[error("invalid type")]
    BerTypeError,
    /// For users; the library never answers this.
    #[error("invalid value")]
    BerValueError,
    /// A length that announces what cannot be, or one that is not the type's; in counting, a sum past `usize`.
    #[error("invalid length")]
    InvalidLength,
    /// Contents octets that stand for no value of the type with this tag.
    #[error("invalid value of tag number {number}: {msg}", number = .tag.0)]
    InvalidValue {
        tag: Tag,
        msg: Message,
    },
    /// Identifier octets in high form that are cut, too long or too great.
    #[error("invalid tag")]
    InvalidTag,
    /// For users; the library never answers this.
    #[error("unknown tag {0}")]
    UnknownTag(u32),
    /// Another tag number. The text tells numbers alone, since the class is not known.
    #[error(fmt = write_tags)]
    UnexpectedTag {
        expected: Option<Tag>,
        actual: Tag,
    },
    /// Another class.
    #[error(fmt = write_classes)]
    UnexpectedClass {
        expected: Option<Class>,
        actual: Class,
    },
    /// An indefinite length where a definite one is asked for.
    #[error("indefinite length")]
    IndefiniteLengthUnexpected,
    /// A primitive encoding where a constructed one is asked for.
    #[error("constructed encoding expected")]
    ConstructExpected,
    /// A constructed encoding where a primitive one is asked for.
    #[error("primitive encoding expected")]
    ConstructUnexpected,
    /// An integer outside the range of its type.
    #[error("integer too large")]
    IntegerTooLarge,
    /// A negative integer for an unsigned type.
    #[error("negative integer")]
    IntegerNegative,
    /// Indefinite lengths that are nested too deep.
    #[error("nested too deep")]
    BerMaxDepth,
    /// Octets outside the character set of a string type.
    #[error("octets outside the character set")]
    StringInvalidCharset,
    /// A date or a time that there is not.
    #[error("invalid date or time")]
    InvalidDateTime,
    /// A rule of DER was broken.
    #[error("rule of DER broken: {0}")]
    DerConstraintFailed(DerConstraint),
    /// Borrowed octets were asked of an owned value.
    #[error("owned octets cannot be borrowed so long")]
    LifetimeError,
    /// For users; the library never answers this.
    #[error("not supported")]
    Unsupported,
    /// Octets are missing in a part of the input that is whole itself.
    #[error("within the contents octets {0}")]
    Incomplete(Needed),
    /// An allocation was refused.
    #[error("out of memory")]
    OutOfMemory,
}

impl Error {
    /// The refusal `InvalidValue` of these parts.
    pub fn invalid_value(tag: Tag, msg: Message) -> Error
        ensures { result ≡ Error.InvalidValue tag msg }
    {
        Error::InvalidValue { tag, msg }
    }

    /// The refusal `UnexpectedTag` of these parts.
    pub fn unexpected_tag(expected: Option<Tag>, actual: Tag) -> Error
        ensures { result ≡ Error.UnexpectedTag expected actual }
    {
        Error::UnexpectedTag { expected, actual }
    }

    /// The refusal `UnexpectedClass` of these parts.
    pub fn unexpected_class(expected: Option<Class>, actual: Class) -> Error
        ensures { result ≡ Error.UnexpectedClass expected actual }
    {
        Error::UnexpectedClass { expected, actual }
    }
}

impl From<Error> for Err<Error> {
    ghost from_gives = { λ e r. r ≡ refused e };

    fn from(e: Error) -> Err<Error> {
        Err::Error(e)
    }
}

impl From<Err<Error>> for Error {
    ghost from_gives = { FlattenedTo (λ e f. f ≡ e) (λ e f. f ≡ e) };

    fn from(e: Err<Error>) -> Error {
        match e {
            Err::Incomplete(n) => Error::Incomplete(n),
            Err::Error(e) => e,
            Err::Failure(e) => e,
        }
    }
}

/// Octets that are not UTF-8 are outside the character set, wherever the fault is.
impl From<Utf8Error> for Error {
    ghost from_gives = { λ _ e. e ≡ errors.StringInvalidCharset };

    fn from(_e: Utf8Error) -> Error {
        Error::StringInvalidCharset
    }
}

impl From<AllocError> for Error {
    ghost from_gives = { λ _ e. e ≡ errors.OutOfMemory };

    fn from(_e: AllocError) -> Error {
        Error::OutOfMemory
    }
}

impl<T: Drop> From<AllocFailed<T>> for Error {
    ghost from_gives = { λ _ e. e ≡ errors.OutOfMemory };

    fn from(_e: AllocFailed<T>) -> Error {
        Error::OutOfMemory
    }
}

/// Why a writing is refused.
#[derive(Debug, Drop, thiserror::Error)]
pub enum SerializeError {
    /// The value can't be written, or its parts can't be counted.
    #[error("ASN.1 error: {0}")]
    ASN1Error(Error),
    /// A class number above 3.
    #[error("invalid class {class}")]
    InvalidClass { class: u8 },
    /// The encoding would be longer than `usize` counts.
    #[error("invalid length")]
    InvalidLength,
    /// The writer failed, or took nothing.
    #[error("I/O error: {0}")]
    IOError(io::Error),
    /// An allocation was refused.
    #[error("out of memory")]
    OutOfMemory,
}

impl From<Error> for SerializeError {
    ghost from_gives = { λ e r. r ≡ serialize_errors.ASN1Error e };

    fn from(e: Error) -> SerializeError {
        SerializeError::ASN1Error(e)
    }
}

impl From<io::Error> for SerializeError {
    ghost from_gives = { λ e r. r ≡ serialize_errors.IOError e };

    fn from(e: io::Error) -> SerializeError {
        SerializeError::IOError(e)
    }
}

impl From<AllocError> for SerializeError {
    ghost from_gives = { λ _ r. r ≡ serialize_errors.OutOfMemory };

    fn from(_e: AllocError) -> SerializeError {
        SerializeError::OutOfMemory
    }
}

impl<T: Drop> From<AllocFailed<T>> for SerializeError {
    ghost from_gives = { λ _ r. r ≡ serialize_errors.OutOfMemory };

    fn from(_e: AllocFailed<T>) -> SerializeError {
        SerializeError::OutOfMemory
    }
}

/// What a refused count makes of a writing: a length past `usize` and out of memory have refusals of their own.
pub fn refusal_of_count(e: Error) -> SerializeError
    ensures { result ≡ written_refusal e }
{
    match e {
        Error::InvalidLength => SerializeError::InvalidLength,
        Error::OutOfMemory => SerializeError::OutOfMemory,
        e => SerializeError::ASN1Error(e),
    }
}

/// Out of memory in the place of a writer's failure.
pub fn without_io(e: SerializeError) -> SerializeError
    ensures refused { (n : ℕ) (allocates : Bool) → MayRefuse allocates n e →
        MayRefuse true n result }
    ensures io { tells_of_io result ≡ false }
    ensures same { result ≡ vector_refusal e }
{
    match e {
        SerializeError::IOError(_) => SerializeError::OutOfMemory,
        e => e,
    }
}
