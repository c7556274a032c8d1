//! Classes of tags (X.690 8.1.2.2).
ghost use Rattle.std.specs.Prelude.{◌≡◌, ◌≢◌, Some, MatchResult};
ghost use Rattle.asn1_headers.specs.Class.{class_number, class_text, ClassOf};
ghost use Rattle.asn1_headers.specs.declared.class.Class.TheVariants as classes;
ghost use Rattle.asn1_headers.specs.declared.error.Error.TheVariants as errors;

use crate::error::Error;
use std::fmt;

/// The class of a tag: bits 8 and 7 of the first identifier octet (X.690 8.1.2.2, table 1).
#[derive(Debug, Clone, Copy, PartialEq, Eq)]
pub enum Class {
    /// Types that X.680 itself defines: bits 00.
    Universal = 0,
    /// Types of one application: bits 01.
    Application = 1,
    /// A type by its place within another one: bits 10.
    ContextSpecific = 2,
    /// Types of one enterprise: bits 11.
    Private = 3,
}

/// No class has the number.
#[derive(Debug, Clone, Copy, PartialEq, Eq)]
pub struct BerClassFromIntError(());

impl Class {
    /// The number of `Universal`.
    pub const UNIVERSAL: u8 = 0;
    /// The number of `Application`.
    pub const APPLICATION: u8 = 1;
    /// The number of `ContextSpecific`.
    pub const CONTEXT_SPECIFIC: u8 = 2;
    /// The number of `Private`.
    pub const PRIVATE: u8 = 3;

    /// Refuses another class with `UnexpectedClass`: the one given is expected, and this one is the actual one.
    pub fn assert_eq(&self, class: Class) -> Result<(), Error>
        ensures { MatchResult result (λ _. self.now ≡ class)
            (λ e. (self.now ≢ class) × (e ≡ errors.UnexpectedClass (Some class) self.now)) }
    {
        if *self == class {
            Ok(())
        } else {
            Err(Error::unexpected_class(Some(class), *self))
        }
    }

    /// The number of the class, which is that of the variant.
    pub fn number(self) -> u8
        ensures { result ≡ class_number self }
    {
        self as u8
    }
}

/// Each constant has the number of its class (X.690 8.1.2.2, table 1), as `class as u8` has.
///
/// A law: nothing runs.
pub fn classes_are_numbered()
    ensures universal { Class.UNIVERSAL ≡ class_number classes.Universal }
    ensures application { Class.APPLICATION ≡ class_number classes.Application }
    ensures context_specific { Class.CONTEXT_SPECIFIC ≡ class_number classes.ContextSpecific }
    ensures private { Class.PRIVATE ≡ class_number classes.Private }
{}

impl TryFrom<u8> for Class {
    type Error = BerClassFromIntError;

    ghost try_from_gives = { ClassOf };

    fn try_from(value: u8) -> Result<Class, BerClassFromIntError> {
        match value {
            0 => Ok(Class::Universal),
            1 => Ok(Class::Application),
            2 => Ok(Class::ContextSpecific),
            3 => Ok(Class::Private),
            _ => Err(BerClassFromIntError(())),
        }
    }
}

impl fmt::Display for Class {
    ghost output = { λ class. Some (class_text class) };

    fn fmt<W: fmt::Write>(&self, f: &mut fmt::Formatter<W>) -> fmt::Result {
        match self {
            Class::Universal => write!(f, "UNIVERSAL"),
            Class::Application => write!(f, "APPLICATION"),
            Class::ContextSpecific => write!(f, "CONTEXT-SPECIFIC"),
            Class::Private => write!(f, "PRIVATE"),
        }
    }
}
