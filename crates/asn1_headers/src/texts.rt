//! What people read of refusals: in lower case, without a full stop, tags by their numbers, classes by their names. The
//! class of a tag is not known where it is told of, so the name of a universal type is not said.
ghost use Rattle.std.specs.Prelude.{Some, codes};
ghost use Rattle.asn1_headers.specs.Texts.{class_name, needed_text, err_text, unexpected_text};

use crate::class::{BerClassFromIntError, Class};
use crate::error::{Err, Needed};
use crate::tag::Tag;
use std::fmt;

impl fmt::Display for Needed {
    ghost output = { λ needed. Some (needed_text needed) };

    fn fmt<W: fmt::Write>(&self, f: &mut fmt::Formatter<W>) -> fmt::Result {
        match self {
            Needed::Unknown => write!(f, "octets are missing"),
            Needed::Size(1) => write!(f, "1 octet is missing"),
            Needed::Size(n) => write!(f, "{n} octets are missing"),
        }
    }
}

impl<E: fmt::Display> fmt::Display for Err<E> {
    ghost output = { err_text E.output };

    fn fmt<W: fmt::Write>(&self, f: &mut fmt::Formatter<W>) -> fmt::Result {
        match self {
            Err::Incomplete(needed) => write!(f, "{needed}"),
            Err::Error(e) => write!(f, "{e}"),
            Err::Failure(e) => write!(f, "{e}"),
        }
    }
}

impl<E: fmt::Debug + fmt::Display + Drop> std::error::Error for Err<E> {}

impl fmt::Display for BerClassFromIntError {
    ghost output = { λ _. Some (codes "no class has this number") };

    fn fmt<W: fmt::Write>(&self, f: &mut fmt::Formatter<W>) -> fmt::Result {
        write!(f, "no class has this number")
    }
}

impl std::error::Error for BerClassFromIntError {}

/// The name of a class.
#[derive(Drop)]
struct ClassName(Class);

impl fmt::Display for ClassName {
    ghost output = { λ name. Some (class_name name.0) };

    fn fmt<W: fmt::Write>(&self, f: &mut fmt::Formatter<W>) -> fmt::Result {
        match self.0 {
            Class::Universal => write!(f, "Universal"),
            Class::Application => write!(f, "Application"),
            Class::ContextSpecific => write!(f, "ContextSpecific"),
            Class::Private => write!(f, "Private"),
        }
    }
}

/// Which part is expected, if one is, and which one was found.
#[derive(Drop)]
struct Unexpected<T> {
    what: &'static str,
    expected: Option<T>,
    actual: T,
}

impl<T: fmt::Display> fmt::Display for Unexpected<T> {
    ghost output = { λ u. unexpected_text T.output u.what.now u.expected u.actual };

    fn fmt<W: fmt::Write>(&self, f: &mut fmt::Formatter<W>) -> fmt::Result {
        let what = self.what;
        let actual = &self.actual;
        match &self.expected {
            Some(expected) => write!(f, "expected {what} {expected}, found {actual}"),
            None => write!(f, "unexpected {what} {actual}"),
        }
    }
}

/// Writes which tag number is expected and which one was found.
pub(crate) fn write_tags<W: fmt::Write>(
    expected: &Option<Tag>,
    actual: &Tag,
    f: &mut fmt::Formatter<W>,
) -> fmt::Result {
    let text = Unexpected {
        what: "tag number",
        expected: expected.map(|tag| tag.0),
        actual: actual.0,
    };
    write!(f, "{text}")
}

/// Writes which class is expected and which one was found.
pub(crate) fn write_classes<W: fmt::Write>(
    expected: &Option<Class>,
    actual: &Class,
    f: &mut fmt::Formatter<W>,
) -> fmt::Result {
    let text = Unexpected {
        what: "class",
        expected: expected.map(ClassName),
        actual: ClassName(*actual),
    };
    write!(f, "{text}")
}
