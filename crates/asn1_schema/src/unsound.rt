//! Why a table is not sound, in numbers and in names.

use crate::names::{TypeNames, write_part, write_type};
use crate::schema::TypeTag;
use std::fmt;

/// What two types have in common whose tags must be apart.
#[derive(Debug, Clone, Copy, PartialEq, Eq)]
pub enum Shared {
    /// This tag.
    Tag(TypeTag),
    /// All tags but some.
    Many,
}

/// What is wrong with a type.
#[derive(Debug, Clone, Copy, PartialEq, Eq)]
pub enum TypeFault {
    /// This tag has a class above 3 (X.690 8.1.2.2).
    Class(TypeTag),
    /// The type does not have one tag.
    NotOneTag,
    /// A field may be left out, and another one that may follow it has a tag in common with it (X.680 25.6). Or two
    /// fields of a set have one in common (X.680 27.3).
    Fields(usize, usize, Shared),
    /// A field may be left out, and the unknown elements that may follow it have a tag in common with it. In a set no
    /// field may have one.
    Unknown(usize, Shared),
    /// Two arms have a tag in common (X.680 29.3).
    Arms(usize, usize, Shared),
    /// A choice does not have all tags of this arm.
    ArmTags(usize),
    /// Bounds do not have all tags of the type that they are on.
    InnerTags,
    /// A choice or bounds lead to this place, which is not before their own. It may be outside the table.
    LeadsAhead(usize),
}

/// Why a table is not sound.
///
/// The first type is told whose parts are not told apart, or that has wrong tags. Where there is none, the first one is
/// told that leads ahead.
#[derive(Debug, Clone, Copy, PartialEq, Eq)]
pub struct Unsound {
    /// The place of the type.
    pub of: usize,
    /// What is wrong with it.
    pub fault: TypeFault,
}

/// The reason as one line, by the names of a table where it has them.
#[derive(Debug, Clone, Copy)]
pub struct UnsoundByName<'s, 'n> {
    /// The reason.
    pub unsound: Unsound,
    /// The names of the types, each at the place of its type. There may be none.
    pub names: &'s [TypeNames<'n>],
}

impl Unsound {
    /// The reason as one line by these names.
    pub fn by_name<'s, 'n>(self, names: &'s [TypeNames<'n>]) -> UnsoundByName<'s, 'n> {
        UnsoundByName {
            unsound: self,
            names,
        }
    }
}

impl fmt::Display for Shared {
    fn fmt<W: fmt::Write>(&self, f: &mut fmt::Formatter<W>) -> fmt::Result {
        match self {
            Shared::Tag(tag) => write!(f, "the tag {tag}"),
            Shared::Many => write!(f, "all tags but some"),
        }
    }
}

impl fmt::Display for TypeTag {
    fn fmt<W: fmt::Write>(&self, f: &mut fmt::Formatter<W>) -> fmt::Result {
        let number = self.number;
        match self.class {
            0 => write!(f, "[UNIVERSAL {number}]"),
            1 => write!(f, "[APPLICATION {number}]"),
            2 => write!(f, "[{number}]"),
            3 => write!(f, "[PRIVATE {number}]"),
            class => write!(f, "{number} of class {class}"),
        }
    }
}

/// Writes two parts of a type, and what they have in common.
fn write_meeting<W: fmt::Write>(
    f: &mut fmt::Formatter<W>,
    own: Option<&TypeNames<'_>>,
    parts: (usize, usize),
    shared: Shared,
) -> fmt::Result {
    write_part(f, own, parts.0)?;
    write!(f, " and ")?;
    write_part(f, own, parts.1)?;
    write!(f, " have {shared} in common")
}

impl fmt::Display for UnsoundByName<'_, '_> {
    fn fmt<W: fmt::Write>(&self, f: &mut fmt::Formatter<W>) -> fmt::Result {
        let of = self.unsound.of;
        let own = self.names.get(of);
        write_type(f, self.names, of)?;
        match self.unsound.fault {
            TypeFault::Class(tag) => write!(f, ": the tag {tag}"),
            TypeFault::NotOneTag => write!(f, ": not one tag"),
            TypeFault::Fields(field, other, shared) => {
                write!(f, ": the fields ")?;
                write_meeting(f, own, (field, other), shared)
            }
            TypeFault::Unknown(field, shared) => {
                write!(f, ": the field ")?;
                write_part(f, own, field)?;
                write!(f, " and unknown elements have {shared} in common")
            }
            TypeFault::Arms(arm, other, shared) => {
                write!(f, ": the arms ")?;
                write_meeting(f, own, (arm, other), shared)
            }
            TypeFault::ArmTags(arm) => {
                write!(f, ": not all tags of the arm ")?;
                write_part(f, own, arm)
            }
            TypeFault::InnerTags => write!(f, ": not all tags of the type within bounds"),
            TypeFault::LeadsAhead(place) => {
                write!(f, ": leads to ")?;
                write_type(f, self.names, place)?;
                write!(f, ", which does not stand before it")
            }
        }
    }
}

impl fmt::Display for Unsound {
    fn fmt<W: fmt::Write>(&self, f: &mut fmt::Formatter<W>) -> fmt::Result {
        let line = self.by_name(&[]);
        write!(f, "{line}")
    }
}
