//! What values are: names of values are followed, listed numbers without a number get one, and ranges are joined.

use crate::mistake::{ModuleError, Wrong};
use crate::reader::MOST_DEPTH;
use crate::scopes::Scopes;
use crate::syntax::{
    End, Meaning, NamedNumber, NumberRange, Span, Syntax, TypeSyntax, ValueEntry, ValueSyntax, part,
};
use asn1_schema::names::{PartName, label};
use std::alloc::Global;

/// Through how many names a value may lead.
pub(crate) const MOST_NAMES: usize = 64;

/// The texts and their names.
#[derive(Debug, Clone, Copy)]
pub(crate) struct Texts<'s, 't> {
    /// What the texts say.
    pub syntax: &'s Syntax<'t>,
    /// The names.
    pub scopes: &'s Scopes<'t>,
}

impl<'s, 't> Texts<'s, 't> {
    /// The place of the value that a name stands for.
    fn named_value(self, module: usize, from: Option<&str>, name: &str) -> Option<usize> {
        let named = self.scopes.resolve(self.syntax, module, from, name)?;
        match named.meaning {
            Meaning::Value(of) => Some(of),
            _ => None,
        }
    }

    /// What the value at a place is, behind its names.
    pub(crate) fn value(self, at: usize) -> ValueSyntax<'t> {
        let mut next = at;
        for _ in 0..MOST_NAMES {
            let Some(entry) = self.syntax.values.get(next) else {
                return ValueSyntax::Unread;
            };
            let ValueSyntax::Reference(from, name) = entry.syntax else {
                return entry.syntax;
            };
            match self.named_value(entry.module, from, name) {
                Some(of) => next = of,
                None => return ValueSyntax::Unread,
            }
        }
        ValueSyntax::Unread
    }

    /// The number that the value at a place is, where these numbers have names.
    pub(crate) fn number(self, at: usize, labels: &[PartName<'_>]) -> Option<i128> {
        let entry = self.syntax.values.get(at)?;
        if let ValueSyntax::Reference(None, name) = entry.syntax {
            if let Some(number) = labelled(labels, name) {
                return Some(number);
            }
        }
        self.integer(at)
    }

    /// The number that the value at a place is, where a name may be one that the type of a value gives to a number.
    fn integer(self, at: usize) -> Option<i128> {
        let mut next = at;
        for _ in 0..MOST_NAMES {
            let entry = self.syntax.values.get(next)?;
            match entry.syntax {
                ValueSyntax::Integer(number) => return Some(number),
                ValueSyntax::Reference(from, name) => {
                    if let (None, Some(number)) = (from, self.governed(entry, name)) {
                        return Some(number);
                    }
                    next = self.named_value(entry.module, from, name)?;
                }
                _ => return None,
            }
        }
        None
    }

    /// The number to which the type of a value gives this name (X.680 19), if that number is written there.
    fn governed(self, entry: &ValueEntry<'t>, name: &str) -> Option<i128> {
        for named in part(&self.syntax.numbers, self.named_by(entry)?) {
            if named.name == name {
                return match self.syntax.values.get(named.number?)?.syntax {
                    ValueSyntax::Integer(number) => Some(number),
                    _ => None,
                };
            }
        }
        None
    }

    /// The numbers to which the type of a value gives names, if it is an INTEGER.
    fn named_by(self, entry: &ValueEntry<'t>) -> Option<Span> {
        let (mut module, mut from, mut name) = (entry.module, None, entry.governor);
        for _ in 0..MOST_NAMES {
            let named = self.scopes.resolve(self.syntax, module, from, name)?;
            let Meaning::Type(of) = named.meaning else {
                return None;
            };
            let of = self.syntax.types.get(self.inner(of))?;
            match of.syntax {
                TypeSyntax::Integer(span) => return Some(span),
                TypeSyntax::Reference(other, of_name) => {
                    module = of.module;
                    from = other;
                    name = of_name;
                }
                _ => return None,
            }
        }
        None
    }

    /// The type in the tags and constraints of the type at a place.
    fn inner(self, of: usize) -> usize {
        let mut at = of;
        for _ in 0..MOST_DEPTH {
            match self.syntax.types.get(at).map(|entry| entry.syntax) {
                Some(TypeSyntax::Tagged(_, _, next)) => at = next,
                Some(TypeSyntax::Within(next, _, _)) => at = next,
                _ => break,
            }
        }
        at
    }

    /// The number of an enumeration that the value at a place is. Values of other names are of the enumeration too.
    pub(crate) fn listed(self, at: usize, labels: &[PartName<'_>]) -> Option<i128> {
        let mut next = at;
        for _ in 0..MOST_NAMES {
            let entry = self.syntax.values.get(next)?;
            let ValueSyntax::Reference(from, name) = entry.syntax else {
                return None;
            };
            if from.is_none() {
                if let Some(number) = labelled(labels, name) {
                    return Some(number);
                }
            }
            next = self.named_value(entry.module, from, name)?;
        }
        None
    }

    /// The numbers that have names.
    pub(crate) fn named_numbers(
        self,
        alloc: Global,
        span: Span,
    ) -> Result<Vec<PartName<'t>>, ModuleError> {
        let mut labels = Vec::new(alloc);
        for named in part(&self.syntax.numbers, span) {
            match self.given(named)? {
                Some(number) => labels.push(label(named.name, number))?,
                None => return Err(named.place.error(Wrong::NoNumber)),
            }
        }
        self.check_numbers(alloc, span, &labels)?;
        Ok(labels)
    }

    /// Checks that no two names have one number. The refusal stands at the second one.
    fn check_numbers(
        self,
        alloc: Global,
        span: Span,
        labels: &[PartName<'t>],
    ) -> Result<(), ModuleError> {
        let mut numbers = Vec::new(alloc);
        for (place, label) in labels.iter().enumerate() {
            numbers.push((label.number, place))?;
        }
        numbers.sort_unstable();
        let named = part(&self.syntax.numbers, span);
        match repeated(&numbers).and_then(|place| named.get(place)) {
            None => Ok(()),
            Some(second) => Err(second.place.error(Wrong::SameNumber)),
        }
    }

    /// The number that is written for a name, if one is.
    fn given(self, named: &NamedNumber<'t>) -> Result<Option<i128>, ModuleError> {
        match named.number {
            None => Ok(None),
            Some(at) => match self.number(at, &[]) {
                Some(number) => Ok(Some(number)),
                None => Err(named.place.error(Wrong::NoNumber)),
            },
        }
    }

    /// The numbers that are written, sorted.
    fn given_numbers(self, alloc: Global, span: Span) -> Result<Vec<i128>, ModuleError> {
        let mut numbers = Vec::new(alloc);
        for named in part(&self.syntax.numbers, span) {
            if let Some(number) = self.given(named)? {
                numbers.push(number)?;
            }
        }
        numbers.sort_unstable();
        Ok(numbers)
    }

    /// The numbers of an enumeration. Where none is written, it is the least that is not written for another one (X.680
    /// 20.3). Behind the extension mark it is more than those before (20.5).
    pub(crate) fn listed_numbers(
        self,
        alloc: Global,
        span: Span,
    ) -> Result<Vec<PartName<'t>>, ModuleError> {
        let given = self.given_numbers(alloc, span)?;
        let mut labels = Vec::new(alloc);
        let mut left = given.as_slice();
        let mut next = 0i128;
        for named in part(&self.syntax.numbers, span) {
            let number = match self.given(named)? {
                Some(number) => number,
                None => {
                    let (free, behind) = free_number(left, next);
                    left = behind;
                    free
                }
            };
            if named.number.is_none() || (named.is_addition && next <= number) {
                next = number.saturating_add(1);
            }
            labels.push(label(named.name, number))?;
        }
        self.check_numbers(alloc, span, &labels)?;
        Ok(labels)
    }

    /// The least and the most of ranges whose union is one range. `None` where it is not, or an end is not known.
    pub(crate) fn hull(
        self,
        alloc: Global,
        span: Span,
        labels: &[PartName<'_>],
    ) -> Result<Option<(Option<i128>, Option<i128>)>, ModuleError> {
        let mut list = Vec::new(alloc);
        for range in part(&self.syntax.ranges, span) {
            match self.range(range, labels) {
                Some(ends) => list.push(ends)?,
                None => return Ok(None),
            }
        }
        list.sort_unstable();
        Ok(joined(&list))
    }

    /// The ends of a range. An open one is the least or the most number there is.
    fn range(self, range: &NumberRange, labels: &[PartName<'_>]) -> Option<(i128, i128)> {
        let lower = match range.lower {
            End::Open => i128::MIN,
            End::Value(at) => self.number(at, labels)?,
        };
        let upper = match range.upper {
            End::Open => i128::MAX,
            End::Value(at) => self.number(at, labels)?,
        };
        Some((lower, upper))
    }
}

/// The number that has this name.
pub(crate) fn labelled(labels: &[PartName<'_>], name: &str) -> Option<i128> {
    for named in labels {
        if named.name == name {
            return Some(named.number);
        }
    }
    None
}

/// The place of the second one of two equal numbers, of numbers that ascend.
fn repeated(numbers: &[(i128, usize)]) -> Option<usize> {
    let (first, others) = numbers.split_first()?;
    let mut before = first.0;
    for (number, place) in others {
        if *number == before {
            return Some(*place);
        }
        before = *number;
    }
    None
}

/// The least number from this one on that is not among others, which ascend, and those of them that are more.
fn free_number(given: &[i128], least: i128) -> (i128, &[i128]) {
    let mut left = given;
    let mut free = least;
    while let Some((first, others)) = left.split_first() {
        if *first > free {
            break;
        }
        if *first == free {
            free = free.saturating_add(1);
        }
        left = others;
    }
    (free, left)
}

/// The union of ranges that are sorted, if it is one range.
fn joined(list: &[(i128, i128)]) -> Option<(Option<i128>, Option<i128>)> {
    let (first, others) = list.split_first()?;
    let (lower, mut upper) = *first;
    for (least, most) in others {
        if *least > upper.saturating_add(1) {
            return None;
        }
        upper = upper.max(*most);
    }
    let lower = if lower == i128::MIN {
        None
    } else {
        Some(lower)
    };
    let upper = if upper == i128::MAX {
        None
    } else {
        Some(upper)
    };
    Some((lower, upper))
}
