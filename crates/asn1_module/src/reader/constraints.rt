//! Constraints (X.680 49 to 51): ranges of numbers and sizes, and unions of these. Others are noted.

use crate::mistake::{ModuleError, Place};
use crate::reader::Reader;
use crate::syntax::{End, LeftOut, NumberRange, Span, TypeSyntax, put_all};
use crate::tokens::TokenKind;

impl<'s, 't> Reader<'s, 't> {
    /// Reads the constraints behind a type, and answers the place of the type with these.
    pub(crate) fn read_constraints(
        &mut self,
        place: Place,
        of: usize,
    ) -> Result<usize, ModuleError> {
        let mut constrained = of;
        for _ in 0..self.left() {
            if !self.is("(") {
                break;
            }
            if let Some((is_size, ranges)) = self.read_constraint()? {
                let syntax = TypeSyntax::Within(constrained, is_size, ranges);
                constrained = self.put_type("", place, syntax)?;
            }
        }
        Ok(constrained)
    }

    /// Reads a constraint in parentheses: whether it is on sizes, and its ranges. Another one is noted.
    pub(crate) fn read_constraint(&mut self) -> Result<Option<(bool, Span)>, ModuleError> {
        let before = self.at;
        let place = self.place();
        if let Some(read) = self.read_ranges_in_parentheses()? {
            return Ok(Some(read));
        }
        self.at = before;
        self.skip_brackets()?;
        self.note(LeftOut::Constraint, place)?;
        Ok(None)
    }

    /// Reads a constraint, or as far as it is one of ranges.
    fn read_ranges_in_parentheses(&mut self) -> Result<Option<(bool, Span)>, ModuleError> {
        self.advance();
        let is_size = self.takes("SIZE");
        if is_size && !self.takes("(") {
            return Ok(None);
        }
        let Some(ranges) = self.read_ranges()? else {
            return Ok(None);
        };
        if is_size && !self.takes(")") {
            return Ok(None);
        }
        if !self.takes(")") {
            return Ok(None);
        }
        Ok(Some((is_size, ranges)))
    }

    /// Reads ranges with bars between them.
    fn read_ranges(&mut self) -> Result<Option<Span>, ModuleError> {
        let mut list = Vec::new(self.alloc);
        for _ in 0..self.left() {
            let Some(range) = self.read_range()? else {
                return Ok(None);
            };
            list.push(range)?;
            if !self.takes("|") && !self.takes("UNION") {
                break;
            }
        }
        Ok(Some(put_all(&mut self.syntax.ranges, &list)?))
    }

    /// Reads a range, or one number.
    fn read_range(&mut self) -> Result<Option<NumberRange>, ModuleError> {
        let Some(lower) = self.read_end("MIN")? else {
            return Ok(None);
        };
        if !self.takes("..") {
            return Ok(match lower {
                End::Open => None,
                End::Value(_) => Some(NumberRange {
                    lower,
                    upper: lower,
                }),
            });
        }
        let Some(upper) = self.read_end("MAX")? else {
            return Ok(None);
        };
        Ok(Some(NumberRange { lower, upper }))
    }

    /// Reads an end of a range, which this word leaves open.
    fn read_end(&mut self, open: &str) -> Result<Option<End>, ModuleError> {
        if self.takes(open) {
            return Ok(Some(End::Open));
        }
        let is_number = self.is("-")
            || self.is_kind(0, TokenKind::Number)
            || self.is_kind(0, TokenKind::Identifier);
        if !is_number {
            return Ok(None);
        }
        Ok(Some(End::Value(self.read_value()?)))
    }
}
