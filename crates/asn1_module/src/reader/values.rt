//! Values (X.680 17), and named numbers.

use crate::mistake::{ModuleError, Place, Wrong};
use crate::reader::Reader;
use crate::scopes::check_distinct;
use crate::syntax::{NamedNumber, Span, ValueEntry, ValueSyntax, put_all};
use crate::tokens::{Token, TokenKind};

/// The number that digits say, if it is within 127 bits.
fn number_of(digits: &[u8]) -> Option<i128> {
    let mut number = 0i128;
    for digit in digits {
        let next = number.checked_mul(10)?;
        number = next.checked_add(digit.saturating_sub(b'0') as i128)?;
    }
    Some(number)
}

impl<'s, 't> Reader<'s, 't> {
    /// Puts a value behind the others, and answers its place.
    fn put_value(&mut self, place: Place, syntax: ValueSyntax<'t>) -> Result<usize, ModuleError> {
        let at = self.syntax.values.len();
        let module = self.module;
        self.syntax.values.push(ValueEntry {
            module,
            governor: "",
            place,
            syntax,
        })?;
        Ok(at)
    }

    /// Reads the value that a name is assigned to, behind the name. Its type, and what a macro puts there, is skipped.
    pub(crate) fn read_assigned_value(&mut self) -> Result<usize, ModuleError> {
        let governor = if self.is_kind(0, TokenKind::Reference) && self.is_at(1, "::=") {
            self.word()
        } else {
            ""
        };
        self.skip_behind("::=")?;
        let at = self.read_value()?;
        if let Some(entry) = self.syntax.values.get_mut(at) {
            entry.governor = governor;
        }
        Ok(at)
    }

    /// Reads a value, and answers its place.
    pub(crate) fn read_value(&mut self) -> Result<usize, ModuleError> {
        let place = self.place();
        let is_chosen = self.skip_choices();
        let syntax = self.read_value_syntax()?;
        if is_chosen {
            return self.put_value(place, ValueSyntax::Unread);
        }
        self.put_value(place, syntax)
    }

    /// Goes behind the names of arms, and tells whether there were any.
    fn skip_choices(&mut self) -> bool {
        let mut is_chosen = false;
        for _ in 0..self.left() {
            if !self.is_at(1, ":") {
                break;
            }
            self.advance();
            self.advance();
            is_chosen = true;
        }
        is_chosen
    }

    /// Reads a value that is not of a choice.
    fn read_value_syntax(&mut self) -> Result<ValueSyntax<'t>, ModuleError> {
        if self.is("{") {
            return self.read_braces();
        }
        let is_negative = self.takes("-");
        let Some(token) = self.token(0) else {
            return Err(self.expected("a value"));
        };
        match token.kind {
            TokenKind::Number => self.read_number(is_negative, token),
            TokenKind::Text => Ok(self.taken(ValueSyntax::Text(token.octets))),
            TokenKind::Bits => Ok(self.taken(ValueSyntax::Bits(token.octets))),
            TokenKind::Hexadecimal => Ok(self.taken(ValueSyntax::Hexadecimal(token.octets))),
            TokenKind::Identifier => {
                self.advance();
                self.read_behind_name(ValueSyntax::Reference(None, token.word()))
            }
            TokenKind::Reference => self.read_value_word(token),
            _ => Err(self.expected("a value")),
        }
    }

    /// Reads a value in braces. One that is neither arcs nor names is not read.
    fn read_braces(&mut self) -> Result<ValueSyntax<'t>, ModuleError> {
        let before = self.at;
        if let Some(syntax) = self.read_arcs()? {
            return Ok(syntax);
        }
        self.at = before;
        self.skip_brackets()?;
        Ok(ValueSyntax::Unread)
    }

    /// Reads arcs, or names with commas between, or as far as there are such.
    fn read_arcs(&mut self) -> Result<Option<ValueSyntax<'t>>, ModuleError> {
        self.advance();
        if self.takes("}") {
            return Ok(Some(ValueSyntax::Empty));
        }
        let mut arcs = Vec::new(self.alloc);
        let has_commas = self.is_at(1, ",");
        for _ in 0..self.left() {
            let Some(arc) = self.read_arc()? else {
                break;
            };
            arcs.push(arc)?;
            if self.takes("}") {
                let span = put_all(&mut self.syntax.arcs, &arcs)?;
                return Ok(Some(if has_commas {
                    ValueSyntax::Names(span)
                } else {
                    ValueSyntax::Arcs(span)
                }));
            }
            if has_commas && !self.takes(",") {
                break;
            }
        }
        Ok(None)
    }

    /// Reads an arc: a number, a name, or both, of which the number counts (X.680 32.3).
    fn read_arc(&mut self) -> Result<Option<usize>, ModuleError> {
        let place = self.place();
        if self.is_kind(0, TokenKind::Identifier) && self.is_at(1, "(") {
            self.advance();
            self.advance();
            let number = self.read_arc_value(place)?;
            return Ok(if self.takes(")") { number } else { None });
        }
        self.read_arc_value(place)
    }

    /// Reads the value of an arc: a number, or the name of a value.
    fn read_arc_value(&mut self, place: Place) -> Result<Option<usize>, ModuleError> {
        let Some(token) = self.token(0) else {
            return Ok(None);
        };
        let syntax = match token.kind {
            TokenKind::Number => match number_of(token.octets) {
                None => return Ok(None),
                Some(number) => ValueSyntax::Integer(number),
            },
            TokenKind::Identifier => ValueSyntax::Reference(None, token.word()),
            TokenKind::Reference => {
                if !self.is_at(1, ".") || !self.is_kind(2, TokenKind::Identifier) {
                    return Ok(None);
                }
                self.advance();
                self.advance();
                ValueSyntax::Reference(Some(token.word()), self.word())
            }
            _ => return Ok(None),
        };
        self.advance();
        Ok(Some(self.put_value(place, syntax)?))
    }

    /// Goes behind the token of a value.
    fn taken(&mut self, syntax: ValueSyntax<'t>) -> ValueSyntax<'t> {
        self.advance();
        syntax
    }

    /// Reads a number. One with a fraction is not read.
    fn read_number(
        &mut self,
        is_negative: bool,
        token: Token<'t>,
    ) -> Result<ValueSyntax<'t>, ModuleError> {
        self.advance();
        if self.is(".") && self.is_kind(1, TokenKind::Number) {
            self.advance();
            self.advance();
            return Ok(ValueSyntax::Unread);
        }
        match number_of(token.octets) {
            None => Ok(ValueSyntax::Unread),
            Some(number) => {
                let signed = if is_negative {
                    number.checked_neg()
                } else {
                    Some(number)
                };
                match signed {
                    None => Ok(ValueSyntax::Unread),
                    Some(number) => Ok(ValueSyntax::Integer(number)),
                }
            }
        }
    }

    /// Reads a value that begins with a word with a capital letter.
    fn read_value_word(&mut self, token: Token<'t>) -> Result<ValueSyntax<'t>, ModuleError> {
        self.advance();
        let word = token.word();
        match word {
            "TRUE" => return Ok(ValueSyntax::Boolean(true)),
            "FALSE" => return Ok(ValueSyntax::Boolean(false)),
            "NULL" => return Ok(ValueSyntax::Null),
            _ => (),
        }
        if self.is(".") && self.is_kind(1, TokenKind::Identifier) {
            self.advance();
            let name = self.expect_word(TokenKind::Identifier, "a value")?;
            return self.read_behind_name(ValueSyntax::Reference(Some(word), name));
        }
        self.read_behind_name(ValueSyntax::Unread)
    }

    /// Reads what follows the name of a value: fields of an object, or parameters, so that the value is not read.
    fn read_behind_name(
        &mut self,
        syntax: ValueSyntax<'t>,
    ) -> Result<ValueSyntax<'t>, ModuleError> {
        let mut read = syntax;
        for _ in 0..self.left() {
            if !self.is(".") || !self.is_kind(1, TokenKind::ClassField) {
                break;
            }
            self.advance();
            self.advance();
            read = ValueSyntax::Unread;
        }
        if self.is("{") {
            self.skip_brackets()?;
            read = ValueSyntax::Unread;
        }
        Ok(read)
    }

    /// Reads named numbers in braces, and tells whether there is an extension mark. Listed numbers may have none.
    pub(crate) fn read_numbers(&mut self, listed: bool) -> Result<(Span, bool), ModuleError> {
        let mut list = Vec::new(self.alloc);
        let mut is_open = false;
        self.expect("{")?;
        for _ in 0..self.left() {
            if listed && self.takes("...") {
                is_open = true;
            } else {
                list.push(self.read_named(listed, is_open)?)?;
            }
            if self.takes("}") {
                break;
            }
            self.expect(",")?;
        }
        self.check_numbers(&list)?;
        let span = put_all(&mut self.syntax.numbers, &list)?;
        Ok((span, is_open || self.environment.extensible))
    }

    /// Tells whether named numbers have different names.
    fn check_numbers(&self, list: &[NamedNumber<'t>]) -> Result<(), ModuleError> {
        let mut names = Vec::new(self.alloc);
        for named in list {
            names.push((named.name, named.place))?;
        }
        check_distinct(self.alloc, &names)
    }

    /// Reads a named number.
    fn read_named(
        &mut self,
        listed: bool,
        is_addition: bool,
    ) -> Result<NamedNumber<'t>, ModuleError> {
        let place = self.place();
        let name = self.expect_word(TokenKind::Identifier, "a name")?;
        if listed && !self.is("(") {
            return Ok(NamedNumber {
                name,
                place,
                number: None,
                is_addition,
            });
        }
        self.expect("(")?;
        let number = self.read_value()?;
        self.expect(")")?;
        Ok(NamedNumber {
            name,
            place,
            number: Some(number),
            is_addition,
        })
    }

    /// Reads the number of a tag.
    pub(crate) fn read_tag_number(&mut self) -> Result<u32, ModuleError> {
        let place = self.place();
        let digits = self.expect_word(TokenKind::Number, "the number of a tag")?;
        let Some(number) = number_of(digits.as_bytes()) else {
            return Err(place.error(Wrong::Number));
        };
        match u32::try_from(number) {
            Ok(number) => Ok(number),
            Err(_) => Err(place.error(Wrong::Number)),
        }
    }
}
