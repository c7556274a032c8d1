//! Types (X.680 17 to 48), read by functions that call each other. No clause says what is read: `tests_module` asks.

use crate::mistake::{ModuleError, Place, Wrong};
use crate::reader::Reader;
use crate::syntax::{Appearance, Row, Span, TagMode, TypeSyntax, part};
use crate::tokens::TokenKind;
use asn1_schema::schema::{TextKind, TypeTag};

/// The character string type of a name (X.680 41).
fn text_kind(word: &str) -> Option<TextKind> {
    Some(match word {
        "UTF8String" => TextKind::Utf8,
        "NumericString" => TextKind::Numeric,
        "PrintableString" => TextKind::Printable,
        "TeletexString" => TextKind::Teletex,
        "T61String" => TextKind::Teletex,
        "VideotexString" => TextKind::Videotex,
        "IA5String" => TextKind::Ia5,
        "GraphicString" => TextKind::Graphic,
        "VisibleString" => TextKind::Visible,
        "ISO646String" => TextKind::Visible,
        "GeneralString" => TextKind::General,
        "UniversalString" => TextKind::Universal,
        "BMPString" => TextKind::Bmp,
        "ObjectDescriptor" => TextKind::Descriptor,
        _ => return None,
    })
}

/// The type of a word that no other word follows.
fn plain_type<'t>(word: &str) -> Option<TypeSyntax<'t>> {
    Some(match word {
        "BOOLEAN" => TypeSyntax::Boolean,
        "NULL" => TypeSyntax::Null,
        "RELATIVE-OID" => TypeSyntax::RelativeIdentifier,
        "UTCTime" => TypeSyntax::UtcTime,
        "GeneralizedTime" => TypeSyntax::GeneralizedTime,
        _ => return None,
    })
}

/// The types that `asn1_schema` has no kind for.
fn type_without_kind(word: &str) -> Option<&'static str> {
    Some(match word {
        "REAL" => "REAL",
        "EXTERNAL" => "EXTERNAL",
        "EMBEDDED" => "EMBEDDED PDV",
        "CHARACTER" => "CHARACTER STRING",
        "INSTANCE" => "INSTANCE OF",
        _ => return None,
    })
}

/// Whether a word of the notation names no type (X.680 12.38).
fn is_reserved(word: &str) -> bool {
    matches!(
        word,
        "ALL"
            | "APPLICATION"
            | "BEGIN"
            | "BY"
            | "CLASS"
            | "COMPONENTS"
            | "DEFAULT"
            | "DEFINED"
            | "DEFINITIONS"
            | "END"
            | "EXPLICIT"
            | "EXPORTS"
            | "FALSE"
            | "FROM"
            | "IDENTIFIER"
            | "IMPLICIT"
            | "IMPORTS"
            | "MAX"
            | "MIN"
            | "OF"
            | "OPTIONAL"
            | "PDV"
            | "SIZE"
            | "STRING"
            | "TAGS"
            | "TRUE"
            | "WITH"
    )
}

/// No named numbers.
const NO_NUMBERS: Span = Span { start: 0, end: 0 };

impl<'s, 't> Reader<'s, 't> {
    /// Reads a type with its tags and constraints, and answers its place.
    ///
    /// Refused with `Wrong::Depth` where types nest [`MOST_DEPTH`](super::MOST_DEPTH) deep or deeper, each tag counted.
    /// That is a limit of this crate, and not of X.680.
    #[cycle(types)]
    pub(crate) fn read_type(&mut self, depth: usize) -> Result<usize, ModuleError> {
        let place = self.place();
        if depth == 0 {
            return Err(place.error(Wrong::Depth));
        }
        if self.takes("[") {
            return self.read_tagged(depth - 1, place);
        }
        let of = self.read_untagged(depth - 1, place)?;
        self.read_constraints(place, of)
    }

    /// Reads a tag behind its bracket, and the type that has it.
    #[cycle(types)]
    fn read_tagged(&mut self, depth: usize, place: Place) -> Result<usize, ModuleError> {
        let tag = self.read_tag()?;
        let mode = self.read_mode();
        let of = self.read_type(depth)?;
        self.put_type("", place, TypeSyntax::Tagged(tag, mode, of))
    }

    /// Reads the class and the number of a tag, to the bracket behind them.
    fn read_tag(&mut self) -> Result<TypeTag, ModuleError> {
        let class = if self.takes("UNIVERSAL") {
            0
        } else if self.takes("APPLICATION") {
            1
        } else if self.takes("PRIVATE") {
            3
        } else {
            2
        };
        let number = self.read_tag_number()?;
        self.expect("]")?;
        Ok(TypeTag { class, number })
    }

    /// Reads whether a tag is implicit or explicit. Where nothing is said, the module says it.
    fn read_mode(&mut self) -> TagMode {
        if self.takes("EXPLICIT") {
            return TagMode::Explicit;
        }
        if self.takes("IMPLICIT") || self.environment.implicit {
            return TagMode::Implicit;
        }
        TagMode::Explicit
    }

    /// Reads a type without a tag.
    #[cycle(types)]
    fn read_untagged(&mut self, depth: usize, place: Place) -> Result<usize, ModuleError> {
        if self.takes("SEQUENCE") {
            if self.is("{") {
                let row = self.read_components(depth)?;
                return self.put_type("", place, TypeSyntax::Sequence(row));
            }
            return self.read_list(depth, place, false);
        }
        if self.takes("SET") {
            if self.is("{") {
                let row = self.read_components(depth)?;
                return self.put_type("", place, TypeSyntax::Set(row));
            }
            return self.read_list(depth, place, true);
        }
        if self.takes("CHOICE") {
            let row = self.read_components(depth)?;
            self.check_arms(row)?;
            return self.put_type("", place, TypeSyntax::Choice(row));
        }
        self.read_leaf(place)
    }

    /// Checks that no arm of a choice is OPTIONAL or has a default.
    fn check_arms(&self, row: Row) -> Result<(), ModuleError> {
        for arm in part(&self.syntax.components, row.span) {
            if matches!(
                arm.appearance,
                Appearance::Optional | Appearance::Default(_)
            ) {
                return Err(arm.place.error(Wrong::ArmLeftOut));
            }
        }
        Ok(())
    }

    /// Reads a list behind its first word: what is said of its size, and the type of its members.
    #[cycle(types)]
    fn read_list(
        &mut self,
        depth: usize,
        place: Place,
        is_set: bool,
    ) -> Result<usize, ModuleError> {
        let bounds = self.read_list_bounds()?;
        self.expect("OF")?;
        if self.is_kind(0, TokenKind::Identifier) && !self.is_at(1, "<") {
            self.advance();
        }
        let of = self.read_type(depth)?;
        let syntax = if is_set {
            TypeSyntax::SetOf(of)
        } else {
            TypeSyntax::SequenceOf(of)
        };
        let list = self.put_type("", place, syntax)?;
        match bounds {
            None => Ok(list),
            Some((is_size, ranges)) => {
                self.put_type("", place, TypeSyntax::Within(list, is_size, ranges))
            }
        }
    }

    /// Reads what is said of the size of a list before its members.
    fn read_list_bounds(&mut self) -> Result<Option<(bool, Span)>, ModuleError> {
        if self.takes("SIZE") {
            if !self.is("(") {
                return Err(self.expected("("));
            }
            return Ok(match self.read_constraint()? {
                None => None,
                Some((_, ranges)) => Some((true, ranges)),
            });
        }
        if self.is("(") {
            return self.read_constraint();
        }
        Ok(None)
    }

    /// Reads a type in which no others stand.
    fn read_leaf(&mut self, place: Place) -> Result<usize, ModuleError> {
        let word = self.word();
        if let Some(what) = type_without_kind(word) {
            return Err(place.error(Wrong::NoKind(what)));
        }
        if let Some(syntax) = plain_type(word) {
            self.advance();
            return self.put_type(word, place, syntax);
        }
        if let Some(kind) = text_kind(word) {
            self.advance();
            return self.put_type(word, place, TypeSyntax::Text(kind));
        }
        if self.is_kind(0, TokenKind::Identifier) && self.is_at(1, "<") {
            return Err(place.error(Wrong::NoKind("a selection type")));
        }
        if !self.is_kind(0, TokenKind::Reference) || is_reserved(word) {
            return Err(self.expected("a type"));
        }
        self.advance();
        self.read_worded(place, word)
    }

    /// Reads a type in which no others stand, behind its first word.
    fn read_worded(&mut self, place: Place, word: &'t str) -> Result<usize, ModuleError> {
        match word {
            "INTEGER" => {
                let numbers = self.read_named_numbers()?;
                self.put_type("INTEGER", place, TypeSyntax::Integer(numbers))
            }
            "ENUMERATED" => {
                let (numbers, is_open) = self.read_numbers(true)?;
                self.put_type("", place, TypeSyntax::Enumerated(numbers, is_open))
            }
            "BIT" => {
                self.expect("STRING")?;
                let bits = self.read_named_numbers()?;
                self.put_type("BIT STRING", place, TypeSyntax::Bits(bits))
            }
            "OCTET" => {
                self.expect("STRING")?;
                self.put_type("OCTET STRING", place, TypeSyntax::Octets)
            }
            "OBJECT" => {
                self.expect("IDENTIFIER")?;
                self.put_type("OBJECT IDENTIFIER", place, TypeSyntax::Identifier)
            }
            "ANY" => {
                if self.takes("DEFINED") {
                    self.expect("BY")?;
                    self.expect_word(TokenKind::Identifier, "the name of a component")?;
                }
                self.put_type("ANY", place, TypeSyntax::Any)
            }
            _ => self.read_reference(place, word),
        }
    }

    /// Reads named numbers or bits, if there are any.
    fn read_named_numbers(&mut self) -> Result<Span, ModuleError> {
        if !self.is("{") {
            return Ok(NO_NUMBERS);
        }
        let (numbers, _) = self.read_numbers(false)?;
        Ok(numbers)
    }

    /// Reads a reference behind its first word: a type, a type of another module, or a field of a class. Parameters are
    /// skipped.
    fn read_reference(&mut self, place: Place, word: &'t str) -> Result<usize, ModuleError> {
        if self.is(".") && self.is_kind(1, TokenKind::ClassField) {
            self.advance();
            let field = self.word();
            self.advance();
            self.skip_fields();
            return self.put_type("", place, TypeSyntax::ClassField(word, field));
        }
        let mut syntax = TypeSyntax::Reference(None, word);
        if self.takes(".") {
            let name = self.expect_word(TokenKind::Reference, "the name of a type")?;
            syntax = TypeSyntax::Reference(Some(word), name);
        }
        if self.is("{") {
            self.skip_brackets()?;
        }
        self.put_type("", place, syntax)
    }

    /// Goes behind the fields of a field of a class.
    fn skip_fields(&mut self) {
        for _ in 0..self.left() {
            if !self.is(".") || !self.is_kind(1, TokenKind::ClassField) {
                break;
            }
            self.advance();
            self.advance();
        }
    }
}
