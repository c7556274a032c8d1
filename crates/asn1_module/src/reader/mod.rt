//! One reader for all tokens of all texts.

mod constraints;
mod modules;
mod rows;
mod types;
mod values;

use crate::mistake::{ModuleError, Place, Wrong};
use crate::syntax::{LeftOut, Note, Syntax, TypeEntry, TypeSyntax};
use crate::tokens::{Token, TokenKind};
use std::alloc::Global;

/// How deep types may nest.
pub(crate) const MOST_DEPTH: usize = 64;

/// What a module says of its tags and extension marks (X.680 13.2, 13.4).
#[derive(Debug, Clone, Copy)]
pub(crate) struct Environment {
    /// Tags are implicit where nothing is said.
    pub implicit: bool,
    /// Components without tags get them by their order.
    pub automatic: bool,
    /// Each type that may have an extension mark has one.
    pub extensible: bool,
}

/// The tokens that are left, and what was read.
#[derive(Debug, Drop)]
pub(crate) struct Reader<'s, 't> {
    alloc: Global,
    tokens: &'s [Token<'t>],
    at: usize,
    module: usize,
    owner: &'t str,
    environment: Environment,
    syntax: Syntax<'t>,
}

impl<'s, 't> Reader<'s, 't> {
    /// A reader of tokens.
    pub(crate) fn new(alloc: Global, tokens: &'s [Token<'t>]) -> Reader<'s, 't> {
        Reader {
            alloc,
            tokens,
            at: 0,
            module: 0,
            owner: "",
            environment: Environment {
                implicit: false,
                automatic: false,
                extensible: false,
            },
            syntax: Syntax::new(alloc),
        }
    }

    /// What was read.
    pub(crate) fn into_syntax(self) -> Syntax<'t> {
        self.syntax
    }

    /// The token at a place among those that are left.
    fn token(&self, at: usize) -> Option<Token<'t>> {
        self.tokens.get(self.at.saturating_add(at)).copied()
    }

    /// How many tokens are left.
    fn left(&self) -> usize {
        self.tokens.len().saturating_sub(self.at)
    }

    /// Where the next token stands.
    fn place(&self) -> Place {
        match self.token(0) {
            Some(token) => token.place,
            None => Place { text: 0, octet: 0 },
        }
    }

    /// The refusal that something else is expected.
    fn expected(&self, what: &'static str) -> ModuleError {
        self.place().error(Wrong::Expected(what))
    }

    /// Whether the next token is this one.
    fn is(&self, word: &str) -> bool {
        self.is_at(0, word)
    }

    /// Whether the token at a place among those that are left is this one.
    fn is_at(&self, at: usize, word: &str) -> bool {
        match self.token(at) {
            Some(token) => token.is(word),
            None => false,
        }
    }

    /// Whether the token at a place among those that are left is of this kind.
    fn is_kind(&self, at: usize, kind: TokenKind) -> bool {
        match self.token(at) {
            Some(token) => token.kind == kind,
            None => kind == TokenKind::End,
        }
    }

    /// The next token in characters.
    fn word(&self) -> &'t str {
        match self.token(0) {
            Some(token) => token.word(),
            None => "",
        }
    }

    /// Goes behind the next token.
    fn advance(&mut self) {
        self.at = self.at.saturating_add(1);
    }

    /// Goes behind the next token if it is this one, and tells whether it was.
    fn takes(&mut self, word: &str) -> bool {
        let is = self.is(word);
        if is {
            self.advance();
        }
        is
    }

    /// Goes behind the next token, which has to be this one.
    fn expect(&mut self, word: &'static str) -> Result<(), ModuleError> {
        if self.takes(word) {
            Ok(())
        } else {
            Err(self.expected(word))
        }
    }

    /// Goes behind the next token, which has to be of this kind, and answers it.
    fn expect_word(&mut self, kind: TokenKind, what: &'static str) -> Result<&'t str, ModuleError> {
        match self.token(0) {
            Some(token) => {
                if token.kind != kind {
                    return Err(self.expected(what));
                }
                self.advance();
                Ok(token.word())
            }
            None => Err(self.expected(what)),
        }
    }

    /// Goes behind brackets that open here, and behind what stands in them.
    fn skip_brackets(&mut self) -> Result<(), ModuleError> {
        let mut open = 0u64;
        for _ in 0..self.left() {
            if self.is_kind(0, TokenKind::End) {
                break;
            }
            if self.is("{") || self.is("(") {
                open = open.saturating_add(1);
            } else if self.is("}") || self.is(")") {
                open = open.saturating_sub(1);
            }
            self.advance();
            if open == 0 {
                return Ok(());
            }
        }
        Err(self.expected("a closing bracket"))
    }

    /// Goes behind the next token that is this one.
    fn skip_behind(&mut self, word: &'static str) -> Result<(), ModuleError> {
        for _ in 0..self.left() {
            if self.is_kind(0, TokenKind::End) {
                break;
            }
            if self.takes(word) {
                return Ok(());
            }
            self.advance();
        }
        Err(self.expected(word))
    }

    /// Notes that something is left out of the table.
    fn note(&mut self, what: LeftOut, place: Place) -> Result<(), ModuleError> {
        self.syntax.notes.push(Note { what, place })?;
        Ok(())
    }

    /// Puts a type behind the others, and answers its place.
    fn put_type(
        &mut self,
        name: &'t str,
        place: Place,
        syntax: TypeSyntax<'t>,
    ) -> Result<usize, ModuleError> {
        let at = self.syntax.types.len();
        let (owner, module) = (self.owner, self.module);
        self.syntax.types.push(TypeEntry {
            name,
            owner,
            module,
            place,
            syntax,
        })?;
        Ok(at)
    }

    /// Gives a type a name if it has none, and so the types in its tags and constraints.
    fn name_type(&mut self, of: usize, name: &'t str) {
        let mut at = of;
        for _ in 0..MOST_DEPTH {
            match self.name_entry(at, name) {
                Some(inner) => at = inner,
                None => break,
            }
        }
    }

    /// Gives an entry a name if it has none, and answers the type that it tags or constrains.
    fn name_entry(&mut self, at: usize, name: &'t str) -> Option<usize> {
        let entry = self.syntax.types.get_mut(at)?;
        if entry.name.is_empty() {
            entry.name = name;
        }
        match entry.syntax {
            TypeSyntax::Tagged(_, _, inner) => Some(inner),
            TypeSyntax::Within(inner, _, _) => Some(inner),
            _ => None,
        }
    }
}
