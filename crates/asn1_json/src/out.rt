//! Where tokens are written.
ghost use Rattle.std.specs.Prelude.{◌≡◌, ◌++◌, ◌∷◌, [], List, OnOk, IsUtf8};
ghost use Rattle.json.specs.Token.{Token as SpecToken};
ghost use Rattle.json.specs.Reads.{token_of};
ghost use Rattle.json.specs.Print.{IsPrintable, print};

use json::{Pretty, Token, Writer};
use std::alloc::{AllocError, Allocator, Global};

/// Takes tokens of JSON, one behind another.
pub trait TokenWriter {
    /// The tokens that were taken.
    ghost written: { Self → List SpecToken };

    /// Takes a token.
    fn put(&mut self, token: Token<'_>) -> Result<(), AllocError>
        requires { IsPrintable (token_of token) }
        ensures { OnOk result (written self.new ≡ written self.old ++ token_of token.entry ∷ []) };
}

impl<A: Allocator> TokenWriter for Writer<A> {
    ghost written = { λ w. w.tokens };

    fn put(&mut self, token: Token<'_>) -> Result<(), AllocError> {
        self.token(token)
    }
}

impl<A: Allocator> TokenWriter for Pretty<A> {
    ghost written = { λ w. w };

    fn put(&mut self, token: Token<'_>) -> Result<(), AllocError> {
        self.token(token)
    }
}

/// A text on one line, with nothing before its tokens.
#[derive(Drop)]
pub struct OneLine {
    writer: Writer,
    ghost at_start: { writer.before ≡ [] },
}

impl OneLine {
    /// No token.
    pub fn new(alloc: Global) -> OneLine
        ensures { result.writer.tokens ≡ [] }
    {
        OneLine {
            writer: Writer::new(Vec::new(alloc)),
        }
    }

    /// The text of the tokens.
    pub fn into_inner(self) -> Vec<u8>
        ensures items { result.items ≡ print self.writer.tokens }
        ensures utf8 { IsUtf8 result.items }
    {
        self.writer.into_inner()
    }
}

impl TokenWriter for OneLine {
    ghost written = { λ line. line.writer.tokens };

    fn put(&mut self, token: Token<'_>) -> Result<(), AllocError> {
        self.writer.token(token)
    }
}
