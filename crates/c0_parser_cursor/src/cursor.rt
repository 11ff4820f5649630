//! Tokens that are still to be read.

ghost use Rattle.std.specs.Prelude.{◌≡◌, ◌<◌, false, drop, length, map, option_map, All, IfErr, IfOk, MatchResult};
ghost use Rattle.c0_source.specs.declared.kind.Kind.TheVariants as k;
ghost use Rattle.std.specs.String.{string_bytes};
ghost use Rattle.c0_source.specs.Terminals.{or_empty, terminals};
ghost use Rattle.c0_source.specs.Spelling.{text_value as spec_text_value, use_of as spec_use_of};
ghost use Rattle.c0_lexer.specs.Lexed.{lexeme};
ghost use Rattle.c0_syntax.specs.Views.{name_of};
ghost use Rattle.c0_grammar_laws.specs.Tokens.{AreTokens};
ghost use Rattle.c0_grammar_laws.specs.Outcome.{Gives, any_name, bytes_at, colon, comma, kind_at, lparen, new_name, next, plain_at, rbracket, rparen, semi};
ghost use Rattle.c0_grammar_laws.specs.Places.{NameStands, skip, start_of};
ghost use Rattle.c0_grammar_laws.specs.ReadPrograms.{use_of};
ghost use Rattle.c0_parser_cursor.specs.FoundUses.{used_declaration, used_of};

use crate::directives::{Used, directive};
use crate::letters::{letters, tail, text_value};
use crate::type_names::TypeNames;
use c0_grammar_laws::read_error::ReadError;
use c0_lexer::token::Token;
use c0_source::fault::Span;
use c0_source::kind::Kind;
use c0_syntax::name::Name;
use std::alloc::Global;
use std::marker::Model;

mod value_types;

/// The tokens that are left, and where the one before them ends.
#[derive(Drop)]
pub struct Cursor<'a> {
    alloc: Global,
    tokens: &'a [Token<'a>],
    end: usize,
}

impl<'a> Model for Cursor<'a> {
    ghost use Rattle.std.specs.Prelude.{map};
    ghost use Rattle.c0_source.specs.Terminals.{terminals};
    ghost use Rattle.c0_lexer.specs.Lexed.{lexeme};
    ghost use Rattle.c0_grammar_laws.specs.Tokens.{AreTokens};
    ghost use Rattle.c0_parser_cursor.specs.Remaining.{Remaining};

    ghost Value = { Remaining };

    ghost view = { λ c. record { seen = terminals (map lexeme c.tokens.now); position = record { tokens = map lexeme c.tokens.now; end = c.end }; alloc = c.alloc } };

    ghost invariant = { λ c. AreTokens (map lexeme c.tokens.now) };
}

impl<'a> Cursor<'a> {
    /// All of these tokens, still to be read.
    pub fn new(alloc: Global, tokens: &'a [Token<'a>]) -> Cursor<'a>
        requires { AreTokens (map lexeme tokens.now) }
        ensures { result ≡ record { seen = terminals (map lexeme tokens.now); position = record { tokens = map lexeme tokens.now; end = 0 }; alloc = alloc } }
    {
        Cursor {
            alloc,
            tokens,
            end: 0,
        }
    }

    /// The allocator of what is read.
    pub fn alloc(&self) -> Global
        ensures { result ≡ self.now.alloc }
    {
        self.alloc
    }

    /// The kind of the next token, where no name is a type's.
    pub fn peek(&self) -> Kind
        ensures { result ≡ plain_at self.now.seen }
    {
        match self.tokens {
            [] => Kind::EndOfText,
            [first, ..] => match first.kind {
                Kind::TypeName => Kind::EndOfText,
                kind => kind,
            },
        }
    }

    /// The letters of the next token, if that is a name.
    pub fn letters(&self) -> &'a [u8]
        ensures letters { plain_at self.now.seen ≡ k.Name → result.now ≡ bytes_at self.now.seen }
        ensures text { plain_at self.now.seen ≡ k.Text → bytes_at self.now.seen ≡ or_empty (spec_text_value false (drop 1 result.now)) }
        ensures ascii { All (λ b. b < 128) result.now }
    {
        match self.tokens {
            [] => &[],
            [first, ..] => first.text,
        }
    }

    /// The kind of the next token, where these names are types.
    pub fn peek_among(&self, types: &TypeNames<'_>) -> Kind
        ensures { result ≡ kind_at types.now self.now.seen }
    {
        match self.peek() {
            Kind::Name if types.contains(self.letters()) => Kind::TypeName,
            kind => kind,
        }
    }

    /// How many tokens are left.
    pub fn remaining(&self) -> usize
        ensures tokens { result ≡ length self.now.seen }
        ensures small { result < usize.MAX }
    {
        self.tokens.len()
    }

    /// Goes behind the next token; at the end nothing changes.
    pub fn advance(&mut self)
        ensures seen { self.new.seen ≡ next self.old.seen }
        ensures position { skip self.old.position ≡ self.new.position }
    {
        if let [first, rest @ ..] = self.tokens {
            self.end = first.start + first.text.len();
            self.tokens = rest;
        }
    }

    /// The next token is one with which nothing goes on.
    pub fn syntax(&self) -> ReadError
        ensures { result ≡ ReadError.Syntax (length self.now.seen) }
    {
        ReadError::Syntax(self.remaining())
    }

    /// The next token would make a tree too deep.
    pub fn too_deep(&self) -> ReadError
        ensures { result ≡ ReadError.TooDeep (length self.now.seen) }
    {
        ReadError::TooDeep(self.remaining())
    }

    /// The next token is a name too many.
    pub fn too_large(&self) -> ReadError
        ensures { result ≡ ReadError.TooLarge (length self.now.seen) }
    {
        ReadError::TooLarge(self.remaining())
    }

    /// Where the next token begins.
    pub fn start(&self) -> usize
        ensures { result ≡ start_of self.now.position }
    {
        match self.tokens {
            [] => self.end,
            [first, ..] => first.start,
        }
    }

    /// The place from `start` up to the end of the token before.
    pub fn span_from(&self, start: usize) -> Span
        ensures start { result.start ≡ start }
        ensures end { result.end ≡ self.now.position.end }
    {
        Span {
            start,
            end: self.end,
        }
    }

    /// Goes behind a `(`; any other token is a syntax fault, and nothing changes.
    pub fn lparen(&mut self) -> Result<(), ReadError>
        ensures given { Gives (λ _. self.new.seen) result (lparen self.old.seen) }
        ensures placed { IfOk result (λ _. skip self.old.position ≡ self.new.position) }
        ensures unchanged { IfErr result (λ _. self.new ≡ self.old) }
    {
        match self.peek() {
            Kind::LParen => {
                self.advance();
                Ok(())
            }
            _ => Err(self.syntax()),
        }
    }

    /// Goes behind a `]`; any other token is a syntax fault, and nothing changes.
    pub fn rbracket(&mut self) -> Result<(), ReadError>
        ensures given { Gives (λ _. self.new.seen) result (rbracket self.old.seen) }
        ensures placed { IfOk result (λ _. skip self.old.position ≡ self.new.position) }
        ensures unchanged { IfErr result (λ _. self.new ≡ self.old) }
    {
        match self.peek() {
            Kind::RBracket => {
                self.advance();
                Ok(())
            }
            _ => Err(self.syntax()),
        }
    }

    /// Goes behind a `)`; any other token is a syntax fault, and nothing changes.
    pub fn rparen(&mut self) -> Result<(), ReadError>
        ensures given { Gives (λ _. self.new.seen) result (rparen self.old.seen) }
        ensures placed { IfOk result (λ _. skip self.old.position ≡ self.new.position) }
        ensures unchanged { IfErr result (λ _. self.new ≡ self.old) }
    {
        match self.peek() {
            Kind::RParen => {
                self.advance();
                Ok(())
            }
            _ => Err(self.syntax()),
        }
    }

    /// Goes behind a `,`; any other token is a syntax fault, and nothing changes.
    pub fn comma(&mut self) -> Result<(), ReadError>
        ensures given { Gives (λ _. self.new.seen) result (comma self.old.seen) }
        ensures placed { IfOk result (λ _. skip self.old.position ≡ self.new.position) }
        ensures unchanged { IfErr result (λ _. self.new ≡ self.old) }
    {
        match self.peek() {
            Kind::Comma => {
                self.advance();
                Ok(())
            }
            _ => Err(self.syntax()),
        }
    }

    /// Goes behind a `:`; any other token is a syntax fault, and nothing changes.
    pub fn colon(&mut self) -> Result<(), ReadError>
        ensures given { Gives (λ _. self.new.seen) result (colon self.old.seen) }
        ensures placed { IfOk result (λ _. skip self.old.position ≡ self.new.position) }
        ensures unchanged { IfErr result (λ _. self.new ≡ self.old) }
    {
        match self.peek() {
            Kind::Colon => {
                self.advance();
                Ok(())
            }
            _ => Err(self.syntax()),
        }
    }

    /// Goes behind a `;`; any other token is a syntax fault, and nothing changes.
    pub fn semi(&mut self) -> Result<(), ReadError>
        ensures given { Gives (λ _. self.new.seen) result (semi self.old.seen) }
        ensures placed { IfOk result (λ _. skip self.old.position ≡ self.new.position) }
        ensures unchanged { IfErr result (λ _. self.new ≡ self.old) }
    {
        match self.peek() {
            Kind::Semi => {
                self.advance();
                Ok(())
            }
            _ => Err(self.syntax()),
        }
    }

    /// The name that the next token is. Where memory is refused, nothing changes.
    pub fn take_name(&mut self) -> Result<Name, ReadError>
        requires { plain_at self.old.seen ≡ k.Name }
        ensures given { Gives (λ x. record { value = name_of x; rest = self.new.seen }) result (any_name self.old.seen) }
        ensures placed { IfOk result (λ x. NameStands self.old.position x self.new.position) }
        ensures unchanged { IfErr result (λ _. self.new ≡ self.old) }
    {
        let start = self.start();
        let text = letters(self.alloc, self.letters())?;
        self.advance();
        Ok(Name {
            text,
            span: self.span_from(start),
        })
    }

    /// A name, which may be a type's; where none is read, nothing changes.
    pub fn name(&mut self) -> Result<Name, ReadError>
        ensures given { Gives (λ x. record { value = name_of x; rest = self.new.seen }) result (any_name self.old.seen) }
        ensures placed { IfOk result (λ x. NameStands self.old.position x self.new.position) }
        ensures unchanged { IfErr result (λ _. self.new ≡ self.old) }
    {
        match self.peek() {
            Kind::Name => self.take_name(),
            _ => Err(self.syntax()),
        }
    }

    /// A name, which may be none of these names of types; where none is read, nothing changes.
    pub fn new_name(&mut self, types: &TypeNames<'_>) -> Result<Name, ReadError>
        ensures given { Gives (λ x. record { value = name_of x; rest = self.new.seen }) result (new_name types.now self.old.seen) }
        ensures placed { IfOk result (λ x. NameStands self.old.position x self.new.position) }
        ensures unchanged { IfErr result (λ _. self.new ≡ self.old) }
    {
        match self.peek_among(types) {
            Kind::Name => self.take_name(),
            _ => Err(self.syntax()),
        }
    }

    /// The value of the text that the next token is.
    pub fn text(&self) -> Result<String, ReadError>
        requires { plain_at self.now.seen ≡ k.Text }
        ensures { MatchResult result (λ text. string_bytes text ≡ bytes_at self.now.seen) (λ e. e ≡ ReadError.OutOfMemory) }
    {
        match text_value(self.alloc, tail(self.letters()))? {
            Some(text) => Ok(text),
            None => Ok(String::new(self.alloc)),
        }
    }

    /// The tokens behind the next one.
    pub fn ahead(&self) -> Cursor<'a>
        ensures { result.seen ≡ next self.now.seen }
    {
        let mut ahead = Cursor {
            alloc: self.alloc,
            tokens: self.tokens,
            end: self.end,
        };
        ahead.advance();
        ahead
    }

    /// The letters of the next token, if that is a `#use`.
    fn directive_letters(&self) -> &'a [u8]
        requires { plain_at self.now.seen ≡ k.Use }
        ensures { use_of self.now.seen ≡ used_declaration (spec_use_of (drop 1 result.now)) }
    {
        match self.tokens {
            [] => &[],
            [first, ..] => first.text,
        }
    }

    /// What the `#use` that stands next names.
    pub fn used(&self) -> Result<Option<Used>, ReadError>
        requires { plain_at self.now.seen ≡ k.Use }
        ensures { MatchResult result (λ used. use_of self.now.seen ≡ used_declaration (option_map used_of used)) (λ e. e ≡ ReadError.OutOfMemory) }
    {
        let used = directive(self.alloc, tail(self.directive_letters()))?;
        Ok(used)
    }
}
