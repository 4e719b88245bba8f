//! A cursor over the tokens of a text, which cuts each as it is reached.
ghost use Rattle.std.specs.Prelude.{◌≡◌, ◌<◌, ◌≤◌, length, Result, Ok, IfOk, OnOk, MatchResult, slice_range};
ghost use Rattle.odb_lex.specs.Token.{IfToken, IsToken};
ghost use Rattle.odb_lex.specs.Next.{next_in};
ghost use Rattle.odb_model.specs.Lexeme.{lexeme_of};
ghost use Rattle.odb_parse.specs.Items.{items_of, kind_in, kind_of, refusal};
ghost use Rattle.odb_parse.specs.Reading as spec;
ghost use Rattle.odb_parse.specs.Reading.{Reads, ReadsAs, Shortens, IsBeginning};

use crate::ParseError;
use crate::kind::Kind;
use odb_lex::{LexError, Token, TokenKind, name_of, next_token, number_of, text_of, tokens_stand};
use odb_model::{Keyword, Sign};
use odb_values::Text;
use std::alloc::Global;
use std::marker::Model;

/// The tokens of a text from a place on. Contracts see them as items: each token and its place, and
/// what ends them.
#[derive(Drop)]
pub struct Tokens<'a> {
    text: &'a [u8],
    /// The next token.
    next: Result<Option<Token>, LexError>,
    /// What it is.
    kind: Kind,
}

impl<'a> Model for Tokens<'a> {
    ghost use Rattle.std.specs.Prelude.{List};
    ghost use Rattle.odb_parse.specs.Codes.{Item, items_code};
    ghost use Rattle.odb_parse.specs.Items.{items_in, IsReady};

    ghost Value = { List Item };

    ghost coded = { items_code };

    ghost view = { items_in };

    ghost invariant = { IsReady };
}

impl<'a> Tokens<'a> {
    /// The tokens of a text. The error is what stands there in place of a first
    /// token.
    pub fn new(text: &'a [u8]) -> Result<Tokens<'a>, ParseError>
        ensures { IsBeginning (items_of text.now (next_in text.now 0)) result }
    {
        let next = next_token(text, 0);
        if let Err(wrong) = next {
            return Err(ParseError::from(wrong));
        }
        Ok(Tokens {
            text,
            next,
            kind: kind_at(text, next),
        })
    }

    /// What stands next.
    pub fn peek(&self) -> Kind
        ensures { result ≡ kind_in self.now }
    {
        self.kind
    }

    /// Why nothing goes on with what stands next.
    pub fn refuse(&self) -> ParseError
        ensures { result ≡ refusal self.now }
    {
        match self.next {
            Ok(Some(token)) => ParseError::Unexpected { at: token.from },
            Ok(None) => ParseError::End,
            Err(wrong) => ParseError::from(wrong),
        }
    }

    /// Goes past the next token. The error is what stands behind it in place of a token.
    #[tactic(auto, unfolding(crate::specs::Reading::skip))]
    pub fn skip(&mut self) -> Result<(), ParseError>
        ensures reads { Reads (spec.skip self.old) result self.new }
        ensures shorter { OnOk result (Shortens self.old self.new) }
    {
        let Ok(Some(token)) = self.next else {
            return Ok(());
        };
        tokens_stand();
        self.next = next_token(self.text, token.to);
        self.kind = kind_at(self.text, self.next);
        match self.next {
            Ok(_) => Ok(()),
            Err(wrong) => Err(ParseError::from(wrong)),
        }
    }

    /// Whether this word stands next.
    #[tactic(auto, unfolding(crate::specs::Reading::sees_word))]
    pub fn sees_word(&self, word: Keyword) -> bool
        ensures { result ≡ spec.sees_word word self.now }
    {
        match self.kind {
            Kind::Word(found) => same_word(found, word),
            _ => false,
        }
    }

    /// Whether this sign stands next.
    #[tactic(auto, unfolding(crate::specs::Reading::sees_sign))]
    pub fn sees_sign(&self, sign: Sign) -> bool
        ensures { result ≡ spec.sees_sign sign self.now }
    {
        match self.kind {
            Kind::Symbol(found) => same_sign(found, sign),
            _ => false,
        }
    }

    /// Goes past this word if it stands next, and answers whether it did.
    #[tactic(auto, unfolding(crate::specs::Reading::eat_word))]
    pub fn eat_word(&mut self, word: Keyword) -> Result<bool, ParseError>
        ensures reads { ReadsAs (spec.eat_word word) self.old result self.new }
    {
        let found = self.sees_word(word);
        if found {
            self.skip()?;
        }
        Ok(found)
    }

    /// Goes past this sign if it stands next, and answers whether it did.
    #[tactic(auto, unfolding(crate::specs::Reading::eat_sign))]
    pub fn eat_sign(&mut self, sign: Sign) -> Result<bool, ParseError>
        ensures reads { ReadsAs (spec.eat_sign sign) self.old result self.new }
    {
        let found = self.sees_sign(sign);
        if found {
            self.skip()?;
        }
        Ok(found)
    }

    /// Goes past this word, which has to stand next.
    #[tactic(auto, unfolding(crate::specs::Reading::expect_word))]
    pub fn expect_word(&mut self, word: Keyword) -> Result<(), ParseError>
        ensures reads { ReadsAs (spec.expect_word word) self.old result self.new }
    {
        if self.sees_word(word) {
            self.skip()
        } else {
            Err(self.refuse())
        }
    }

    /// Goes past this sign, which has to stand next.
    #[tactic(auto, unfolding(crate::specs::Reading::expect_sign))]
    pub fn expect_sign(&mut self, sign: Sign) -> Result<(), ParseError>
        ensures reads { ReadsAs (spec.expect_sign sign) self.old result self.new }
    {
        if self.sees_sign(sign) {
            self.skip()
        } else {
            Err(self.refuse())
        }
    }

    /// Nothing may stand next.
    #[tactic(auto, unfolding(crate::specs::Reading::finish))]
    pub fn finish(&mut self) -> Result<(), ParseError>
        ensures { Reads (spec.finish self.old) result self.new }
    {
        match self.next {
            Ok(None) => Ok(()),
            _ => Err(self.refuse()),
        }
    }

    /// The name that has to stand next, in capitals.
    #[tactic(auto, unfolding(crate::specs::Reading::name))]
    pub fn name(&mut self, alloc: Global) -> Result<Text, ParseError>
        ensures reads { ReadsAs spec.name self.old result self.new }
    {
        let Kind::Name = self.kind else {
            return Err(self.refuse());
        };
        let Ok(Some(token)) = self.next else {
            return Err(self.refuse());
        };
        let name = name_of(alloc, &self.text[token.from..token.to])?;
        self.skip()?;
        Ok(Text::new(name).unwrap())
    }

    /// The value of the quoted text that has to stand next.
    #[tactic(auto, unfolding(crate::specs::Reading::quoted))]
    pub fn quoted(&mut self, alloc: Global) -> Result<Text, ParseError>
        ensures reads { ReadsAs spec.quoted self.old result self.new }
    {
        let Kind::Quoted = self.kind else {
            return Err(self.refuse());
        };
        let Ok(Some(token)) = self.next else {
            return Err(self.refuse());
        };
        let value = text_of(alloc, &self.text[token.from..token.to])?;
        self.skip()?;
        Ok(Text::new(value).unwrap())
    }

    /// The number that has to stand next, of at most `most`.
    #[tactic(auto, unfolding(crate::specs::Reading::number))]
    pub fn number(&mut self, most: u64) -> Result<u64, ParseError>
        ensures reads { ReadsAs (spec.number most) self.old result self.new }
        ensures small { IfOk result (λ n. n ≤ most) }
    {
        let Kind::Number = self.kind else {
            return Err(self.refuse());
        };
        let Ok(Some(token)) = self.next else {
            return Err(self.refuse());
        };
        let number = number_of(&self.text[token.from..token.to]);
        if number > most {
            return Err(self.refuse());
        }
        self.skip()?;
        Ok(number)
    }
}

/// Whether two reserved words are one.
#[tactic(auto, unfolding(crate::specs::Reading::same_word))]
pub fn same_word(a: Keyword, b: Keyword) -> bool
    ensures { result ≡ spec.same_word a b }
{
    a == b
}

/// Whether two signs are one.
#[tactic(auto, unfolding(crate::specs::Reading::same_sign))]
pub fn same_sign(a: Sign, b: Sign) -> bool
    ensures { result ≡ spec.same_sign a b }
{
    a == b
}

/// What a token of a text is, or what stands in its place.
fn kind_at(text: &[u8], next: Result<Option<Token>, LexError>) -> Kind
    requires { IfToken next (λ token. (token.from < token.to) × (token.to ≤ length text.now)) }
    ensures { result ≡ kind_in (items_of text.now next) }
{
    match next {
        Ok(Some(token)) => kind_of(token.kind, &text[token.from..token.to]),
        Ok(None) => Kind::Nothing,
        Err(_) => Kind::Nothing,
    }
}

/// What the bytes of a token are.
fn kind_of(kind: TokenKind, bytes: &[u8]) -> Kind
    ensures { result ≡ kind_of (lexeme_of kind bytes.now) }
{
    match kind {
        TokenKind::Name => match Keyword::of(bytes) {
            Some(word) => Kind::Word(word),
            None => Kind::Name,
        },
        TokenKind::Number => Kind::Number,
        TokenKind::Quoted => Kind::Quoted,
        TokenKind::Sign => Kind::Symbol(Sign::of(bytes)),
    }
}
