//! A reader of the tokens of a text (ISO/IEC 13211-1, 6.4).
ghost use Rattle.std.specs.Prelude.{◌≡◌, ◌≤◌, ◌<◌, ◌+◌, ◌&&◌, ◌∷◌, [], List, ℕ, length, drop, take, nat_eq, IfOk, IfSome, OnSome, IsUtf8};
ghost use Rattle.text_model.specs.Tokens.{skipped, skipped_from, placed_at, is_stop, is_minus, run_from, name, ended};
ghost use Rattle.pl_tokens.specs.Views.{kind_view, token_view, tokens_view};
ghost use Rattle.pl_tokens.specs.Facts.{IsTokenBetween, IsRun};
ghost use Rattle.pl_tokens.specs.Runs.{NextGives, NextWithin, RunGives, RunWithin, after_all, TakesNext, TakesRun};
ghost use Rattle.pl_tokens.specs.Reader.{start_of};
ghost use Rattle.std.specs.Str.Lossy.{utf8_valid_len};

use crate::layout::skip;
use crate::lexer::{Scanned, token_at};
use crate::token::{Token, TokenFault, TokenKind, TokenRun};
use pl_atoms::{Items, NoMemory};
use std::alloc::Global;
use std::marker::Model;

/// A token and the place after it.
#[derive(Debug, Drop)]
pub struct PlacedToken {
    pub token: Token,
    pub next: usize,
}

/// The tokens up to an end, and the place after it.
#[derive(Debug, Drop)]
pub struct PlacedRun {
    pub tokens: TokenRun,
    pub next: usize,
}

/// A place in a text: whether a token of the same run ends there, and whether that is a minus sign by itself.
#[derive(Debug, Clone, Copy)]
pub struct Place {
    pub at: usize,
    pub direct: bool,
    pub minus: bool,
}

/// The token after a place, in a text up to its first ill-formed byte, which it has where it is `marked`.
fn next_at(
    alloc: Global,
    valid: &[u8],
    marked: bool,
    place: Place,
) -> Result<Option<PlacedToken>, TokenFault>
    requires { place.at ≤ length valid.now }
    ensures view { NextGives result (placed_at marked place.at place.direct place.minus valid.now) }
    ensures within { NextWithin result place.at (length valid.now) }
{
    match skip(valid, place.at) {
        Ok(at) if at < valid.len() => token_after(alloc, valid, marked, place, at),
        Ok(at) if marked => Err(TokenFault::Fault {
            number: 1,
            byte: at,
        }),
        Ok(_) => Ok(None),
        Err(_) if marked => Err(TokenFault::Fault {
            number: 1,
            byte: valid.len(),
        }),
        Err(at) => Err(TokenFault::Fault {
            number: 2,
            byte: at,
        }),
    }
}

/// The token that stands where layout and comments after a place end.
fn token_after(
    alloc: Global,
    valid: &[u8],
    marked: bool,
    place: Place,
    at: usize,
) -> Result<Option<PlacedToken>, TokenFault>
    requires skipped { skipped at ≡ skipped_from place.at valid.now }
    requires later { place.at ≤ at }
    requires left { at < length valid.now }
    ensures view { NextGives result (placed_at marked place.at place.direct place.minus valid.now) }
    ensures within { NextWithin result place.at (length valid.now) }
{
    let minus = holds_at(place.minus, at, place.at);
    let direct = holds_at(place.direct, at, place.at);
    match token_at(alloc, marked, minus, &valid[at..])? {
        Scanned::Seen(kind, len) => {
            let token = Token {
                kind,
                byte: at,
                direct,
            };
            Ok(Some(PlacedToken {
                token,
                next: at + len,
            }))
        }
        Scanned::Fault(number, k) => Err(TokenFault::Fault {
            number,
            byte: at + k,
        }),
    }
}

/// Whether the flag holds, and the two places are one.
fn holds_at(flag: bool, at: usize, place: usize) -> bool
    ensures { result ≡ (flag && nat_eq at place) }
{
    flag && at == place
}

fn is_stop(kind: &TokenKind) -> bool
    ensures { result ≡ is_stop (kind_view kind.now) }
{
    match kind {
        TokenKind::End => true,
        _ => false,
    }
}

fn is_minus(kind: &TokenKind) -> bool
    ensures { result ≡ is_minus (kind_view kind.now) }
{
    match kind {
        TokenKind::Name(text) => is_minus_text(text.as_slice()),
        _ => false,
    }
}

fn is_minus_text(text: &[u8]) -> bool
    ensures { result ≡ is_minus (name text.now) }
{
    text.len() == 1 && text[0] == b'-'
}

/// The answer where the text ends after these tokens, without an end.
fn run_out(tokens: &[Token]) -> Result<Option<PlacedRun>, TokenFault>
    ensures view { RunGives result (after_all (tokens_view tokens.now) ended) }
    ensures within { (from : ℕ) (rest : List ℕ) → RunWithin result from rest }
{
    if tokens.len() == 0 {
        Ok(None)
    } else {
        Err(TokenFault::Fault {
            number: 6,
            byte: tokens[0].byte,
        })
    }
}

/// The tokens after a place, up to and with the next end.
pub fn run_at(
    alloc: Global,
    valid: &[u8],
    marked: bool,
    start: Place,
) -> Result<Option<PlacedRun>, TokenFault>
    requires within { start.at ≤ length valid.now }
    requires begins { IsUtf8 (drop start.at valid.now) }
    ensures view { (turns : ℕ) → length (drop start.at valid.now) < turns → RunGives result (run_from turns marked start.at start.direct start.minus valid.now) }
    ensures within { RunWithin result start.at valid.now }
{
    let mut tokens: TokenRun = Items::new(alloc);
    let mut place = start;
    'taking: loop {
        let Some(placed) = next_at(alloc, valid, marked, place)? else {
            return run_out(tokens.as_slice());
        };
        let PlacedToken { token, next } = placed;
        let stop = is_stop(&token.kind);
        place = Place {
            at: next,
            direct: true,
            minus: is_minus(&token.kind),
        };
        tokens.push(token)?;
        if stop {
            return Ok(Some(PlacedRun { tokens, next }));
        }
    }
}

/// A reader of the tokens of a text. What is ill-formed as UTF-8 it reads up to, and no further.
#[derive(Drop)]
pub struct Tokens<'a> {
    text: &'a [u8],
    valid: usize,
    place: Place,
}

impl<'a> Model for Tokens<'a> {
    ghost use Rattle.pl_tokens.specs.Reader.{Reader, IsStanding};

    ghost Value = { Reader };

    ghost view = { λ r. record { text = r.text.now; at = r.place.at; direct = r.place.direct; minus = r.place.minus } };

    ghost invariant = { λ r. IsStanding r.text.now r.valid r.place.at };
}

/// How many bytes stand before the first that is ill-formed as UTF-8.
fn valid_len(text: &[u8]) -> usize
    ensures value { result ≡ utf8_valid_len text.now }
    ensures utf8 { IsUtf8 (take result text.now) }
{
    match str::from_utf8(text) {
        Ok(_) => text.len(),
        Err(e) => e.valid_up_to(),
    }
}

impl Tokens<'_> {
    /// A reader at the start of the text. The text is checked once, here, for where it is no UTF-8.
    pub fn new(text: &[u8]) -> Tokens<'_>
        ensures { result ≡ start_of text.now }
    {
        Tokens {
            text,
            valid: valid_len(text),
            place: Place {
                at: 0,
                direct: false,
                minus: false,
            },
        }
    }

    /// The place that is reached: the byte after the last token that was read, and 0 before the first.
    pub fn place(&self) -> usize
        ensures value { result ≡ self.now.at }
        ensures within { result ≤ length self.now.text }
    {
        self.place.at
    }

    /// The next token (ISO/IEC 13211-1, 6.4), or None exactly where only layout and comments are left. After an Err or None
    /// the reader stands where it stood. The faults, by their numbers and bytes:
    ///
    /// 1. A byte that is ill-formed as UTF-8, at it, where no fault stands before it.
    /// 2. No token: at a stray character, at the backslash that begins no escape, at the opening quote of an item that is
    ///    not closed on its line, at the `0'` that no character follows, or at a comment that is not closed.
    /// 3. An integer above 2^63, or 2^63 itself, unless a name token `-` by itself stands directly before it.
    /// 4. A float literal.
    pub fn next(&mut self, alloc: Global) -> Result<Option<Token>, TokenFault>
        ensures takes { TakesNext self.old result self.new }
        ensures token { IfOk result (λ o. IfSome o (λ t. IsTokenBetween self.old.at self.new.at (token_view t))) }
        ensures within { self.new.at ≤ length self.new.text }
    {
        let marked = self.valid < self.text.len();
        match next_at(alloc, &self.text[..self.valid], marked, self.place)? {
            None => Ok(None),
            Some(placed) => {
                let PlacedToken { token, next } = placed;
                self.place = Place {
                    at: next,
                    direct: !is_stop(&token.kind),
                    minus: is_minus(&token.kind),
                };
                Ok(Some(token))
            }
        }
    }

    /// The tokens up to and with the next end, or None exactly where only layout and comments are left. After an Err or None
    /// the reader stands where it stood. The faults are those of `next`, and number 6 at the first token's byte, where the
    /// text ends after a token without an end.
    pub fn next_run(&mut self, alloc: Global) -> Result<Option<TokenRun>, TokenFault>
        ensures takes { TakesRun self.old result self.new }
        ensures tokens { IfOk result (λ o. IfSome o (λ ts. IsRun self.old.at self.new.at (tokens_view ts))) }
        ensures progress { IfOk result (λ o. OnSome o (self.old.at < self.new.at)) }
        ensures within { self.new.at ≤ length self.new.text }
    {
        let marked = self.valid < self.text.len();
        match run_at(alloc, &self.text[..self.valid], marked, self.place)? {
            None => Ok(None),
            Some(run) => {
                let PlacedRun { tokens, next } = run;
                self.place = Place {
                    at: next,
                    direct: false,
                    minus: false,
                };
                Ok(Some(tokens))
            }
        }
    }
}
