//! Patterns: regular expressions that are tried on tokens.
//!
//! A pattern has the syntax of Rust's crate `regex` (<https://docs.rs/regex/latest/regex/#syntax>),
//! and it matches a token where it has a match anywhere in the token's bytes.
#![tactic(auto)]

ghost use Rattle.std.specs.Prelude.{◌≡◌, true, IfOk, IfErr, OnOk, Some, None, if◌then◌else◌};
ghost use Rattle.hum_pattern.specs.Meaning.{IsExpression, IsNone, matched, matched_by, first_end};
ghost use Rattle.hum_pattern.specs.Searching.{begins_with, MayBeBarline};
ghost use Rattle.hum_pattern.specs.declared.PatternFault.TheVariants.{Refused, TooLarge};

mod searched;

use crate::searched::{Searched, recalled, remember};
use regex::Error as RegexError;
use regex::bytes::{Matcher, Regex};
use std::alloc::{AllocError, Global};
use std::cell::Cell;
use std::marker::Model;
use thiserror::Error;

/// Why a text gives no pattern.
#[derive(Clone, Copy, Debug, PartialEq, Eq, Error)]
pub enum PatternFault {
    /// The text is no regular expression, or nests deeper than 250.
    #[error("no regular expression, or one that nests deeper than 250")]
    Refused,
    /// The expression would take over 10 MiB.
    #[error("an expression of over 10 MiB")]
    TooLarge,
    /// Memory ran out.
    #[error("out of memory")]
    Memory,
}

/// The pattern of barlines. Where it is given it is asked of each token of a score.
const BARLINE: &str = "^=";

/// Whether a text is the pattern of barlines.
fn is_barline(text: &str) -> bool
    ensures { MayBeBarline result text.now }
{
    text == BARLINE
}

/// Whether a token begins as a barline does.
fn begins_barline(token: &[u8]) -> bool
    ensures { result ≡ begins_with 61 token.now }
{
    match token {
        [] => false,
        [byte, ..] => b'=' == *byte,
    }
}

/// Where that beginning ends, if there is one.
fn barline_end(token: &[u8]) -> Option<usize>
    ensures { result ≡ (if begins_with 61 token.now then Some 1 else None) }
{
    if begins_barline(token) { Some(1) } else { None }
}

/// A regular expression, with what its searches write to.
///
/// What is worked out of its text stays in memory to the program's end, so that each search has the
/// tables that those before it filled.
struct Expression {
    regex: &'static Regex,
    // on the heap, since it is some kilobytes large
    matcher: Box<Matcher<'static>>,
    // tokens that were searched before
    searched: Vec<Searched>,
}

// Written out, so that a caller's proof sees one call and not the drop of each field.
impl Drop for Expression {
    fn drop(self) {
        let Expression {
            regex: _,
            matcher: _matcher,
            searched: _searched,
        } = self;
    }
}

impl Model for Expression {
    ghost use Rattle.std.specs.Prelude.{ℕ, List, box_value};
    ghost use Rattle.regex.specs.Bytes.{regex_source, regex_pattern, matcher_pattern};
    ghost use Rattle.hum_pattern.specs.Searching.{SearchesFor, AllFound};

    ghost Value = { List ℕ };

    ghost view = { λ e. regex_source e.regex.now };

    ghost invariant = { λ e. SearchesFor (regex_source e.regex.now) (matcher_pattern (box_value e.matcher))
        × AllFound (regex_source e.regex.now) e.searched.items
        × SearchesFor (regex_source e.regex.now) (regex_pattern e.regex.now) };
}

impl Expression {
    ghost use Rattle.regex.specs.Bytes.{regex_source, regex_pattern};
    ghost use Rattle.hum_pattern.specs.Searching.{SearchesFor};

    /// An expression, with what its searches write to.
    fn searching(alloc: Global, regex: &'static Regex) -> Result<Expression, AllocError>
        requires { SearchesFor (regex_source regex.now) (regex_pattern regex.now) }
        ensures { IfOk result (λ expression. expression ≡ regex_source regex.now) }
    {
        Ok(Expression {
            regex,
            matcher: Box::new(alloc, regex.matcher(alloc)?)?,
            searched: Vec::new(alloc),
        })
    }

    /// The same of one that stays in memory from now on.
    fn lasting(alloc: Global, regex: Regex) -> Result<Expression, AllocError>
        requires { SearchesFor (regex_source regex) (regex_pattern regex) }
        ensures { IfOk result (λ expression. expression ≡ regex_source regex) }
    {
        let regex: &'static Regex = Box::leak(Box::new(alloc, regex)?);
        Expression::searching(alloc, regex)
    }

    /// The same expression once more.
    fn copy(&self, alloc: Global) -> Result<Expression, AllocError>
        ensures { IfOk result (λ expression. expression ≡ self.now) }
    {
        Expression::searching(alloc, self.regex)
    }

    /// Whether another has the same text.
    fn is_same(&self, other: &Expression) -> bool
        ensures { result ≡ true → self.now ≡ other.now }
    {
        self.regex.as_str() == other.regex.as_str()
    }

    /// Whether it has a match anywhere in a token, by what is remembered of the token, or by a search.
    #[inline(never)]
    fn finds(&mut self, token: &[u8]) -> bool
        ensures found { result ≡ matched self.old token.now }
        ensures same { self.new ≡ self.old }
    {
        if let Some(found) = recalled(&self.searched, token) {
            return found;
        }
        let found = self.matcher.is_match(token);
        remember(&mut self.searched, token, found);
        found
    }

    /// Where the leftmost match ends in a token.
    fn end_of_first(&mut self, token: &[u8]) -> Option<usize>
        ensures found { result ≡ first_end self.old token.now }
        ensures same { self.new ≡ self.old }
    {
        self.matcher.shortest_match(token)
    }
}

/// The same expression once more: one that is done with, if there is one.
fn once_more(
    alloc: Global,
    expression: &Expression,
    done: Option<Expression>,
) -> Result<Expression, AllocError>
    ensures { IfOk result (λ copy. copy ≡ expression.now) }
{
    match done {
        None => expression.copy(alloc),
        Some(done) => {
            if done.is_same(expression) {
                Ok(done)
            } else {
                expression.copy(alloc)
            }
        }
    }
}

/// An expression that serves one copy of a pattern after the other.
struct Serving {
    expression: Expression,
    // where it stays when it is done with, to the program's end
    done: &'static Cell<Option<Expression>>,
}

impl Drop for Serving {
    fn drop(self) {
        let Serving { expression, done } = self;
        done.set(Some(expression));
    }
}

impl Model for Serving {
    ghost use Rattle.std.specs.Prelude.{ℕ, List};

    ghost Value = { List ℕ };

    ghost view = { λ s. s.expression };
}

impl Serving {
    /// An expression that is to serve.
    fn new(alloc: Global, expression: Expression) -> Result<Serving, AllocError>
        ensures { IfOk result (λ serving. serving ≡ expression) }
    {
        let done: &'static Cell<Option<Expression>> = Box::leak(Box::new(alloc, Cell::new(None))?);
        Ok(Serving { expression, done })
    }

    /// One for a copy.
    fn copy(&self, alloc: Global) -> Result<Serving, AllocError>
        ensures { IfOk result (λ serving. serving ≡ self.now) }
    {
        let expression = once_more(alloc, &self.expression, self.done.take())?;
        Ok(Serving {
            expression,
            done: self.done,
        })
    }

    /// Whether it has a match anywhere in a token.
    fn finds(&mut self, token: &[u8]) -> bool
        ensures found { result ≡ matched self.old token.now }
        ensures same { self.new ≡ self.old }
    {
        self.expression.finds(token)
    }

    /// Where the leftmost match ends in a token.
    fn end_of_first(&mut self, token: &[u8]) -> Option<usize>
        ensures found { result ≡ first_end self.old token.now }
        ensures same { self.new ≡ self.old }
    {
        self.expression.end_of_first(token)
    }
}

/// The expression that a text is.
fn expression_of(alloc: Global, text: &str) -> Result<Expression, PatternFault>
    ensures text { IfOk result (λ expression. expression ≡ text.now) }
    ensures valid { OnOk result (IsExpression text.now) }
    ensures refused { IfErr result (λ fault. fault ≡ Refused → IsNone text.now) }
    ensures too_large { IfErr result (λ fault. fault ≡ TooLarge → IsExpression text.now) }
{
    match Regex::new(alloc, text) {
        Ok(regex) => match Expression::lasting(alloc, regex) {
            Ok(expression) => Ok(expression),
            Err(_) => Err(PatternFault::Memory),
        },
        Err(RegexError::Syntax(_)) => Err(PatternFault::Refused),
        Err(RegexError::OutOfMemory) => Err(PatternFault::Memory),
        Err(RegexError::CompiledTooBig) => Err(PatternFault::TooLarge),
        Err(RegexError::Internal) => Err(PatternFault::TooLarge),
    }
}

/// What searches for a pattern.
#[derive(Drop)]
enum Search {
    /// for that of barlines: a look at a token's first byte
    Barlines,
    /// for any other
    Expression(Serving),
}

/// A pattern that is tried on tokens.
pub struct Pattern {
    search: Search,
}

// Written out, so that a caller's proof sees one call and not the drop of each field.
impl Drop for Pattern {
    fn drop(self) {
        let Pattern { search: _search } = self;
    }
}

impl Model for Pattern {
    ghost use Rattle.std.specs.Prelude.{ℕ, List};
    ghost use Rattle.hum_pattern.specs.Text.{text_of};

    ghost Value = { List ℕ };

    ghost view = { λ p. text_of p.search };
}

impl Pattern {
    /// The pattern of a text.
    ///
    /// # Errors
    /// [`PatternFault::Refused`] and [`PatternFault::TooLarge`] by the text, and running out of memory.
    pub fn new(alloc: Global, text: &str) -> Result<Pattern, PatternFault>
        ensures text { IfOk result (λ pattern. pattern ≡ text.now) }
        ensures valid { OnOk result (IsExpression text.now) }
        ensures refused { IfErr result (λ fault. fault ≡ Refused → IsNone text.now) }
        ensures too_large { IfErr result (λ fault. fault ≡ TooLarge → IsExpression text.now) }
    {
        if is_barline(text) {
            return Ok(Pattern {
                search: Search::Barlines,
            });
        }
        let expression = expression_of(alloc, text)?;
        match Serving::new(alloc, expression) {
            Ok(serving) => Ok(Pattern {
                search: Search::Expression(serving),
            }),
            Err(_) => Err(PatternFault::Memory),
        }
    }

    /// The same pattern once more. What was worked out of its text serves both.
    ///
    /// # Errors
    /// Out of memory.
    pub fn copy(&self, alloc: Global) -> Result<Pattern, AllocError>
        ensures { IfOk result (λ pattern. pattern ≡ self.now) }
    {
        let search = match &self.search {
            Search::Barlines => Search::Barlines,
            Search::Expression(expression) => Search::Expression(expression.copy(alloc)?),
        };
        Ok(Pattern { search })
    }

    /// Whether the pattern has a match anywhere in a token.
    pub fn matches(&mut self, token: &[u8]) -> bool
        ensures found { result ≡ matched self.old token.now }
        ensures same { self.new ≡ self.old }
    {
        match &mut self.search {
            Search::Barlines => begins_barline(token),
            Search::Expression(expression) => expression.finds(token),
        }
    }

    /// Where the leftmost match ends in a token, counted in bytes from its beginning.
    pub fn end_of_first(&mut self, token: &[u8]) -> Option<usize>
        ensures found { result ≡ first_end self.old token.now }
        ensures same { self.new ≡ self.old }
    {
        match &mut self.search {
            Search::Barlines => barline_end(token),
            Search::Expression(expression) => expression.end_of_first(token),
        }
    }
}

/// The same pattern once more, where there is one.
///
/// # Errors
/// Out of memory.
pub fn copied(alloc: Global, pattern: &Option<Pattern>) -> Result<Option<Pattern>, AllocError>
    ensures { IfOk result (λ copy. copy ≡ pattern.now) }
{
    match pattern {
        None => Ok(None),
        Some(pattern) => Ok(Some(pattern.copy(alloc)?)),
    }
}

/// Whether a pattern that may be there has a match anywhere in a token.
pub fn is_matched(pattern: &mut Option<Pattern>, token: &[u8]) -> bool
    ensures found { result ≡ matched_by pattern.old token.now }
    ensures same { pattern.new ≡ pattern.old }
{
    match pattern {
        None => false,
        Some(pattern) => pattern.matches(token),
    }
}
