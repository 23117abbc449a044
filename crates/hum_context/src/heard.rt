//! What is heard of the tokens of a data record.
ghost use Rattle.std.specs.Prelude.{◌≡◌, ◌≢◌, ◌≤◌, ℕ, [], length, map, false, true, OnOk, IfOk};
ghost use Rattle.std.specs.Prelude.{slice_index_or};
ghost use Rattle.std.specs.List.{list_any};
ghost use Rattle.hum_score.specs.declared.records.Kind.TheVariants.{Values as AnyValues};
ghost use Rattle.hum_score.specs.Row.{kind_of, tokens_of, width_of};
ghost use Rattle.hum_context.specs.Context.{is_data, begins};
ghost use Rattle.hum_context.specs.Options.{choice_of, extent_of};
ghost use Rattle.hum_context.specs.Heard.{heard_of, heard_under, is_taken, ends, wanted_of};
ghost use Rattle.hum_context.specs.declared.heard.Heard.TheVariants.{Passed, Taken};
ghost use Rattle.hum_context.specs.HeardForm.{heard_in};

use hum_choices::{ContextOptions, Span};
use hum_pattern::is_matched;
use hum_record::{Kind, Record, is_null};
use std::alloc::{AllocError, Global};
use std::marker::Model;

/// What is heard of a token.
#[derive(Clone, Copy, PartialEq, Eq)]
pub(crate) enum Heard {
    /// It isn't collected.
    Passed,
    /// It is collected. Others may be from it on, and it may be the last of them.
    Taken { begins: bool, ends: bool },
}

/// Each of them.
// Those from which others are collected come last, so that one comparison tells them.
#[derive(Clone, Copy)]
enum HeardForm {
    Passed,
    Within,
    Ends,
    Begins,
    Alone,
}

/// What is heard of a token, in one byte.
#[derive(Drop)]
pub struct KeptHeard {
    form: HeardForm,
}

impl Model for KeptHeard {
    ghost use Rattle.hum_context.specs.declared.heard.Heard.{Heard};
    ghost use Rattle.hum_context.specs.HeardForm.{heard_in};

    ghost Value = { Heard };

    ghost view = { λ k. heard_in k.form };
}

impl KeptHeard {
    /// What was heard.
    fn of(heard: Heard) -> KeptHeard
        ensures { result ≡ heard }
    {
        let form = match heard {
            Heard::Passed => HeardForm::Passed,
            Heard::Taken { begins, ends } => taken_form(begins, ends),
        };
        KeptHeard { form }
    }

    /// What was heard.
    pub(crate) fn heard(&self) -> Heard
        ensures { result ≡ self.now }
    {
        match self.form {
            HeardForm::Passed => Heard::Passed,
            HeardForm::Within => Heard::Taken {
                begins: false,
                ends: false,
            },
            HeardForm::Begins => Heard::Taken {
                begins: true,
                ends: false,
            },
            HeardForm::Ends => Heard::Taken {
                begins: false,
                ends: true,
            },
            HeardForm::Alone => Heard::Taken {
                begins: true,
                ends: true,
            },
        }
    }
}

/// What is kept of a token that is collected.
fn taken_form(begins: bool, ends: bool) -> HeardForm
    ensures { heard_in result ≡ Taken begins ends }
{
    match (begins, ends) {
        (false, false) => HeardForm::Within,
        (true, false) => HeardForm::Begins,
        (false, true) => HeardForm::Ends,
        (true, true) => HeardForm::Alone,
    }
}

/// Whether a token is data, by its first byte.
pub(crate) fn is_data(token: &[u8]) -> bool
    ensures { result ≡ is_data token.now }
{
    match token {
        [] => false,
        [byte, ..] => !(*byte == b'!' || *byte == b'*'),
    }
}

/// Whether others are collected from a token on.
fn begins(span: &mut Span, token: &[u8]) -> bool
    ensures found { result ≡ begins (extent_of span.old) token.now }
    ensures kept { span.new ≡ span.old }
{
    match span {
        Span::Number(_) => true,
        Span::Phrase(begin, _) => begin.matches(token),
    }
}

/// Whether a token is the last of those that are collected from another on.
fn ends(span: &mut Span, token: &[u8]) -> bool
    ensures found { result ≡ ends (extent_of span.old) token.now }
    ensures kept { span.new ≡ span.old }
{
    match span {
        Span::Number(_) => false,
        Span::Phrase(_, end) => end.matches(token),
    }
}

/// How many tokens are wanted, where that is known.
pub(crate) fn wanted(span: &Span) -> Option<u16>
    ensures { result ≡ wanted_of (extent_of span.now) }
{
    match span {
        Span::Number(count) => Some(count.number),
        Span::Phrase(_, _) => None,
    }
}

/// How many lists are kept, since records are given in bursts.
const MOST_SPARE: usize = 16;

/// Lists of what was heard of records that are done with.
///
/// Nothing of what stood in them shows, so one is like another.
#[derive(Drop)]
pub(crate) struct SpareHeard {
    lists: Vec<Vec<KeptHeard>>,
}

impl Model for SpareHeard {
    ghost use Rattle.std.specs.Prelude.{⊤};

    ghost Value = { ⊤ };

    ghost view = { λ s. tt };
}

impl SpareHeard {
    /// No record was done with as yet.
    pub(crate) fn none(alloc: Global) -> SpareHeard {
        SpareHeard {
            lists: Vec::new(alloc),
        }
    }

    /// Keeps a list that isn't empty, whatever stands in it, if there is room for it.
    #[inline(always)]
    pub(crate) fn keep(&mut self, heard: Vec<KeptHeard>) {
        if heard.is_empty() || self.lists.len() >= MOST_SPARE {
            return;
        }
        let _ = self.lists.push(heard);
    }

    /// Hands out a list, empty.
    fn take(&mut self, alloc: Global) -> Vec<KeptHeard>
        ensures { result.items ≡ [] }
    {
        let mut heard = self.lists.pop().unwrap_or(Vec::new(alloc));
        heard.clear();
        heard
    }
}

/// What is heard of a token. Patterns are never tried on null tokens.
fn hear(options: &mut ContextOptions, token: &[u8]) -> Heard
    ensures heard { result ≡ heard_of (choice_of options.old) token.now }
    ensures kept { options.new ≡ options.old }
{
    if !is_data(token) || is_null(token) {
        return Heard::Passed;
    }
    if is_matched(&mut options.omit, token) {
        return Heard::Passed;
    }
    let begins = begins(&mut options.span, token);
    let ends = ends(&mut options.span, token);
    Heard::Taken { begins, ends }
}

/// What is heard of each token of a data record, and whether one is collected.
fn hear_all(
    options: &mut ContextOptions,
    row: &Record,
    heard: &mut Vec<KeptHeard>,
) -> Result<bool, AllocError>
    requires { heard.old.items ≡ [] }
    ensures heard { OnOk result
        (heard.new.items ≡ map (heard_of (choice_of options.old)) (tokens_of row.now)) }
    ensures any { IfOk result (λ any. any ≡ list_any is_taken heard.new.items) }
    ensures kept { options.new ≡ options.old }
{
    let mut any = false;
    for token in row.tokens() {
        let one = hear(options, token);
        if one != Heard::Passed {
            any = true;
        }
        heard.push(KeptHeard::of(one))?;
    }
    Ok(any)
}

/// The same; nothing where none is collected.
fn hear_values(
    alloc: Global,
    options: &mut ContextOptions,
    row: &Record,
    spare: &mut SpareHeard,
) -> Result<Vec<KeptHeard>, AllocError>
    requires { kind_of row.now ≡ AnyValues }
    ensures heard { IfOk result (λ heard. (c : ℕ) → slice_index_or heard.items c Passed
        ≡ heard_under (choice_of options.old) row.now c) }
    ensures narrow { IfOk result (λ heard. length heard.items ≤ width_of row.now) }
    ensures kept { options.new ≡ options.old }
{
    let mut heard = spare.take(alloc);
    if hear_all(options, row, &mut heard)? {
        return Ok(heard);
    }
    spare.keep(heard);
    Ok(Vec::new(alloc))
}

/// What is heard of each token of a record; nothing where none is collected.
pub(crate) fn hear_row(
    alloc: Global,
    options: &mut ContextOptions,
    row: &Record,
    spare: &mut SpareHeard,
) -> Result<Vec<KeptHeard>, AllocError>
    ensures heard { IfOk result (λ heard. (c : ℕ) → slice_index_or heard.items c Passed
        ≡ heard_under (choice_of options.old) row.now c) }
    ensures valued { IfOk result (λ heard. heard.items ≢ [] → kind_of row.now ≡ AnyValues) }
    ensures narrow { IfOk result (λ heard. length heard.items ≤ width_of row.now) }
    ensures kept { options.new ≡ options.old }
{
    match row.kind() {
        Kind::Values => {
            let heard = hear_values(alloc, options, row, spare)?;
            Ok(heard)
        }
        Kind::Interpretation => Ok(Vec::new(alloc)),
        Kind::Local => Ok(Vec::new(alloc)),
        Kind::Global => Ok(Vec::new(alloc)),
    }
}
