//! A record in the making.
ghost use Rattle.std.specs.Prelude.{◌≡◌, ◌≢◌, ◌+◌, ◌<◌, ◌≤◌, [], ◌∷◌, ◌++◌, false, nat_le};
ghost use Rattle.std.specs.Prelude.{length, IsTrue, Err, OnOk, OnErr, IfErr};
ghost use Rattle.std.specs.Allocator.{alloc_error};
ghost use Rattle.std.specs.Prelude.{is_some, true, IfOk, if◌then◌else◌};
ghost use Rattle.hum_score.specs.Spelling.{IsToken, parts};
ghost use Rattle.hum_score.specs.Row.{tokens_of};
ghost use Rattle.hum_record.specs.Fields.{ends_from};
ghost use Rattle.hum_record.specs.Building.{tab_between, text_in, ends_in};
ghost use Rattle.hum_score.specs.declared.records.RecordFault.TheVariants.{L1, Memory};

use crate::body::Body;
use crate::reading::Record;
use crate::spare::{Spare, new_body};
use crate::{MOST_BYTES, RecordFault, SpinedKind};
use std::alloc::{AllocError, Global};
use std::marker::Model;

/// A spined record in the making: its kind, and the tokens so far.
///
/// Once it has run out of memory it is *spent*: each later `push` answers [`RecordFault::Memory`] again,
/// and each later `push_fitting` fails.
pub struct RecordBuilder {
    alloc: Global,
    kind: SpinedKind,
    // what the record will be: there with the first token, and before it where buffers are used again,
    // but not once the builder is spent
    body: Option<Box<Body>>,
    spent: bool,
}

// Written out, so that a caller's proof sees one call and not the drop of each field.
impl Drop for RecordBuilder {
    fn drop(self) {
        let RecordBuilder {
            alloc: _,
            kind: _,
            body: _body,
            spent: _,
        } = self;
    }
}

impl Model for RecordBuilder {
    ghost use Rattle.hum_record.specs.Building.{Draft};

    ghost Value = { Draft };

    ghost use Rattle.std.specs.Prelude.{◌≡◌, true, false, is_some};
    ghost use Rattle.hum_record.specs.Building.{draft_of, text_in, ends_in, IsDraftUnless};

    ghost view = { λ b. draft_of b.kind (text_in b.body) (ends_in b.body) b.spent };

    ghost invariant = { λ b. IsDraftUnless b.spent b.kind (text_in b.body) (ends_in b.body)
        × (b.spent ≡ true → is_some b.body ≡ false) };
}

impl RecordBuilder {
    ghost use Rattle.hum_record.specs.Building.{Draft, spelled};
    ghost use Rattle.hum_score.specs.Row.{Spined};

    /// A record of a kind, as yet without tokens.
    pub fn new(alloc: Global, kind: SpinedKind) -> Self
        ensures { result ≡ record { kind = kind; tokens = []; spent = false } }
    {
        Self::reusing(alloc, kind, &mut Spare::none(alloc))
    }

    /// The same in the buffers of a record that is done with. Nothing of that record shows.
    pub fn reusing(alloc: Global, kind: SpinedKind, spare: &mut Spare) -> Self
        ensures { result ≡ record { kind = kind; tokens = []; spent = false } }
    {
        let mut body = spare.take();
        empty(&mut body);
        RecordBuilder {
            alloc,
            kind,
            body,
            spent: false,
        }
    }

    /// What its tokens are.
    pub fn kind(&self) -> SpinedKind
        ensures { result ≡ self.now.kind }
    {
        self.kind
    }

    /// Adds a token at the end.
    ///
    /// The fault is [`RecordFault::L1`] where the text would pass 1,048,576 bytes. The builder is
    /// then as it was.
    pub fn push(&mut self, token: &[u8]) -> Result<(), RecordFault>
        requires { IsToken self.old.kind token.now }
        ensures pushed { OnOk result
            (self.new ≡ record self.old { tokens = self.old.tokens ++ token.now ∷ [] }) }
        ensures fits { OnOk result
            (length (spelled (self.old.tokens ++ token.now ∷ [])) ≤ 1048576) }
        ensures refused { IfErr result (λ fault. fault ≢ Memory →
            (fault ≡ L1)
            × (1048576 < length (spelled (self.old.tokens ++ token.now ∷ [])))
            × (self.new ≡ self.old)) }
        ensures spent { IfErr result (λ fault. fault ≡ Memory → IsTrue self.new.spent) }
        ensures kind { self.new.kind ≡ self.old.kind }
        ensures again { IsTrue self.old.spent → result ≡ Err Memory }
    {
        if self.push_near(token) {
            return Ok(());
        }
        self.push_far(token)
    }

    /// Adds a token at the end where there is room for it, or else nothing; and tells which.
    pub(crate) fn push_near(&mut self, token: &[u8]) -> bool
        requires { IsToken self.old.kind token.now }
        ensures pushed { result ≡ true
            → self.new ≡ record self.old { tokens = self.old.tokens ++ token.now ∷ [] } }
        ensures fits { result ≡ true
            → length (spelled (self.old.tokens ++ token.now ∷ [])) ≤ 1048576 }
        ensures unspent { result ≡ true → self.old.spent ≡ false }
        ensures kept { result ≡ false → self.new ≡ self.old }
    {
        if add_near(&mut self.body, token) {
            return true;
        }
        false
    }

    /// Adds the tokens of a record at the end where they surely fit and there is memory for them, or else
    /// nothing; and tells which.
    pub fn push_row(&mut self, row: &Record) -> bool
        requires { row.now ≡ Spined self.old.kind (tokens_of row.now) }
        ensures pushed { result ≡ true
            → self.new ≡ record self.old { tokens = self.old.tokens ++ tokens_of row.now } }
        ensures kept { result ≡ false → self.new ≡ self.old }
    {
        if add_row(&mut self.body, row.body()) {
            return true;
        }
        false
    }

    /// Adds a token at the end, as [`RecordBuilder::push`] does.
    pub(crate) fn push_far(&mut self, token: &[u8]) -> Result<(), RecordFault>
        requires { IsToken self.old.kind token.now }
        ensures pushed { OnOk result
            (self.new ≡ record self.old { tokens = self.old.tokens ++ token.now ∷ [] }) }
        ensures fits { OnOk result
            (length (spelled (self.old.tokens ++ token.now ∷ [])) ≤ 1048576) }
        ensures refused { IfErr result (λ fault. fault ≢ Memory →
            (fault ≡ L1)
            × (1048576 < length (spelled (self.old.tokens ++ token.now ∷ [])))
            × (self.new ≡ self.old)) }
        ensures spent { IfErr result (λ fault. fault ≡ Memory → IsTrue self.new.spent) }
        ensures kind { self.new.kind ≡ self.old.kind }
        ensures again { IsTrue self.old.spent → result ≡ Err Memory }
    {
        if self.spent {
            return Err(RecordFault::Memory);
        }
        match add_far(self.alloc, &mut self.body, token) {
            Ok(true) => Ok(()),
            Ok(false) => Err(RecordFault::L1),
            Err(_) => {
                self.body = None;
                self.spent = true;
                Err(RecordFault::Memory)
            }
        }
    }

    /// Adds a token with which the record stays short enough.
    ///
    /// # Errors
    /// Out of memory. The builder is then spent: each later call answers it again.
    pub fn push_fitting(&mut self, token: &[u8]) -> Result<(), AllocError>
        requires lawful { IsToken self.old.kind token.now }
        requires fits { length (spelled (self.old.tokens ++ token.now ∷ [])) ≤ 1048576 }
        ensures pushed { OnOk result
            (self.new ≡ record self.old { tokens = self.old.tokens ++ token.now ∷ [] }) }
        ensures spent { OnErr result (IsTrue self.new.spent) }
        ensures kind { self.new.kind ≡ self.old.kind }
        ensures again { IsTrue self.old.spent → result ≡ Err alloc_error }
    {
        match self.push(token) {
            Ok(()) => Ok(()),
            Err(RecordFault::Memory) => Err(AllocError),
            Err(_) => unreachable!(),
        }
    }

    /// The record of the tokens that were added.
    pub fn finish(self) -> Record
        requires filled { self.tokens ≢ [] }
        requires unspent { self.spent ≡ false }
        ensures { result ≡ Spined self.kind self.tokens }
    {
        let RecordBuilder {
            alloc: _,
            kind: _,
            body,
            spent: _,
        } = self;
        let Some(body) = body else {
            unreachable!();
        };
        Record::of_body(body)
    }
}

/// Leaves nothing of what stands in a body, where there is one, but its memory.
fn empty(body: &mut Option<Box<Body>>)
    ensures text { text_in body.new ≡ [] }
    ensures ends { ends_in body.new ≡ [] }
{
    if let Some(body) = body {
        body.clear();
    }
}

/// Whether a token may still be added.
fn has_room(text: &[u8], ends: &[u32], token: &[u8]) -> bool
    requires { length text.now ≤ 1048576 }
    ensures { result
        ≡ nat_le (length text.now + length (tab_between ends.now) + length token.now) 1048576 }
{
    if token.len() > MOST_BYTES {
        return false;
    }
    let between = if ends.is_empty() { 0 } else { 1 };
    text.len() + between + token.len() <= MOST_BYTES
}

/// Makes an empty body where there is none.
fn provide(alloc: Global, body: &mut Option<Box<Body>>) -> Result<(), AllocError>
    ensures text { OnOk result (text_in body.new ≡ text_in body.old) }
    ensures ends { OnOk result (ends_in body.new ≡ ends_in body.old) }
    ensures there { OnOk result (is_some body.new ≡ true) }
{
    if body.is_none() {
        *body = Some(new_body(alloc)?);
    }
    Ok(())
}

/// Adds a token behind the others where there is room for it, and tells whether there was.
fn add_near(body: &mut Option<Box<Body>>, token: &[u8]) -> bool
    ensures text { result ≡ true → text_in body.new
        ≡ text_in body.old ++ (tab_between (ends_in body.old) ++ token.now) }
    ensures ends { result ≡ true → ends_in body.new
        ≡ ends_in body.old ++ length (text_in body.new) ∷ [] }
    ensures fits { result ≡ true → length (text_in body.old)
        + length (tab_between (ends_in body.old)) + length token.now ≤ 1048576 }
    ensures some { result ≡ true → is_some body.old ≡ true }
    ensures there { is_some body.new ≡ is_some body.old }
    ensures same_text { result ≡ false → text_in body.new ≡ text_in body.old }
    ensures same_ends { result ≡ false → ends_in body.new ≡ ends_in body.old }
{
    match body {
        Some(body) => body.add_near(token),
        None => false,
    }
}

/// The same of all tokens of another body.
fn add_row(body: &mut Option<Box<Body>>, row: &Body) -> bool
    requires cut { row.now.ends ≡ ends_from 0 (parts row.now.text) }
    ensures text { result ≡ true → text_in body.new
        ≡ text_in body.old ++ (tab_between (ends_in body.old) ++ row.now.text) }
    ensures ends { result ≡ true → ends_in body.new ≡ ends_in body.old
        ++ ends_from (length (text_in body.old) + length (tab_between (ends_in body.old))) (parts row.now.text) }
    ensures fits { result ≡ true → length (text_in body.old)
        + length (tab_between (ends_in body.old)) + length row.now.text ≤ 1048576 }
    ensures some { result ≡ true → is_some body.old ≡ true }
    ensures there { is_some body.new ≡ is_some body.old }
    ensures same_text { result ≡ false → text_in body.new ≡ text_in body.old }
    ensures same_ends { result ≡ false → ends_in body.new ≡ ends_in body.old }
{
    match body {
        Some(body) => body.add_row(row),
        None => false,
    }
}

/// Adds a token behind the others, in a body that is made where there is none as yet; or answers that
/// it doesn't fit.
fn add_far(alloc: Global, body: &mut Option<Box<Body>>, token: &[u8]) -> Result<bool, AllocError>
    requires { length (text_in body.old) ≤ 1048576 }
    ensures fits { IfOk result (λ fits. fits
        ≡ nat_le (length (text_in body.old) + length (tab_between (ends_in body.old))
        + length token.now) 1048576) }
    ensures text { IfOk result (λ fits. text_in body.new
        ≡ (if fits then text_in body.old ++ (tab_between (ends_in body.old) ++ token.now)
        else text_in body.old)) }
    ensures ends { IfOk result (λ fits. ends_in body.new
        ≡ (if fits then ends_in body.old ++ length (text_in body.new) ∷ []
        else ends_in body.old)) }
    ensures there { OnOk result (is_some body.new ≡ true) }
{
    provide(alloc, body)?;
    let Some(body) = body else {
        unreachable!();
    };
    if !has_room(body.text(), body.ends(), token) {
        return Ok(false);
    }
    body.add(token)?;
    Ok(true)
}
