//! Tokens in whose place stands what their parts give.
ghost use Rattle.std.specs.Prelude.{◌≡◌, ◌++◌, [], codes, ◌&&◌, OnOk, IfOk, option_map, true, false, None};
ghost use Rattle.hum_score.specs.declared.records.SpinedKind.TheVariants.{Values};
ghost use Rattle.hum_score.specs.Spelling.{IsToken};
ghost use Rattle.hum_record.specs.RecordDraft.{Holds};
ghost use Rattle.hum_stage.specs.Refusals.{IfTold};
ghost use Rattle.hum_cells.specs.Rewriter.{Pushes};
ghost use Rattle.hum_tones.specs.Subtokens.{lone_text, HasAdded, IsRewritten};
ghost use Rattle.hum_kern.specs.Note.{reading, is_rest};
ghost use Rattle.hum_tones.specs.Faults.{rule_of};
ghost use Rattle.hum_tones.specs.Recip.{rest_sign, recip_of};
ghost use Rattle.hum_tones.specs.Semits.{of_reading, semits_of};

use crate::semitone_texts::semitones_text;
use crate::transposing::{add_transposed, push_transposed};
use hum_choices::TransOptions;
use hum_kern::{KernFault, Note, leading_text, read_duration, read_lone, read_note};
use hum_record::RecordDraft;
use hum_stage::{Refusal, Rule};
use std::alloc::AllocError;

/// What each part of a token gives.
#[derive(Clone, Copy)]
pub enum PartRule {
    /// Its semitones above middle c, and `r` for a rest. Where `ties_left_out` is set, notes that
    /// go on or end a tie give nothing.
    Semitones { ties_left_out: bool },
    /// Its duration, as it is written.
    Durations,
    /// Itself, with its pitch so far away.
    Transposed(TransOptions),
}

/// The rule by which a part is refused.
pub(crate) fn rule_of(fault: KernFault) -> Rule
    ensures { result ≡ rule_of fault }
{
    match fault {
        KernFault::K1 => Rule::K1,
        KernFault::K2 => Rule::K2,
        KernFault::K3 => Rule::K3,
    }
}

/// Whether a part is a rest.
fn is_rest(part: &[u8]) -> bool
    ensures { result ≡ is_rest part.now }
{
    part.contains(&b'r')
}

/// The sign of a rest, where a part is one, and the space behind what the part gives.
fn behind(part: &[u8]) -> &'static [u8]
    ensures { result.now ≡ rest_sign part.now ++ codes " " }
{
    if is_rest(part) {
        b"r ".as_slice()
    } else {
        b" ".as_slice()
    }
}

/// Adds the duration of a part as it is written.
fn add_duration(part: &[u8], text: &mut Vec<u8>) -> Result<(), Refusal>
    ensures { IfTold result (HasAdded (recip_of part.now) text.old.items text.new.items) }
{
    let found = match read_duration(part) {
        Ok(found) => found,
        Err(fault) => return Err(Refusal::Rule(rule_of(fault))),
    };
    match found.value {
        Some(_) => {
            text.extend_from_slice(&part[found.start..found.end])?;
            text.extend_from_slice(behind(part))?;
            Ok(())
        }
        None => {
            if is_rest(part) {
                text.extend_from_slice(b"r ")?;
            }
            Ok(())
        }
    }
}

/// Whether a note is left out: where ties are, one that goes on or ends a tie.
fn is_left_out(ties_left_out: bool, note: &Note) -> bool
    ensures { result ≡ (ties_left_out && note.now.continued) }
{
    ties_left_out && note.continued
}

/// What a part gives by what it says: the semitones of its note, unless that is left out, or `r`
/// for a rest.
fn note_text(note: Note, ties_left_out: bool) -> Option<&'static [u8]>
    ensures { option_map (λ text. text.now) result ≡ of_reading ties_left_out (reading note) }
{
    if note.rest {
        return Some(b"r".as_slice());
    }
    match note.pitch {
        None => None,
        Some(pitch) => {
            if is_left_out(ties_left_out, &note) {
                return None;
            }
            Some(semitones_text(pitch.semits()))
        }
    }
}

/// A text, or a null token where there is none.
fn or_null(text: Option<&'static [u8]>) -> &'static [u8]
    ensures { result.now ≡ lone_text (option_map (λ text. text.now) text.entry) }
{
    match text {
        Some(text) => text,
        None => b".".as_slice(),
    }
}

/// Adds the semitones of a part.
fn add_semitones(part: &[u8], ties_left_out: bool, text: &mut Vec<u8>) -> Result<(), Refusal>
    ensures { IfTold result
        (HasAdded (semits_of ties_left_out part.now) text.old.items text.new.items) }
{
    let note = match read_note(part) {
        Ok(note) => note,
        Err(fault) => return Err(Refusal::Rule(rule_of(fault))),
    };
    match note_text(note, ties_left_out) {
        None => Ok(()),
        Some(given) => {
            text.extend_from_slice(given)?;
            text.push(b' ')?;
            Ok(())
        }
    }
}

impl PartRule {
    ghost use Rattle.hum_tones.specs.PartRule.{gives, given};

    /// Adds what a part gives, with a space behind it.
    fn add(self, part: &[u8], text: &mut Vec<u8>) -> Result<(), Refusal>
        ensures { IfTold result (HasAdded (gives self part.now) text.old.items text.new.items) }
    {
        match self {
            PartRule::Semitones { ties_left_out } => add_semitones(part, ties_left_out, text),
            PartRule::Durations => add_duration(part, text),
            PartRule::Transposed(transposition) => add_transposed(transposition, part, text),
        }
    }

    /// Puts what a data token becomes into the empty text, part by part.
    ///
    /// # Errors
    /// The rule by which it is refused; or out of memory.
    #[inline(never)]
    fn join_parts(self, token: &[u8], text: &mut Vec<u8>) -> Result<(), Refusal>
        requires empty { text.old.items ≡ [] }
        requires lawful { IsToken Values token.now }
        ensures { IfTold result (IsRewritten (given self token.now) text.new.items) }
    {
        for part in token.split(|b| *b == b' ') {
            self.add(part, text)?;
        }
        match text.pop() {
            Some(_) => Ok(()),
            None => {
                text.push(b'.')?;
                Ok(())
            }
        }
    }

    /// Adds what a data token becomes by its parts to a record in the making. Its text is made in
    /// `text`.
    ///
    /// # Errors
    /// The rule by which it is refused; or out of memory.
    pub(crate) fn push_parts(
        self,
        token: &[u8],
        text: &mut Vec<u8>,
        making: &mut RecordDraft,
    ) -> Result<(), Refusal>
        requires lawful { IsToken Values token.now }
        requires kind { making.old.builder.kind ≡ Values }
        ensures pushed { IfTold result (Pushes (given self token.now)
            (Holds Values making.old.builder making.old.is_long)
            (Holds Values making.new.builder making.new.is_long)) }
        ensures kind { OnOk result (making.new.builder.kind ≡ Values) }
    {
        text.clear();
        self.join_parts(token, text)?;
        making.push(text)?;
        Ok(())
    }

    /// Adds what a data token becomes to a record in the making where it is one subtoken, as most are,
    /// or else nothing; and tells which.
    ///
    /// # Errors
    /// Out of memory.
    #[inline(always)]
    pub(crate) fn push_usual(
        self,
        token: &[u8],
        making: &mut RecordDraft,
    ) -> Result<bool, AllocError>
        requires lawful { IsToken Values token.now }
        requires kind { making.old.builder.kind ≡ Values }
        ensures pushed { IfOk result (λ pushed. pushed ≡ true → Pushes (given self token.now)
            (Holds Values making.old.builder making.old.is_long)
            (Holds Values making.new.builder making.new.is_long) None) }
        ensures kept { IfOk result (λ pushed. pushed ≡ false → making.new ≡ making.old) }
        ensures kind { making.new.builder.kind ≡ Values }
    {
        match self {
            PartRule::Semitones { ties_left_out } => match read_lone(token) {
                Some(note) => {
                    making.push(or_null(note_text(note, ties_left_out)))?;
                    Ok(true)
                }
                None => Ok(false),
            },
            PartRule::Durations => match leading_text(token) {
                Some(given) => {
                    making.push(given)?;
                    Ok(true)
                }
                None => Ok(false),
            },
            PartRule::Transposed(options) => match read_lone(token) {
                Some(note) => push_transposed(options, token, note, making),
                None => Ok(false),
            },
        }
    }
}
