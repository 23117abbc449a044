//! The command trans, and what comes behind it.
ghost use Rattle.std.specs.Prelude.{◌≡◌, ◌+ℤ◌, neg_ℤ, pos, negsuc, [], ◌∷◌, IfOk};
ghost use Rattle.hum_pitch.specs.Pitch.{IsWithin};
ghost use Rattle.hum_stage.specs.declared.faults.End.TheVariants.{Closed};
ghost use Rattle.hum_tones.specs.Commands.{trans_sign, meaning_of_semits, meaning_of_recip};
ghost use Rattle.hum_laws.specs.Piped.{IsAlone, IsPiped};
ghost use Rattle.hum_laws.specs.Unsigned.{unsigned_under};
ghost use Rattle.hum_laws.specs.Transposing.{moved_by, transposed_under};
ghost use Rattle.hum_laws.specs.Transposing.{semitones_under, as_semitones, durations_under};

use crate::commands::{again, piped_and_alone};
use crate::given::{ClosedScore, Sides};
use hum_commands::CommandOptions::{Recip, Semits, Trans};
use hum_tones::{RecipOptions, SemitsOptions, TransOptions};

/// Both ways, one after the other.
fn sum(some: TransOptions, more: TransOptions) -> TransOptions
    requires steps { IsWithin (negsuc 48) (some.steps +ℤ more.steps) (pos 49) }
    requires semitones { IsWithin (negsuc 83) (some.semitones +ℤ more.semitones) (pos 84) }
    ensures steps { result.steps ≡ some.steps +ℤ more.steps }
    ensures semitones { result.semitones ≡ some.semitones +ℤ more.semitones }
{
    TransOptions {
        steps: some.steps + more.steps,
        semitones: some.semitones + more.semitones,
    }
}

/// The way back.
fn opposite(way: TransOptions) -> TransOptions
    ensures steps { result.steps ≡ neg_ℤ way.steps }
    ensures semitones { result.semitones ≡ neg_ℤ way.semitones }
{
    TransOptions {
        steps: -way.steps,
        semitones: -way.semitones,
    }
}

/// Transpositions add up: `trans -d 1 -c 2 | trans -d 2 -c 3` is `trans -d 3 -c 5`, but for the
/// records of `*Tr`, of which the one has two and the other one behind each record with `**kern`.
///
/// # Errors
/// Out of memory.
pub fn transpositions_add_up(
    score: ClosedScore<'_>,
    some: TransOptions,
    more: TransOptions,
) -> Sides
    requires steps { IsWithin (negsuc 48) (some.steps +ℤ more.steps) (pos 49) }
    requires semitones { IsWithin (negsuc 83) (some.semitones +ℤ more.semitones) (pos 84) }
    ensures in_turn { IfOk result (λ both.
        IsPiped (moved_by 1 some.steps some.semitones) (moved_by 2 more.steps more.semitones)
        score.entry.records.now both.0) }
    ensures at_once { IfOk result (λ both.
        IsAlone (moved_by 1 (some.steps +ℤ more.steps) (some.semitones +ℤ more.semitones))
        score.entry.records.now both.1) }
    ensures in_turn_is { IfOk result (λ both. both.0.end ≡ Closed →
        both.0.records.items
        ≡ transposed_under (trans_sign more.steps more.semitones
        ∷ trans_sign some.steps some.semitones ∷ []) (some.steps +ℤ more.steps)
        (some.semitones +ℤ more.semitones) score.entry.records.now) }
    ensures at_once_is { IfOk result (λ both. both.1.end ≡ Closed →
        both.1.records.items
        ≡ transposed_under (trans_sign (some.steps +ℤ more.steps)
        (some.semitones +ℤ more.semitones) ∷ []) (some.steps +ℤ more.steps)
        (some.semitones +ℤ more.semitones) score.entry.records.now) }
{
    let all = sum(some, more);
    piped_and_alone(score, Trans(some), Trans(more), Trans(all))
}

/// What is transposed by m semitones has each of its semitones m higher: `trans -c m | semits` is
/// `semits` with m added to the number of each pitch, and the records of `*Tr`.
///
/// # Errors
/// Out of memory.
pub fn semits_shifted(score: ClosedScore<'_>, way: TransOptions, options: SemitsOptions) -> Sides
    ensures moved { IfOk result (λ both.
        IsPiped (moved_by 1 way.steps way.semitones) (meaning_of_semits 2 options)
        score.entry.records.now both.0) }
    ensures still { IfOk result (λ both.
        IsAlone (meaning_of_semits 1 options) score.entry.records.now both.1) }
    ensures moved_is { IfOk result (λ both. both.0.end ≡ Closed →
        both.0.records.items
        ≡ semitones_under (trans_sign way.steps way.semitones ∷ []) way.semitones
        options.ties_left_out score.entry.records.now) }
    ensures still_is { IfOk result (λ both. both.1.end ≡ Closed →
        both.1.records.items ≡ as_semitones options.ties_left_out score.entry.records.now) }
{
    piped_and_alone(score, Trans(way), Semits(options), Semits(options))
}

/// What is transposed lasts as long as before: `trans | recip` is `recip`, and the records of `*Tr`.
///
/// # Errors
/// Out of memory.
pub fn durations_stay(score: ClosedScore<'_>, way: TransOptions) -> Sides
    ensures moved { IfOk result (λ both.
        IsPiped (moved_by 1 way.steps way.semitones) (meaning_of_recip 2 (record {}))
        score.entry.records.now both.0) }
    ensures still { IfOk result (λ both.
        IsAlone (meaning_of_recip 1 (record {})) score.entry.records.now both.1) }
    ensures moved_is { IfOk result (λ both. both.0.end ≡ Closed →
        both.0.records.items
        ≡ durations_under (trans_sign way.steps way.semitones ∷ []) score.entry.records.now) }
    ensures still_is { IfOk result (λ both. both.1.end ≡ Closed →
        both.1.records.items ≡ durations_under [] score.entry.records.now) }
{
    piped_and_alone(score, Trans(way), Recip(RecipOptions), Recip(RecipOptions))
}

/// There and back: `trans -d n -c m | trans -d -n -c -m` is the score, with the accidental `n` dropped
/// from its pitches, and the records of `*Tr`. Answers what comes there, and what comes back.
///
/// # Errors
/// Out of memory.
pub fn there_and_back(score: ClosedScore<'_>, way: TransOptions) -> Sides
    ensures there { IfOk result (λ both.
        IsAlone (moved_by 1 way.steps way.semitones) score.entry.records.now both.0) }
    ensures back { IfOk result (λ both. IsPiped (moved_by 1 way.steps way.semitones)
        (moved_by 2 (neg_ℤ way.steps) (neg_ℤ way.semitones)) score.entry.records.now both.1) }
    ensures there_is { IfOk result (λ both. both.0.end ≡ Closed →
        both.0.records.items
        ≡ transposed_under (trans_sign way.steps way.semitones ∷ []) way.steps way.semitones
        score.entry.records.now) }
    ensures same { IfOk result (λ both. both.1.end ≡ Closed →
        both.1.records.items
        ≡ unsigned_under (trans_sign (neg_ℤ way.steps) (neg_ℤ way.semitones)
        ∷ trans_sign way.steps way.semitones ∷ []) score.entry.records.now) }
{
    let back = opposite(way);
    again(score, Trans(way), Trans(back))
}
