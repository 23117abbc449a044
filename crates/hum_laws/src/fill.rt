//! The command ditto, again.
ghost use Rattle.std.specs.Prelude.{◌≡◌, IfOk};
ghost use Rattle.hum_stage.specs.declared.faults.End.TheVariants.{Closed};
ghost use Rattle.hum_ditto.specs.Ditto.{meaning};
ghost use Rattle.hum_laws.specs.Piped.{IsAlone, IsPiped};

use crate::commands::again;
use crate::given::{ClosedScore, Sides};
use hum_commands::CommandOptions::Ditto;
use hum_ditto::DittoOptions;

/// What ditto has filled it doesn't fill again: `ditto | ditto` is `ditto`, also with `-p`.
///
/// # Errors
/// Out of memory.
pub fn ditto_twice(score: ClosedScore<'_>, options: DittoOptions) -> Sides
    ensures once { IfOk result (λ both. IsAlone (meaning 1 options) score.entry.records.now both.0) }
    ensures twice { IfOk result (λ both.
        IsPiped (meaning 1 options) (meaning 2 options) score.entry.records.now both.1) }
    ensures same { IfOk result (λ both. both.0.end ≡ Closed → both.1.end ≡ Closed →
        both.1.records.items ≡ both.0.records.items) }
{
    let options_too = options.copy(score.alloc)?;
    again(score, Ditto(options), Ditto(options_too))
}
