//! Commands on notes, one behind another.
ghost use Rattle.std.specs.Prelude.{◌≡◌, IfOk};
ghost use Rattle.hum_stage.specs.declared.faults.End.TheVariants.{Closed};
ghost use Rattle.hum_commands.specs.Meaning.{meaning};
ghost use Rattle.hum_laws.specs.Piped.{IsAlone, IsPiped};
ghost use Rattle.hum_laws.specs.Notes.{NamesColumns, IsOnNotes};

use crate::commands::again;
use crate::given::{ClosedScore, Sides};
use hum_commands::CommandOptions;

/// What semits, mint or recip wrote, no command on notes changes: the columns are no longer
/// `**kern`.
///
/// # Errors
/// Out of memory.
pub fn told_once(score: ClosedScore<'_>, first: CommandOptions, second: CommandOptions) -> Sides
    requires names { NamesColumns first }
    requires tells { IsOnNotes second }
    ensures once { IfOk result (λ both. IsAlone (meaning 1 first) score.entry.records.now both.0) }
    ensures twice { IfOk result (λ both.
        IsPiped (meaning 1 first) (meaning 2 second) score.entry.records.now both.1) }
    ensures same { IfOk result (λ both. both.0.end ≡ Closed → both.1.end ≡ Closed →
        both.1.records.items ≡ both.0.records.items) }
{
    again(score, first, second)
}
