//! The limits, by their numbers, as a contract.
#![tactic(auto)]

ghost use Rattle.hum_limits.specs.Limits.{RecordsAreShort, RecordsAreFew, SpinesAreFew, WaitsAreShort};
ghost use Rattle.hum_limits.specs.Limits.{PlansAreShort, NumbersAreSmall, ScoresAreSmall};

/// How large scores, records, plans, bundles and numbers may be, and for how many others a record waits.
pub fn limits_are_numbers()
    ensures short { RecordsAreShort }
    ensures few { RecordsAreFew }
    ensures spines { SpinesAreFew }
    ensures waits { WaitsAreShort }
    ensures plans { PlansAreShort }
    ensures numbers { NumbersAreSmall }
    ensures scores { ScoresAreSmall }
{}
