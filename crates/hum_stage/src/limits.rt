//! How large a score may be: the bytes of a record, and the number of records.
ghost use Rattle.std.specs.Prelude.{◌≡◌, ◌≤◌, ◌<◌, None, Some, IfErr, IfOk, OnOk};
ghost use Rattle.hum_stage.specs.declared.faults.Refusal.TheVariants.{Rule as Broken};
ghost use Rattle.hum_stage.specs.declared.faults.Rule.TheVariants.{L1, L2};

use crate::faults::{Refusal, Rule};
use hum_record::Record;

/// The record that was made.
///
/// # Errors
/// L1 where it would be too long, and none was made.
pub fn unless_long(made: Option<Record>) -> Result<Record, Refusal>
    ensures made { IfOk result (λ row. made ≡ Some row) }
    ensures long { IfErr result (λ refusal. (refusal ≡ Broken L1) × (made ≡ None)) }
{
    match made {
        Some(made) => Ok(made),
        None => Err(Refusal::Rule(Rule::L1)),
    }
}

/// Whether there is room for so many records.
///
/// # Errors
/// L2 where there isn't.
pub fn check_room(count: u128, room: u64) -> Result<(), Refusal>
    ensures fits { OnOk result (count ≤ room) }
    ensures many { IfErr result (λ refusal. (refusal ≡ Broken L2) × (room < count)) }
{
    if count > room as u128 {
        return Err(Refusal::Rule(Rule::L2));
    }
    Ok(())
}
