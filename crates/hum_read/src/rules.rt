//! The faults of lines, as rules.
ghost use Rattle.std.specs.Prelude.{◌≡◌};
ghost use Rattle.hum_read.specs.Denoted.{text_rule};

use hum_stage::Rule;
use hum_text::TextFault;

/// The rule that a text breaks, or none where the read failed or memory ran out.
pub fn text_rule(fault: TextFault) -> Option<Rule>
    ensures { result ≡ text_rule fault }
{
    match fault {
        TextFault::S1 => Some(Rule::S1),
        TextFault::S2 => Some(Rule::S2),
        TextFault::S3 => Some(Rule::S3),
        TextFault::S7 => Some(Rule::S7),
        TextFault::Read | TextFault::Memory => None,
    }
}
