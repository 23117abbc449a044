//! What stages make of lawful records, as contracts.
ghost use Rattle.std.specs.Prelude.{ℕ, List};
ghost use Rattle.hum_choices.specs.Cleave.{AreLawful};
ghost use Rattle.hum_commands.specs.Meaning.{meaning};
ghost use Rattle.hum_nodes.specs.Trees.{Part};
ghost use Rattle.hum_valid.specs.Records.{KeepsRecords, MergesRecords};
ghost use Rattle.hum_valid.specs.Trees.{MeansRecords};

use hum_cleave::CleaveOptions;
use hum_commands::CommandOptions;

/// Of several scores with lawful records assemble makes lawful records.
pub fn merging_keeps_records()
    ensures { MergesRecords }
{}

/// A tree of stages that make lawful records means lawful records.
pub fn trees_mean_records()
    ensures { (parts : List Part) → MeansRecords parts }
{}

fn cleave_is_lawful(told: &CleaveOptions)
    ensures { AreLawful told.now }
{
    let _new_name = told.new_name();
    let _separator = told.separator();
}

/// Of lawful records that are a score a command makes lawful records, whatever it is told to do.
pub fn commands_keep_records(options: &CommandOptions)
    ensures { (number : ℕ) → KeepsRecords (meaning number options.now).outcomes }
{
    if let CommandOptions::Cleave(told) = options {
        cleave_is_lawful(told)
    }
}
