//! The command rid: drops records by their kinds.
#![tactic(auto)]

ghost use Rattle.std.specs.Prelude.{◌<◌, length, ◌≡◌, false, not, ◌&&◌};
ghost use Rattle.std.specs.List.{list_all};
ghost use Rattle.std.specs.Str.{bytes_eq};
ghost use Rattle.hum_record.specs.Contents.{is_data};
ghost use Rattle.hum_score.specs.Row.{tokens_of};
ghost use Rattle.hum_rid.specs.Rid.{rid, drops, all_are};

pub use hum_choices::RidOptions;
use hum_path::steers;
use hum_record::{Kind, Record, Spare};
use hum_stage::{AtOnce, Command, Decides, Refusal};
use std::alloc::Global;
use std::mem::{forget, replace};

/// Whether each token of a record is this one.
fn all_are(row: &Record, token: &[u8]) -> bool
    ensures { result ≡ all_are token.now (tokens_of row.now) }
{
    row.width() > 0 && none_differs(row, token)
}

fn none_differs(row: &Record, token: &[u8]) -> bool
    ensures { result ≡ list_all (bytes_eq token.now) (tokens_of row.now) }
{
    row.tokens().all(|other| token == other)
}

/// Whether a record is dropped.
fn drops(options: &RidOptions, row: &Record) -> bool
    ensures { result ≡ drops options.now row.now }
{
    match row.kind() {
        Kind::Global => {
            options.global_comments
                || (options.empty_global_comments && b"!!".as_slice() == row.text())
        }
        Kind::Local => {
            options.local_comments || (options.null_local_comments && all_are(row, b"!".as_slice()))
        }
        Kind::Interpretation => {
            options.interpretations
                || (options.null_interpretations && all_are(row, b"*".as_slice()))
                || (options.tandems && !steers(row) && !none_differs(row, b"*".as_slice()))
        }
        Kind::Values => options.values || (options.null_values && all_are(row, b".".as_slice())),
    }
}

/// Whether a record of this text is data: its first byte tells.
fn begins_data(text: &[u8]) -> bool
    requires { 0 < length text.now }
    ensures { result ≡ is_data text.now }
{
    !matches!(text[0], b'!' | b'*')
}

/// Whether no data is dropped.
fn keeps_data(options: &RidOptions) -> bool
    ensures { result ≡ (not options.now.values && not options.now.null_values) }
{
    !options.values && !options.null_values
}

/// What is dropped.
#[derive(Drop)]
pub struct Dropping {
    options: RidOptions,
    // whether no data is dropped
    keeps_data: bool,
}

impl Decides for Dropping {
    type Options = RidOptions;

    type Due = Option<Record>;

    ghost use Rattle.hum_words.specs.declared.commands.Command.TheVariants.{Rid as RidCommand};

    ghost command = { RidCommand };

    ghost decide = { rid };

    ghost keeps = { λ options. options.interpretations ≡ false };

    ghost follows = { λ s decide past. (decide ≡ rid s.options)
        × (s.keeps_data ≡ (not s.options.values && not s.options.null_values)) };

    fn command() -> Command {
        Command::Rid
    }

    fn begin(_alloc: Global, options: RidOptions) -> Dropping {
        let keeps_data = keeps_data(&options);
        Dropping {
            options,
            keeps_data,
        }
    }

    fn leaves(&self, next: &Record) -> bool {
        begins_data(next.text()) && self.keeps_data
    }

    fn step(
        &mut self,
        next: Record,
        _room: u64,
        pool: &mut Spare,
        out: &mut Option<Record>,
    ) -> Result<(), Refusal> {
        if drops(&self.options, &next) {
            pool.keep(next);
        } else {
            forget(replace(out, Some(next)));
        }
        Ok(())
    }
}

/// The command rid, as a stage.
pub type Rid = AtOnce<Dropping>;
