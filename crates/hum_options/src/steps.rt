//! Durations.
ghost use Rattle.std.specs.Prelude.{◌≡◌, IfSome, IfOk};
ghost use Rattle.std.specs.Option.{option_map};
ghost use Rattle.hum_options.specs.Steps.{IsStep, step_of};

use hum_choices::TimebaseOptions;
use hum_kern::read_recip;
use std::alloc::{AllocError, Global};

/// The step of a timebase that a text is, if it is one: a duration as in `**recip`, as `16`, `4.`
/// or `3%2`, and nothing else.
pub fn step(alloc: Global, text: &[u8]) -> Result<Option<TimebaseOptions>, AllocError>
    ensures read { IfOk result (λ found.
        option_map (λ options. options.step) found ≡ step_of text.now) }
    ensures is { IfOk result (λ found. IfSome found (IsStep text.now)) }
{
    match read_recip(text) {
        Ok(step) => Ok(Some(TimebaseOptions {
            step,
            text: text.to_vec(alloc)?,
        })),
        Err(_) => Ok(None),
    }
}
