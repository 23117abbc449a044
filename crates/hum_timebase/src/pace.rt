//! How far apart the records stand.
ghost use Rattle.std.specs.Prelude.{◌≡◌, ◌<◌, ◌≤◌, ◌++◌, Ok, IfOk, OnOk, length};
ghost use lib.Chars.{codes};
ghost use Rattle.hum_score.specs.declared.records.SpinedKind.TheVariants.{Interpretation};
ghost use Rattle.hum_score.specs.Spelling.{IsToken};

use hum_choices::TimebaseOptions;
use hum_frac::Frac;
use std::alloc::{AllocError, Global};
use std::marker::Model;

/// A step above 0, and how it is written.
#[derive(Drop)]
pub(crate) struct Pace {
    step: Frac,
    text: Vec<u8>,
}

impl Model for Pace {
    ghost use Rattle.hum_choices.specs.Timebase.{Pace};
    ghost use Rattle.hum_timebase.specs.Writing.{IsPace};

    ghost Value = { Pace };

    ghost view = { λ p. record { step = p.step; text = p.text.items } };

    ghost invariant = { λ p. IsPace p.step p.text.items };
}

impl Pace {
    /// The step of the command's options.
    pub(crate) fn new(options: TimebaseOptions) -> Pace
        ensures { result ≡ record { step = options.step; text = options.text.items } }
    {
        let TimebaseOptions { step, text } = options;
        Pace { step, text }
    }

    /// The step.
    pub(crate) fn step(&self) -> Frac
        ensures step { result ≡ self.now.step }
        ensures positive { 0 < self.now.step.top }
    {
        self.step
    }

    /// The token that tells it.
    pub(crate) fn token(&self, alloc: Global) -> Result<Vec<u8>, AllocError>
        ensures token { IfOk result (λ token. token.items ≡ codes "*tb" ++ self.now.text) }
        ensures lawful { IfOk result (λ token. IsToken Interpretation token.items) }
        ensures short { OnOk result (length self.now.text ≤ 15) }
    {
        let mut token = Vec::new(alloc);
        token.extend_from_slice(b"*tb")?;
        token.extend_from_slice(&self.text)?;
        Ok(token)
    }
}
