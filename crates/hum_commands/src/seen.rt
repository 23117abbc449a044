//! What contracts see of a command's stage, as one ghost field, so that the list of commands stands once.
ghost use Rattle.hum_commands.specs.Seen.{Seen};

use hum_stage::{AtOnce, Decides, Lagging, LooksAhead, Stage};

/// A stage, as contracts see it.
pub trait IsSeen {
    /// What a state stands for, and what [`Stage`] says of it.
    ghost seen: { Self → Seen };
}

impl<C: Decides> IsSeen for AtOnce<C> {
    ghost use Rattle.hum_stage.specs.Laws.{standing_within};
    ghost use Rattle.hum_stage.specs.Lawful.{standing_lawful};

    ghost seen = { λ s. record {
      stands = ⟦<AtOnce<C> as Stage>⟧.stands s;
      left = ⟦<AtOnce<C> as Stage>⟧.left s;
      spent = ⟦<AtOnce<C> as Stage>⟧.spent s;
      within = λ t h. standing_within _ _ _ _ t h;
      lawful = λ t h. standing_lawful _ _ _ _ t h;
    } };
}

impl<C: LooksAhead> IsSeen for Lagging<C> {
    ghost use Rattle.hum_stage.specs.LookLaws.{lags_within};
    ghost use Rattle.hum_stage.specs.Lawful.{lags_lawful};

    ghost seen = { λ s. record {
      stands = ⟦<Lagging<C> as Stage>⟧.stands s;
      left = ⟦<Lagging<C> as Stage>⟧.left s;
      spent = ⟦<Lagging<C> as Stage>⟧.spent s;
      within = λ t h. lags_within _ _ _ _ _ t h;
      lawful = λ t h. lags_lawful _ _ _ _ _ t h;
    } };
}
