//! Two plans one behind the other, as a contract.
ghost use Rattle.hum_pipes.specs.Piped.{PipesArePipes};
ghost use Rattle.hum_pipes.specs.Stages.{PlansAreJoined};

/// Two plans of which the second reads the first's text write what one plan with all of their stages
/// writes, where no stage of the first refuses. Where one does, the one plan tells its fault, and
/// writes a prefix of that text.
pub fn pipes_are_pipes()
    ensures { PipesArePipes }
{}

/// The stages of two plans, the second's behind the first's, are the parts of the one plan: what a stage
/// does doesn't depend on its number, but for the number in its fault.
pub fn plans_are_joined()
    ensures { PlansAreJoined }
{}
