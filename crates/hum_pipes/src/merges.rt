//! What assemble means in a plan, as a contract.
ghost use Rattle.hum_pipes.specs.Merges.{MergesByGroups};

/// A stage that puts scores side by side means the groups of what its sources mean.
pub fn merges_are_by_groups()
    ensures { MergesByGroups }
{}
