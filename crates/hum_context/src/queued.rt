//! A record that waits.
ghost use Rattle.std.specs.Prelude.{◌≡◌, ◌≢◌, ◌≤◌, [], length};
ghost use Rattle.hum_score.specs.declared.records.Kind.TheVariants.{Values as AnyValues};
ghost use Rattle.hum_score.specs.Row.{kind_of, width_of};

use crate::below::Below;
use crate::heard::KeptHeard;
use crate::held::HeldRecord;
use crate::links::Links;

/// A record that waits, what was heard of its tokens, and where the spines under it go.
#[derive(Drop)]
pub struct Queued {
    pub(crate) row: HeldRecord,
    // of each token, or nothing where none is collected
    pub(crate) heard: Vec<KeptHeard>,
    pub(crate) below: Below,
    pub(crate) links: Links,
    // only data is heard
    pub ghost valued: { heard.items ≢ [] → kind_of row ≡ AnyValues },
    pub ghost narrow: { length heard.items ≤ width_of row },
}
