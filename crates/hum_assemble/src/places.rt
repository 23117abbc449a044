//! The places of records in their scores, and what comes next of several.
ghost use Rattle.std.specs.Prelude.{◌≡◌};
ghost use Rattle.hum_assemble.specs.Places.{rank, step, is_shared, kind_at, null_at};
ghost use Rattle.hum_assemble.specs.Places.{earlier, is_over};

use hum_record::{SpinedKind, null_of};
use hum_stage::Rule;

/// Where a source's next record stands, in the order in which the sources' records are given.
#[derive(Clone, Copy)]
pub enum Place {
    /// Within a unit: a global comment before the record that begins added spines.
    Aside,
    /// Within a unit: the record that begins added spines.
    Begins,
    /// A global comment before the opening record.
    Front,
    /// The opening record.
    Opening,
    /// A global comment between the opening and the closing record.
    Remark,
    /// Local comments.
    Local,
    /// Interpretations without path indicator and exclusive interpretation.
    Tandem,
    /// Other interpretations.
    Change,
    /// A record of data.
    Note,
    /// The record that ends all spines.
    Closing,
    /// A global comment behind it.
    Tail,
    /// There is no record any more.
    Over,
}

/// What can be done next.
#[derive(Clone, Copy)]
pub enum Next {
    /// Records at this place are given.
    Gives(Place),
    /// The next record would break a rule.
    Refused(Rule),
    /// A record, or the end, of this source is needed.
    Wants(usize),
    /// There is nothing more, or a broken source hasn't what is needed.
    Over,
}

impl Place {
    /// Its number in the order.
    pub fn rank(self) -> u8
        ensures { result ≡ rank self }
    {
        match self {
            Place::Aside => 0,
            Place::Begins => 1,
            Place::Front => 2,
            Place::Opening => 3,
            Place::Remark => 4,
            Place::Local => 5,
            Place::Tandem => 6,
            Place::Change => 7,
            Place::Note => 8,
            Place::Closing => 9,
            Place::Tail => 10,
            Place::Over => 11,
        }
    }

    /// The number of its step of the score: the units of a group are one.
    pub fn step(self) -> u8
        ensures { result ≡ step self }
    {
        match self {
            Place::Local | Place::Tandem | Place::Change => 4,
            _ => self.rank(),
        }
    }

    /// Whether records of several sources there are given as one.
    pub fn is_shared(self) -> bool
        ensures { result ≡ is_shared self }
    {
        matches!(
            self,
            Place::Opening | Place::Local | Place::Tandem | Place::Note | Place::Closing
        )
    }

    /// The kind of the records there, or none for global comments.
    pub fn kind(self) -> Option<SpinedKind>
        ensures { result ≡ kind_at self }
    {
        match self {
            Place::Begins | Place::Opening | Place::Tandem | Place::Change | Place::Closing => Some(
                SpinedKind::Interpretation,
            ),
            Place::Local => Some(SpinedKind::Local),
            Place::Note => Some(SpinedKind::Values),
            Place::Aside | Place::Front | Place::Remark | Place::Tail | Place::Over => None,
        }
    }

    /// Whether there is no record any more.
    pub fn is_over(self) -> bool
        ensures { result ≡ is_over self }
    {
        self.rank() == 11
    }

    /// The one that comes first.
    pub fn earlier(self, other: Place) -> Place
        ensures { result ≡ earlier self other }
    {
        if self.rank() <= other.rank() {
            self
        } else {
            other
        }
    }
}

/// The null token of a kind, or nothing for global comments.
pub fn null_at(kind: Option<SpinedKind>) -> &'static [u8]
    ensures { result.now ≡ null_at kind }
{
    match kind {
        None => b"",
        Some(kind) => null_of(kind),
    }
}
