//! What stages give of a score, one alone or two one after another.
//!
//! Generic in the stage, so that no proof here looks into it: `crate::commands` calls them.
ghost use Rattle.std.specs.Prelude.{◌≡◌, ◌≤◌, length, IfOk};
ghost use Rattle.hum_score.specs.InOrder.{IsClosed};
ghost use Rattle.hum_stage.specs.Meaning.{Meaning, opening};
ghost use Rattle.hum_stage.specs.declared.TheConstants.{MOST_RECORDS};
ghost use Rattle.hum_laws.specs.Closed.{IsClosed-prop};
ghost use Rattle.hum_laws.specs.Piped.{IsAlone, IsPiped, IsFirst};

use hum_record::Record;
use hum_stage::{End, MOST_RECORDS, Stage, whole};
use std::alloc::{AllocError, Global};

/// A closed score that a law is tried on, and what lends the memory for it.
#[derive(Clone, Copy)]
pub struct ClosedScore<'a> {
    pub alloc: Global,
    pub records: &'a [Record],
    pub ghost closed: { IsClosed records.now } by { IsClosed-prop records.now },
    pub ghost few: { length records.now ≤ MOST_RECORDS },
}

/// The records that come of a score, and how they end.
#[derive(Drop)]
pub struct Given {
    pub records: Vec<Record>,
    pub end: End,
}

/// What both sides of a law give; or out of memory.
pub type Sides = Result<(Given, Given), AllocError>;

// A second list that is the same.
fn copied(alloc: Global, records: &[Record]) -> Result<Vec<Record>, AllocError>
    ensures { IfOk result (λ copies. copies.items ≡ records.now) }
{
    let mut copies = Vec::new(alloc);
    for record in records {
        copies.push(record.copy(alloc)?)?;
    }
    Ok(copies)
}

/// What a stage gives of a closed score.
pub(crate) fn alone<S: Stage + Drop>(score: ClosedScore<'_>, stage: S) -> Result<Given, AllocError>
    requires fresh { (m : Meaning) × S.stands stage (opening m) }
    ensures { IfOk result (λ given. (m : Meaning) → S.stands stage (opening m)
        → IsAlone m score.entry.records.now given) }
{
    let (records, end) = whole(
        score.alloc,
        stage,
        copied(score.alloc, score.records)?,
        End::Closed,
    )?;
    Ok(Given { records, end })
}

/// What a closed score becomes by a stage, and what that becomes by another one.
pub(crate) fn again<S: Stage + Drop>(score: ClosedScore<'_>, first: S, second: S) -> Sides
    requires first { IsFirst (S.stands first) }
    requires second { (n : Meaning) × S.stands second (opening n) }
    ensures { IfOk result (λ both. (m n : Meaning) → S.stands first (opening m)
        → S.stands second (opening n)
        → IsAlone m score.entry.records.now both.0 × IsPiped m n score.entry.records.now both.1) }
{
    let alloc = score.alloc;
    let once = alone(score, first)?;
    let (again, end) = whole(alloc, second, copied(alloc, &once.records)?, once.end)?;
    let twice = Given {
        records: again,
        end,
    };
    Ok((once, twice))
}
