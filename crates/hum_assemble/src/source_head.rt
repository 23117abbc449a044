//! One source: its spines, and its next record.
ghost use Rattle.std.specs.Prelude.{◌≡◌, ◌≢◌, ◌++◌, ◌∷◌, ◌≤◌, [], Bool, false, None, Some, IfOk, OnOk};
ghost use Rattle.std.specs.Prelude.{length, if◌then◌else◌};
ghost use Rattle.std.specs.List.{AllByRecursion};
ghost use Rattle.std.specs.Option.{ForSome};
ghost use Rattle.hum_record.specs.{Building.spelled, Room.rooms_for};
ghost use Rattle.hum_score.specs.{Spelling.IsToken, Row.tokens_of, Row.kind_of, Row.text_of, Row.Spined};
ghost use Rattle.hum_score.specs.declared.records.Kind.TheVariants.{Global as GlobalKind};
ghost use Rattle.hum_score.specs.{Spines.width, Rules.fault_of};
ghost use Rattle.hum_assemble.specs.{Head.first_of, Head.AreLawful, Source.untouched};
ghost use Rattle.hum_assemble.specs.Round.{shown, place_at, takes};
ghost use Rattle.hum_assemble.specs.Merge.{moved, advanced, text_of_first, part_given};
ghost use Rattle.hum_assemble.specs.{Sizes.tokens_len, Places.kind_at};

use crate::places::{Place, null_at};
use crate::placing::{is_data, stand, stand_behind};
use hum_path::{MOST_SPINES, Paths};
use hum_record::{Kind, MOST_BYTES, Record, RecordBuilder, Spare};
use hum_stage::End;
use std::alloc::{AllocError, Global};
use std::marker::Model;

/// How long the text of a record may be of which what is left is kept.
const MOST_LAID_BY: usize = 2048;

/// A source's next record, where it stands, and how many spines stand behind it.
#[derive(Drop)]
pub struct Head {
    row: Record,
    place: Place,
    width: usize,
}

/// One source: the spines before its next record, whether it takes part in the round that goes on,
/// that record, and how the source ends, once that is known.
#[derive(Drop)]
pub struct SourceHead {
    alloc: Global,
    paths: Paths,
    // whether spines were opened, and whether an added one waits for its exclusive interpretation
    opened: bool,
    inside: bool,
    due: bool,
    head: Option<Head>,
    // what is left of the record before it, until the next one is put
    past: LaidBy,
    ended: Option<End>,
}

impl Model for SourceHead {
    ghost use Rattle.hum_assemble.specs.Source.{Source};

    ghost Value = { Source };

    ghost use Rattle.hum_assemble.specs.Head.{coming, IsKept};

    ghost view = { λ s. record {
      path = s.paths.path;
      due = s.due;
      coming = coming s.head;
      ended = s.ended;
    } };

    ghost invariant = { λ s. IsKept s.paths.path s.opened s.inside s.head };
}

/// A record that is done with goes to the pool, behind others or away.
#[inline(never)]
fn bring_behind(row: Record, pool: &mut Spare) {
    pool.keep(row);
}

/// What is left of a record that was given: none with a long text.
#[derive(Drop)]
struct LaidBy {
    row: Option<Record>,
    ghost short: { ForSome row (λ row. length (text_of row) ≤ 2048) },
}

impl LaidBy {
    /// Nothing was given as yet.
    fn none() -> LaidBy {
        LaidBy { row: None }
    }

    /// Keeps it, if it takes little memory; or else it goes to the pool.
    #[inline(always)]
    fn keep(&mut self, row: Record, pool: &mut Spare) {
        if self.row.is_some() || row.text().len() > MOST_LAID_BY {
            bring_behind(row, pool);
            return;
        }
        self.row = Some(row);
    }

    /// Brings it to the pool, mostly to its front.
    #[inline(always)]
    fn bring(&mut self, pool: &mut Spare) {
        if let Some(row) = self.row.take() {
            if pool.has_first() {
                bring_behind(row, pool);
            } else {
                pool.keep(row);
            }
        }
    }
}

/// How many bytes the tokens of a record of data have, with a tab for each.
#[inline(always)]
fn noted_len(row: &Record) -> usize
    requires { kind_of row.now ≢ GlobalKind }
    ensures { result ≡ tokens_len (tokens_of row.now) }
{
    // Its text is lawful.
    let _kind = row.kind();
    row.text().len() + 1
}

/// Adds the tokens of a record.
fn push_tokens(builder: &mut RecordBuilder, row: &Record) -> Result<(), AllocError>
    requires tokens { AllByRecursion (IsToken builder.old.kind) (tokens_of row.now) }
    requires fits { length (spelled (builder.old.tokens ++ tokens_of row.now)) ≤ MOST_BYTES }
    ensures { OnOk result (builder.new ≡ record builder.old {
      tokens = builder.old.tokens ++ tokens_of row.now;
    }) }
{
    for j in 0..row.width() {
        builder.push_fitting(row.token(j))?;
    }
    Ok(())
}

/// Adds the tokens of a record, all at once where they surely fit.
#[inline(never)]
fn push_all(builder: &mut RecordBuilder, row: &Record) -> Result<(), AllocError>
    requires spined { row.now ≡ Spined builder.old.kind (tokens_of row.now) }
    requires tokens { AllByRecursion (IsToken builder.old.kind) (tokens_of row.now) }
    requires fits { length (spelled (builder.old.tokens ++ tokens_of row.now)) ≤ MOST_BYTES }
    ensures { OnOk result (builder.new ≡ record builder.old {
      tokens = builder.old.tokens ++ tokens_of row.now;
    }) }
{
    if builder.push_row(row) {
        return Ok(());
    }
    push_tokens(builder, row)
}

/// Adds the tokens of a record, of which one alone is put faster as a token.
#[inline(always)]
fn push_row(builder: &mut RecordBuilder, row: &Record) -> Result<(), AllocError>
    requires spined { row.now ≡ Spined builder.old.kind (tokens_of row.now) }
    requires tokens { AllByRecursion (IsToken builder.old.kind) (tokens_of row.now) }
    requires fits { length (spelled (builder.old.tokens ++ tokens_of row.now)) ≤ MOST_BYTES }
    ensures { OnOk result (builder.new ≡ record builder.old {
      tokens = builder.old.tokens ++ tokens_of row.now;
    }) }
{
    if row.width() == 1 {
        push_tokens(builder, row)
    } else {
        push_all(builder, row)
    }
}

impl SourceHead {
    /// Nothing was put, and no end came.
    pub fn new(alloc: Global) -> SourceHead
        ensures { result ≡ untouched None [] }
    {
        SourceHead {
            alloc,
            paths: Paths::new(alloc),
            opened: false,
            inside: false,
            due: false,
            head: None,
            past: LaidBy::none(),
            ended: None,
        }
    }

    /// Puts the next record, mostly one of data. What is left of the one before it goes to the pool.
    #[inline(never)]
    pub fn put(&mut self, row: Record, pool: &mut Spare)
        requires empty { self.old.coming ≡ [] }
        requires valid { fault_of self.old.path row ≡ None }
        ensures put { self.new ≡ record self.old { coming = row ∷ [] } }
        ensures lawful { AreLawful self.old.path (row ∷ []) }
    {
        if self.head.is_none()
            && self.opened
            && !self.inside
            && !self.paths.is_closed()
            && is_data(&row)
        {
            let (place, width) = (Place::Note, self.paths.width());
            self.head = Some(Head { row, place, width });
            self.past.bring(pool);
        } else {
            self.put_any(row, pool);
        }
    }

    /// The same of any record.
    #[inline(never)]
    fn put_any(&mut self, row: Record, pool: &mut Spare)
        requires empty { self.old.coming ≡ [] }
        requires valid { fault_of self.old.path row ≡ None }
        ensures put { self.new ≡ record self.old { coming = row ∷ [] } }
        ensures lawful { AreLawful self.old.path (row ∷ []) }
    {
        let (place, width) = stand(self.opened, self.inside, &self.paths, &row);
        self.past.bring(pool);
        self.head = Some(Head { row, place, width });
    }

    /// Keeps what is left of a record that was given until the next one is put, if it takes little memory. The next
    /// record read is then made in it at once.
    #[inline(always)]
    pub fn lay_by(&mut self, row: Record, pool: &mut Spare)
        ensures { self.new ≡ self.old }
    {
        self.past.keep(row, pool);
    }

    /// Says how the source ends.
    pub fn end(&mut self, end: End)
        ensures { self.new ≡ record self.old { ended = Some end } }
    {
        self.ended = Some(end);
    }

    /// Whether it takes part in the round that goes on.
    pub fn is_due(&self) -> bool
        ensures { result ≡ self.now.due }
    {
        self.due
    }

    /// How it ends, once that is known.
    pub fn ended(&self) -> Option<End>
        ensures { result ≡ self.now.ended }
    {
        self.ended
    }

    /// How many records wait.
    pub fn held(&self) -> usize
        ensures length { result ≡ length self.now.coming }
        ensures at_most { result ≤ 1 }
    {
        match &self.head {
            None => 0,
            Some(_) => 1,
        }
    }

    /// How many bytes the record that waits takes, beside its own size.
    pub fn room(&self) -> usize
        ensures { result ≤ rooms_for self.now.coming }
    {
        match &self.head {
            None => 0,
            Some(head) => head.row.room(),
        }
    }

    /// How many spines stand.
    pub fn width(&self) -> usize
        ensures width { result ≡ width self.now.path }
        ensures at_most { result ≤ MOST_SPINES }
    {
        self.paths.width()
    }

    /// How many spines stand behind the next record.
    pub fn width_ahead(&self) -> usize
        ensures { result ≡ width
            (advanced self.now.path self.now.due self.now.coming self.now.ended).path }
    {
        match &self.head {
            None => self.paths.width(),
            Some(head) => head.width,
        }
    }

    /// Where the next record stands, if that is known.
    pub fn shown(&self) -> Option<Place>
        ensures { result ≡ shown self.now }
    {
        match &self.head {
            Some(head) => Some(head.place),
            None => {
                if self.due {
                    return None;
                }
                match self.ended {
                    Some(End::Closed) => Some(Place::Over),
                    _ => None,
                }
            }
        }
    }

    /// The same of a source that is asked; who isn't has nothing at any place.
    pub fn place_at(&self, going: bool) -> Place
        ensures { result ≡ place_at going self.now }
    {
        if !(self.due || !going) {
            return Place::Over;
        }
        match self.shown() {
            None => Place::Over,
            Some(place) => place,
        }
    }

    /// Whether it gives a record at this place.
    pub fn takes(&self, free: bool, going: bool, p: Place) -> bool
        ensures { result ≡ takes free going p self.now }
    {
        free && self.place_at(going).rank() == p.rank()
    }

    /// How long the next record's text is.
    pub fn text_len(&self) -> usize
        ensures { result ≡ length (text_of_first self.now.coming) }
    {
        match &self.head {
            None => 0,
            Some(head) => head.row.text().len(),
        }
    }

    /// How many bytes the source's part of a record has, with a tab for each token.
    pub fn part_len(&self, taken: bool, p: Place) -> usize
        ensures { result ≡ tokens_len (part_given taken p self.now) }
    {
        if !taken {
            return self.paths.width() * (null_at(p.kind()).len() + 1);
        }
        match &self.head {
            None => 0,
            Some(head) => match head.place {
                Place::Note => noted_len(&head.row),
                _ => match head.row.kind() {
                    Kind::Global => 0,
                    _ => head.row.text().len() + 1,
                },
            },
        }
    }

    /// Adds the source's part to a record that has room for it.
    #[inline(always)]
    pub fn push_part(
        &self,
        taken: bool,
        p: Place,
        builder: &mut RecordBuilder,
    ) -> Result<(), AllocError>
        requires taken { (free : Bool) × (going : Bool) × (taken ≡ takes free going p self.now) }
        requires lawful { AreLawful self.now.path self.now.coming }
        requires kind { kind_at p ≡ Some builder.old.kind }
        requires fits { length (spelled (builder.old.tokens
            ++ part_given taken p self.now)) ≤ MOST_BYTES }
        ensures { OnOk result (builder.new ≡ record builder.old {
          tokens = builder.old.tokens ++ part_given taken p self.now;
        }) }
    {
        if !taken {
            return builder.push_nulls(self.paths.width());
        }
        match &self.head {
            None => Ok(()),
            Some(head) => push_row(builder, &head.row),
        }
    }

    /// Goes on by one record that is given; where it isn't this one's, it may be due in the round
    /// that begins.
    #[inline(always)]
    pub fn go_on(
        &mut self,
        taken: bool,
        going: bool,
        p: Place,
    ) -> Result<Option<Record>, AllocError>
        ensures moved { OnOk result (self.new ≡ moved taken going p self.old) }
        ensures row { IfOk result
            (λ o. o ≡ (if taken then first_of self.old.coming else None)) }
    {
        if !taken {
            if !going {
                self.due = self.place_at(going).step() == p.step();
            }
            return Ok(None);
        }
        let Some(head) = self.head.take() else {
            return Ok(None);
        };
        let Head {
            row,
            place,
            width: _,
        } = head;
        if let Place::Note = place {
            // data leaves the spines as they stand
            self.due = false;
            return Ok(Some(row));
        }
        match self.paths.follow(&row) {
            Ok(_) => {}
            Err(AllocError) => {
                // where the spines stand isn't known any more
                self.paths = Paths::new(self.alloc);
                self.opened = false;
                self.inside = false;
                return Err(AllocError);
            }
        }
        let (opened, inside) = stand_behind(self.opened, self.inside, &self.paths, &row);
        self.opened = opened;
        self.inside = inside;
        self.due = inside;
        Ok(Some(row))
    }
}
