//! Walks down a spine, through the records that wait.
ghost use Rattle.std.specs.Prelude.{◌≡◌, ◌≢◌, ◌+◌, ◌≤◌, ◌<◌, ℕ, List, [], ◌∷◌, ◌++◌, length, drop};
ghost use Rattle.std.specs.Prelude.{false, Some, None, slice_index_or};
ghost use Rattle.hum_score.specs.Row.{Row, token_at};
ghost use Rattle.hum_score.specs.Spines.{Path};
ghost use Rattle.hum_context.specs.{Context.Choice, Heard.wanted_of, Heard.enough_by};
ghost use Rattle.hum_context.specs.Leads.{sought_of};
ghost use Rattle.hum_context.specs.Queue.{Known, Knows, column_in, is_last_in};
ghost use Rattle.hum_context.specs.Walking.{Has, Says, Stands, Halts};
ghost use Rattle.hum_context.specs.declared.heard.Heard.TheVariants.{Passed};
ghost use Rattle.hum_score.specs.InOrder.{through};

use crate::heard::Heard;
use crate::links::Sought;
use crate::queued::Queued;
use crate::short::ShortText;
use crate::skipping::Place;
use crate::walk::Walk;
use hum_stage::MOST_RECORDS;
use std::collections::VecDeque;

/// What a walk looks for.
pub(crate) fn sought(wanted: Option<u16>) -> Sought
    ensures { result ≡ sought_of wanted }
{
    match wanted {
        Some(_) => Sought::Any,
        None => Sought::Last,
    }
}

/// Whether so many tokens are enough, the last of which ends a group or doesn't.
pub(crate) fn is_enough(wanted: Option<u16>, count: u64, ends: bool) -> bool
    ensures { result ≡ enough_by wanted count ends }
{
    match wanted {
        Some(number) => number as u64 <= count,
        None => ends,
    }
}

impl Walk {
    /// A walk that is still at the cell in a column.
    pub(crate) fn from(at: u64, column: usize) -> Walk
        requires { at ≤ MOST_RECORDS }
        ensures at { result.at ≡ at }
        ensures column { result.column ≡ Some column }
        ensures none { result.count ≡ 0 }
        ensures says { Says result.text [] }
        ensures open { (result.enough ≡ false) × (result.ended ≡ false) }
    {
        Walk {
            at,
            column: Some(column),
            count: 0,
            text: ShortText::none(),
            enough: false,
            ended: false,
            seen: at as u32,
        }
    }

    /// One record more, whose token in its column isn't collected.
    fn pass_by(&mut self, c: usize, next: &Queued)
        requires few { self.old.at < MOST_RECORDS }
        ensures at { self.new.at ≡ self.old.at + 1 }
        ensures column { self.new.column ≡ column_in next.now.row next.now.below c }
        ensures ended { self.new.ended ≡ is_last_in next.now.row c }
        ensures same { self.new.count ≡ self.old.count }
        ensures text { self.new.text ≡ self.old.text }
        ensures short { self.new.enough ≡ false }
    {
        let column = next.column_below(c);
        let ended = next.is_last(c);
        self.at += 1;
        self.column = column;
        self.enough = false;
        self.ended = ended;
    }

    /// One record more, whose token in its column is collected, and ends a group or doesn't. It is
    /// data, so that the column goes on.
    #[inline(always)]
    fn collect(&mut self, c: usize, next: &Queued, wanted: Option<u16>, ends: bool)
        requires few { self.old.at < MOST_RECORDS }
        requires taken { slice_index_or next.now.heard.items c Passed ≢ Passed }
        ensures at { self.new.at ≡ self.old.at + 1 }
        ensures column { self.new.column ≡ column_in next.now.row next.now.below c }
        ensures ended { self.new.ended ≡ is_last_in next.now.row c }
        ensures count { self.new.count ≡ self.old.count + 1 }
        ensures enough { self.new.enough ≡ enough_by wanted (self.old.count + 1) ends }
        ensures says { (n : ℕ) → wanted ≡ Some n → (tokens : List (List ℕ))
            → self.old.count ≡ length tokens → Says self.old.text tokens
            → Says self.new.text (tokens ++ token_at next.now.row c ∷ []) }
    {
        if wanted.is_some() {
            self.text.add(self.count, next.token(c));
        }
        self.at += 1;
        self.column = Some(c);
        self.count += 1;
        self.enough = is_enough(wanted, self.count, ends);
        self.ended = false;
    }

    /// One record more, on which it stands in a column.
    #[inline(always)]
    pub(crate) fn pass(&mut self, c: usize, next: &Queued, wanted: Option<u16>)
        requires few { self.old.at < MOST_RECORDS }
        ensures at { self.new.at ≡ self.old.at + 1 }
        ensures has { (o : Choice) (path : Path) (rows : List Row) (row : Row) (j : ℕ)
            → wanted ≡ wanted_of o.extent → Known o (through path rows) row next.now
            → self.old.column ≡ Some c → self.old.enough ≡ false → Has o path rows j self.old
            → Has o path (rows ++ row ∷ []) j self.new }
    {
        match next.heard(c) {
            Heard::Passed => self.pass_by(c, next),
            Heard::Taken { begins: _, ends } => self.collect(c, next, wanted, ends),
        }
    }

    /// It goes on from a cell of those that wait: past records in which nothing is found, or through
    /// one.
    #[inline(always)]
    fn move_on(&mut self, held: &VecDeque<Queued>, gone: u64, here: Place, wanted: Option<u16>)
        requires few { gone + length held.now.items ≤ MOST_RECORDS }
        requires at { self.old.at ≡ gone + here.n }
        requires within { here.n < length held.now.items }
        ensures within { (self.old.at < self.new.at) × (self.new.at ≤ gone + length held.now.items) }
        ensures stands { (o : Choice) (path : Path) (k : ℕ) (rows : List Row) (j : ℕ)
            → wanted ≡ wanted_of o.extent → Knows o path (drop k held.now.items) rows
            → self.old.column ≡ Some here.c → self.old.enough ≡ false
            → Stands o path (gone + k) rows j self.old → Stands o path (gone + k) rows j self.new }
    {
        let next = &held[here.n];
        if let Heard::Passed = next.heard(here.c) {
            if let Some(to) = next.step(sought(wanted), here.c, held.len() - here.n) {
                self.at += to.n as u64;
                self.column = Some(to.c);
                return;
            }
        }
        self.pass(here.c, next, wanted);
    }

    /// It goes on until its tokens are enough, its column ends or no more records wait, of which so
    /// many are gone.
    #[inline(always)]
    pub(crate) fn go_on(&mut self, held: &VecDeque<Queued>, gone: u64, wanted: Option<u16>)
        requires behind { gone ≤ self.old.at }
        requires few { gone + length held.now.items ≤ MOST_RECORDS }
        ensures behind { gone ≤ self.new.at }
        ensures halts { (o : Choice) (path : Path) (k : ℕ) (rows : List Row) (j : ℕ)
            → wanted ≡ wanted_of o.extent → Knows o path (drop k held.now.items) rows
            → Stands o path (gone + k) rows j self.old → Halts o path (gone + k) rows j self.new }
    {
        while self.at - gone < held.len() as u64 {
            if self.enough {
                return;
            }
            let Some(c) = self.column else {
                return;
            };
            let n = (self.at - gone) as usize;
            self.move_on(held, gone, Place { n, c }, wanted);
        }
    }
}
