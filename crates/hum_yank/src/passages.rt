//! The passage at hand.
ghost use Rattle.std.specs.Prelude.{◌≡◌, ◌<◌, []};
ghost use Rattle.hum_yank.specs.{Passages.is_last, Options.form_of};
ghost use Rattle.hum_yank.specs.Marks.{mark_of, passages_of, inside, begun, next_passages};
ghost use Rattle.hum_yank.specs.Marks.{number_in, last_in};

use crate::marking::{Mark, is_last, mark_of};
use hum_choices::Markers;
use hum_record::Record;
use hum_stage::MOST_RECORDS;

/// What is remembered of passages.
#[derive(Clone, Copy)]
pub(crate) struct Passages {
    // the number of the nearest marker's passage
    number: Option<u32>,
    // whether that has ended
    ended: bool,
    // how many are numbered by occurrence
    counted: u32,
    // the greatest number
    greatest: u32,
}

impl Passages {
    /// Before all records.
    pub(crate) fn new(markers: &Markers) -> Passages
        ensures { result ≡ passages_of (form_of markers.now) [] }
    {
        let number = match markers {
            Markers::Lines => Some(0),
            Markers::Numbers(_) => Some(0),
            Markers::Occurrences(_, _) => None,
            Markers::Labels(_) => None,
        };
        Passages {
            number,
            ended: false,
            counted: 0,
            greatest: 0,
        }
    }

    /// After a record in the passage at hand.
    fn inside(self, ends: bool) -> Passages
        ensures { result ≡ inside self ends }
    {
        Passages {
            number: self.number,
            ended: ends || self.ended,
            counted: self.counted,
            greatest: self.number.unwrap_or(0).max(self.greatest),
        }
    }

    /// After a record that begins a passage.
    fn begun(self, number: Option<u32>, counted: u32, ends: bool) -> Passages
        ensures { result ≡ begun self number counted ends }
    {
        Passages {
            number,
            ended: ends,
            counted,
            greatest: number.unwrap_or(0).max(self.greatest),
        }
    }

    /// Takes one record more, and answers the number of the passage in which it lies, if it lies in
    /// one with a number.
    pub(crate) fn step(&mut self, markers: &mut Markers, row: &Record) -> Option<u32>
        requires few { self.old.counted < MOST_RECORDS }
        ensures number { result ≡ number_in self.old (mark_of (form_of markers.old) row.now) }
        ensures after { self.new ≡ next_passages self.old (mark_of (form_of markers.old) row.now)
            (is_last (form_of markers.old) row.now) }
        ensures kept { markers.new ≡ markers.old }
    {
        let before = *self;
        let ends = is_last(markers, row);
        match mark_of(markers, row) {
            Mark::Inside => {
                *self = before.inside(ends);
                if before.ended { None } else { before.number }
            }
            Mark::Counted => {
                let counted = before.counted + 1;
                *self = before.begun(Some(counted), counted, ends);
                Some(counted)
            }
            Mark::Bears(number) => {
                *self = before.begun(number, before.counted, ends);
                number
            }
        }
    }

    /// The last number so far.
    pub(crate) fn last(&self, markers: &Markers) -> u32
        ensures { result ≡ last_in (form_of markers.now) self.now }
    {
        match markers {
            Markers::Numbers(_) => self.greatest,
            Markers::Lines => self.counted,
            Markers::Occurrences(_, _) => self.counted,
            Markers::Labels(_) => self.counted,
        }
    }
}
