//! What null tokens would repeat.
ghost use Rattle.std.specs.Prelude.{◌≡◌, ◌<◌, true, false, map, [], None, slice_index_or};
ghost use Rattle.std.specs.Prelude.{Some, IfSome, IfOk, OnOk, OnErr, option_map, length};
ghost use Rattle.hum_score.specs.declared.records.Kind.TheVariants.{Interpretation, Values as AnyValues};
ghost use Rattle.hum_score.specs.declared.records.SpinedKind.TheVariants.{Values};
ghost use Rattle.hum_score.specs.Row.{kind_of, tokens_of, width_of, token_at, text_of};
ghost use Rattle.hum_record.specs.RecordDraft.{IsMade};
ghost use Rattle.hum_score.specs.Spelling.{IsToken, IsTextOf};
ghost use Rattle.hum_ditto.specs.Ditto.{all_filled};
ghost use Rattle.hum_score.specs.Sign.{has_exclusive};
ghost use Rattle.hum_score.specs.Spines.{same_upto};
ghost use Rattle.hum_path.specs.Step.{ComeFrom};
ghost use Rattle.hum_ditto.specs.Held.{seen_alone, remembered_in, MayHold, MayFollow, HasFollowed};
ghost use Rattle.hum_ditto.specs.Held.{HasSeen, IsGivenFor};

use crate::DittoOptions;
use crate::last_seen::LastSeen;
use hum_path::{Carried, Moves, has_exclusive};
use hum_pattern::Pattern;
use hum_record::{Kind, Record, Spare, is_null};
use std::alloc::{AllocError, Global};
use std::marker::Model;
use std::mem;

/// How it is held what null tokens would repeat.
#[derive(Drop)]
enum Holding {
    /// The last data record as it was given, and that under it each spine stays where it is.
    Given(Record, Moves),
    /// What is remembered of each column.
    Each(Carried<LastSeen>),
}

/// What null tokens would repeat, column by column.
///
/// Where any token may be repeated, and as it is, a data record as it was given tells so by itself,
/// until spines move or are named anew.
pub struct LastTokens {
    alloc: Global,
    options: DittoOptions,
    holding: Holding,
}

// Written out, so that a caller's proof sees one call and not both ways to remember.
impl Drop for LastTokens {
    fn drop(self) {
        let LastTokens {
            alloc: _,
            options: _options,
            holding: _holding,
        } = self;
    }
}

impl Model for LastTokens {
    ghost use Rattle.hum_ditto.specs.Held.{Remembered, remembered_in, MayHold};

    ghost Value = { Remembered };

    ghost view = { λ m. record { options = m.options; each = remembered_in m.holding } };

    ghost invariant = { λ m. MayHold m.options m.holding };
}

/// A token of a data record, unless it is null.
fn filled_token(row: &Record, j: usize) -> Option<&[u8]>
    requires kind { kind_of row.now ≡ AnyValues }
    requires within { j < width_of row.now }
    ensures token { option_map (λ t. t.now) result ≡ seen_alone (token_at row.now j) }
    ensures lawful { IfSome result (λ t. IsToken Values t.now) }
{
    let token = row.token(j);
    if is_null(token) { None } else { Some(token) }
}

/// Whether an interpretation leaves so many spines where they are, and names none.
fn leaves_all(row: &Record, found: &Moves, width: usize) -> bool
    ensures moved { result ≡ true → found.now ≡ same_upto 0 width }
    ensures named { result ≡ true → has_exclusive (tokens_of row.now) ≡ false }
{
    match found.as_listed() {
        Some(_) => false,
        None => found.len() == width && !has_exclusive(row),
    }
}

/// What is remembered of each column under a data record alone; the next record steers its spines.
fn each_of(
    alloc: Global,
    skip: &mut Option<Pattern>,
    row: &Record,
    stays: &Moves,
    next: &Record,
) -> Result<Carried<LastSeen>, AllocError>
    requires skips_none { skip.old ≡ None }
    requires kind { kind_of row.now ≡ AnyValues }
    requires stays { stays.now ≡ same_upto 0 (width_of row.now) }
    requires next { kind_of next.now ≡ Interpretation }
    requires lawful { IsTextOf next.now (text_of next.now) }
    requires width { width_of next.now ≡ width_of row.now }
    ensures each { IfOk result (λ c. c.each ≡ map seen_alone (tokens_of row.now)) }
    ensures kept { skip.new ≡ skip.old }
{
    let mut each = Carried::new(alloc);
    // an interpretation opens spines, and says nothing to repeat
    each.follow(skip, next, stays)?;
    each.follow(skip, row, stays)?;
    Ok(each)
}

/// Puts a copy of a record in the place of another, where that has room for it; and tells whether it had.
fn copy_over(held: &mut Record, given: &Record) -> bool
    ensures given { result ≡ true → held.new ≡ given.now }
    ensures kept { result ≡ false → held.new ≡ held.old }
{
    held.copy_short(given) || held.copy_far(given)
}

/// The same, in other memory. The record that was held goes to the pool.
fn replace(
    alloc: Global,
    held: &mut Record,
    given: &Record,
    pool: &mut Spare,
) -> Result<(), AllocError>
    ensures given { OnOk result (held.new ≡ given.now) }
    ensures kept { OnErr result (held.new ≡ held.old) }
{
    let copy = given.copy_into(alloc, pool)?;
    pool.keep(mem::replace(held, copy));
    Ok(())
}

/// Whether any token may be repeated, and as it is.
fn is_plain(options: &DittoOptions) -> bool
    ensures skips_none { result ≡ true → options.now.skip ≡ None }
    ensures bare { result ≡ true → options.now.parentheses ≡ false }
{
    options.skip.is_none() && !options.parentheses
}

impl LastTokens {
    /// No spines yet.
    pub fn new(alloc: Global, options: DittoOptions) -> LastTokens
        ensures { result ≡ record { options = options; each = [] } }
    {
        LastTokens {
            alloc,
            options,
            holding: Holding::Each(Carried::new(alloc)),
        }
    }

    /// Whether a repeated token stands in parentheses.
    pub fn parentheses(&self) -> bool
        ensures { result ≡ self.now.options.parentheses }
    {
        self.options.parentheses
    }

    /// The token that a null token of a column would repeat.
    pub fn token(&self, j: usize) -> Option<&[u8]>
        requires { j < length self.now.each }
        ensures token { option_map (λ t. t.now) result ≡ slice_index_or self.now.each j None }
        ensures lawful { IfSome result (λ t. IsToken Values t.now) }
    {
        match &self.holding {
            Holding::Given(row, _) => filled_token(row, j),
            Holding::Each(each) => each.at(j).token(),
        }
    }

    /// What a data record becomes, where that is made at once: its tokens are short, and a record is held.
    pub fn filled(&self, row: &Record, spare: &mut Spare) -> Option<Record>
        requires kind { kind_of row.now ≡ AnyValues }
        requires width { length self.now.each ≡ width_of row.now }
        ensures { IfSome result (λ made. IsMade Values
            (all_filled self.now.options.parentheses self.now.each (tokens_of row.now)) (Some made)) }
    {
        match &self.holding {
            Holding::Given(above, _) => {
                // Its text is lawful.
                let _kind = above.kind();
                row.filled_from(above, spare)
            }
            Holding::Each(_) => None,
        }
    }

    /// Goes on under a data record, and what it became, where a record is held whose memory has room for
    /// that; and tells whether it did.
    pub fn see(&mut self, row: &Record, given: &Record) -> bool
        requires kind { kind_of row.now ≡ AnyValues }
        requires lawful { IsTextOf row.now (text_of row.now) }
        requires width { length self.old.each ≡ width_of row.now }
        requires given { IsGivenFor self.old row.now given.now }
        ensures options { self.new.options ≡ self.old.options }
        ensures memories { result ≡ true → HasSeen self.old row.now self.new.each }
        ensures kept { result ≡ false → self.new ≡ self.old }
    {
        let Holding::Given(held, _) = &mut self.holding else {
            return false;
        };
        copy_over(held, given)
    }

    /// Goes on under a record, and what it became.
    ///
    /// # Errors
    /// Out of memory. Then it no longer tells what null tokens would repeat.
    pub fn follow(
        &mut self,
        row: &Record,
        given: &Record,
        found: Moves,
        pool: &mut Spare,
    ) -> Result<(), AllocError>
        requires come { ComeFrom row.now found }
        requires score { MayFollow self.old row.now found }
        requires given { IsGivenFor self.old row.now given.now }
        ensures options { self.new.options ≡ self.old.options }
        ensures memories { OnOk result (HasFollowed self.old row.now found self.new.each) }
    {
        match row.kind() {
            Kind::Values => self.follow_data(row, given, found, pool),
            Kind::Interpretation => self.follow_interpretation(row, found),
            Kind::Local => Ok(()),
            Kind::Global => Ok(()),
        }
    }

    /// The same of a data record.
    fn follow_data(
        &mut self,
        row: &Record,
        given: &Record,
        found: Moves,
        pool: &mut Spare,
    ) -> Result<(), AllocError>
        requires kind { kind_of row.now ≡ AnyValues }
        requires lawful { IsTextOf row.now (text_of row.now) }
        requires come { ComeFrom row.now found }
        requires score { MayFollow self.old row.now found }
        requires given { IsGivenFor self.old row.now given.now }
        ensures options { self.new.options ≡ self.old.options }
        ensures memories { OnOk result (HasFollowed self.old row.now found self.new.each) }
    {
        match &mut self.holding {
            Holding::Given(held, _) => replace(self.alloc, held, given, pool),
            Holding::Each(each) => {
                if is_plain(&self.options) {
                    let copy = given.copy_into(self.alloc, pool)?;
                    self.holding = Holding::Given(copy, found);
                    return Ok(());
                }
                each.follow(&mut self.options.skip, row, &found)
            }
        }
    }

    /// The same of an interpretation.
    fn follow_interpretation(&mut self, row: &Record, found: Moves) -> Result<(), AllocError>
        requires kind { kind_of row.now ≡ Interpretation }
        requires lawful { IsTextOf row.now (text_of row.now) }
        requires come { ComeFrom row.now found }
        requires score { MayFollow self.old row.now found }
        ensures options { self.new.options ≡ self.old.options }
        ensures memories { OnOk result (HasFollowed self.old row.now found self.new.each) }
    {
        match &mut self.holding {
            Holding::Given(held, stays) => {
                if leaves_all(row, &found, held.width()) {
                    return Ok(());
                }
                let mut each = each_of(self.alloc, &mut self.options.skip, held, stays, row)?;
                each.follow(&mut self.options.skip, row, &found)?;
                self.holding = Holding::Each(each);
                Ok(())
            }
            Holding::Each(each) => each.follow(&mut self.options.skip, row, &found),
        }
    }
}
