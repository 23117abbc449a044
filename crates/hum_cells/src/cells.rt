//! The frame round what is a command's own.
ghost use Rattle.std.specs.Prelude.{◌≡◌, ◌≢◌, ◌≤◌, ◌∷◌, OnOk, List, length, map};
ghost use Rattle.hum_score.specs.declared.records.Kind.TheVariants.{Interpretation as AnyInterpretation, Values as AnyValues};
ghost use Rattle.hum_score.specs.Row.{Row, kind_of, text_of};
ghost use Rattle.hum_score.specs.Spines.{exclusives};
ghost use Rattle.hum_score.specs.Score.{IsOpen, path_after};
ghost use Rattle.hum_stage.specs.Decided.{MayStep, HasStepped};
ghost use Rattle.hum_stage.specs.Refusals.{IfAnswered, IfTold};
ghost use Rattle.hum_cells.specs.Rewriting.{is_kern, kern_columns, rewrite};
ghost use Rattle.hum_cells.specs.Rewriter.{MayTell, HasTold, MayTellData, HasToldData};

use crate::heading::{has_kern, is_kern, with_heading};
use crate::rewriter::{Heading, TokenRewriter};
use crate::rewritten::Rewritten;
use crate::tokens::{any_told, hear_tokens, tell_tokens};
use hum_path::{Paths, steers};
use hum_record::{Kind, Record, Spare};
use hum_stage::{AtOnce, Command, Decides, Refusal, UpToTwo, unless_long};
use std::alloc::{AllocError, Global};

/// A command on the tokens of kern columns, as a stage.
pub type CellStage<T> = AtOnce<Cells<T>>;

/// A command on the tokens of kern columns, as one that decides each record at once.
#[derive(Drop)]
pub struct Cells<T> {
    alloc: Global,
    teller: T,
    paths: Paths,
    // for each spine, whether it is under **kern
    kern: Vec<bool>,
}

/// Marks the spines that are under `**kern`.
#[inline(never)]
fn mark_kern(paths: &Paths, kern: &mut Vec<bool>) -> Result<(), AllocError>
    ensures { OnOk result (kern.new.items ≡ map is_kern (exclusives paths.now.path)) }
{
    kern.clear();
    for j in 0..paths.width() {
        kern.push(is_kern(paths.exclusive(j)))?;
    }
    Ok(())
}

/// Marks the spines after a record that are under `**kern`: anew only where it asks something of
/// the spines.
#[inline]
fn mark_after(row: &Record, paths: &Paths, kern: &mut Vec<bool>) -> Result<(), AllocError>
    ensures { OnOk result ((past : List Row) → kern.old.items ≡ kern_columns past
        → paths.now.path ≡ path_after (row.now ∷ past) → IsOpen (row.now ∷ past)
        → kern.new.items ≡ kern_columns (row.now ∷ past)) }
{
    if !steers(row) {
        return Ok(());
    }
    mark_kern(paths, kern)
}

/// What an interpretation becomes.
///
/// # Errors
/// L1; or out of memory.
#[inline(never)]
fn tell_heading<T: TokenRewriter>(
    alloc: Global,
    teller: &T,
    kern: &[bool],
    row: &Record,
    spare: &mut Spare,
) -> Result<Rewritten, Refusal>
    requires score { MayTell (T.follows teller.now) kern.now row.now }
    requires kind { kind_of row.now ≡ AnyInterpretation }
    requires at_most { length (text_of row.now) ≤ 1048576 }
    ensures { IfAnswered result (HasTold (T.follows teller.now) (T.follows teller.now) kern.now row.now) }
{
    if !has_kern(row) {
        return Ok(Rewritten::Same);
    }
    let heading = teller.heading();
    let made = unless_long(with_heading(alloc, heading, row, spare)?)?;
    match heading {
        Heading::Renamed(_) => Ok(Rewritten::Other(made)),
        Heading::Followed(_) => Ok(Rewritten::With(made)),
    }
}

/// What a data record becomes.
///
/// # Errors
/// The rule by which it is refused; or out of memory.
fn tell_data<T: TokenRewriter>(
    alloc: Global,
    teller: &mut T,
    kern: &[bool],
    row: &Record,
    spare: &mut Spare,
) -> Result<Rewritten, Refusal>
    requires score { MayTellData (T.follows teller.old) kern.now row.now }
    requires kind { kind_of row.now ≡ AnyValues }
    requires at_most { length (text_of row.now) ≤ 1048576 }
    ensures { IfAnswered result (HasToldData (T.follows teller.old) (T.follows teller.new) kern.now row.now) }
{
    if any_told(kern, row) {
        tell_tokens(alloc, teller, kern, row, spare)
    } else {
        hear_tokens(teller, row)?;
        Ok(Rewritten::Same)
    }
}

/// What a record becomes that is no data.
///
/// # Errors
/// L1; or out of memory.
fn tell_other<T: TokenRewriter>(
    alloc: Global,
    teller: &T,
    kern: &[bool],
    row: &Record,
    spare: &mut Spare,
) -> Result<Rewritten, Refusal>
    requires score { MayTell (T.follows teller.now) kern.now row.now }
    requires kind { kind_of row.now ≢ AnyValues }
    ensures { IfAnswered result (HasTold (T.follows teller.now) (T.follows teller.now) kern.now row.now) }
{
    match row.kind() {
        Kind::Interpretation => tell_heading(alloc, teller, kern, row, spare),
        Kind::Local => Ok(Rewritten::Same),
        Kind::Global => Ok(Rewritten::Same),
        Kind::Values => unreachable!(),
    }
}

impl<T: TokenRewriter> Cells<T> {
    ghost use Rattle.hum_cells.specs.Rewriter.{Frames};

    /// Puts what a data record becomes. Behind it each spine is where it was, and under what it was.
    ///
    /// # Errors
    /// The rule by which it is refused; or out of memory.
    fn step_data(
        &mut self,
        next: Record,
        _room: u64,
        pool: &mut Spare,
        out: &mut UpToTwo,
    ) -> Result<(), Refusal>
        requires score { MayStep (Frames (T.follows self.old.teller) self.old.paths.path self.old.kern.items) next }
        requires kind { kind_of next ≡ AnyValues }
        requires at_most { length (text_of next) ≤ 1048576 }
        ensures { IfTold result (HasStepped
            (Frames (T.follows self.old.teller) self.old.paths.path self.old.kern.items)
            (Frames (T.follows self.new.teller) self.new.paths.path self.new.kern.items)
            next _room out.new) }
    {
        let told = tell_data(self.alloc, &mut self.teller, &self.kern, &next, pool)?;
        told.put(next, pool, out);
        Ok(())
    }

    /// Puts what a record becomes that is no data.
    ///
    /// # Errors
    /// L1; or out of memory.
    #[inline(never)]
    fn step_other(
        &mut self,
        next: Record,
        _room: u64,
        pool: &mut Spare,
        out: &mut UpToTwo,
    ) -> Result<(), Refusal>
        requires score { MayStep (Frames (T.follows self.old.teller) self.old.paths.path self.old.kern.items) next }
        requires kind { kind_of next ≢ AnyValues }
        ensures { IfTold result (HasStepped
            (Frames (T.follows self.old.teller) self.old.paths.path self.old.kern.items)
            (Frames (T.follows self.new.teller) self.new.paths.path self.new.kern.items)
            next _room out.new) }
    {
        self.teller.follow(&next, &self.paths.follow(&next)?)?;
        let told = tell_other(self.alloc, &self.teller, &self.kern, &next, pool)?;
        mark_after(&next, &self.paths, &mut self.kern)?;
        told.put(next, pool, out);
        Ok(())
    }
}

impl<T: TokenRewriter> Decides for Cells<T> {
    type Options = T::Options;

    type Due = UpToTwo;

    ghost use Rattle.hum_cells.specs.Rewriter.{Frames};

    ghost command = { T.command };

    ghost decide = { λ options. rewrite (T.rewriting options) };

    ghost follows = { λ s. Frames (T.follows s.teller) s.paths.path s.kern.items };

    fn command() -> Command {
        T::command()
    }

    fn begin(alloc: Global, options: T::Options) -> Cells<T> {
        Cells {
            alloc,
            teller: T::begin(alloc, options),
            paths: Paths::new(alloc),
            kern: Vec::new(alloc),
        }
    }

    fn step(
        &mut self,
        next: Record,
        _room: u64,
        pool: &mut Spare,
        out: &mut UpToTwo,
    ) -> Result<(), Refusal> {
        match next.kind() {
            Kind::Values => self.step_data(next, _room, pool, out),
            _ => self.step_other(next, _room, pool, out),
        }
    }
}
