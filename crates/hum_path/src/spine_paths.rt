//! The spines of a score, record by record.
ghost use Rattle.std.specs.Prelude.{◌≡◌, ◌≢◌, ◌<◌, ◌≤◌, [], true, false, IsTrue, if◌then◌else◌};
ghost use Rattle.std.specs.Prelude.{slice_index_or, Ok, Err, None, IfOk, IfErr, OnOk, IsErr};
ghost use Rattle.std.specs.Prelude.{◌==◌, ◌&&◌, not, length};
ghost use Rattle.std.specs.List.{list_any};
ghost use Rattle.std.specs.Allocator.{alloc_error};
ghost use Rattle.hum_score.specs.Spelling.{is_empty};
ghost use Rattle.hum_score.specs.Sign.{steers};
ghost use Rattle.hum_score.specs.Spines.{Unopened, exclusives, width, moves, after};
ghost use Rattle.hum_score.specs.Rules.{fault_of, Refuses, is_unfinished, is_closed};
ghost use Rattle.hum_path.specs.Step.{ComeFrom, HasFollowed, HasSteered, IsStay, KeepsData};
ghost use Rattle.hum_score.specs.declared.spines.PathFault.TheVariants.{Memory, P8};

use crate::moved::Moves;
use crate::rules::{has_nameless, text_fault};
use crate::signs::steers;
use crate::steering::{NextSpines, spines_after};
use hum_record::Record;
use hum_score::{Kind, PathFault};
use std::alloc::{AllocError, Global};
use std::marker::Model;

/// Whether there is a token for each spine, and no spine waits for its exclusive interpretation. Where
/// there is a token, the spines are open then.
fn fits(waits: bool, spines: usize, tokens: usize) -> bool
    ensures ready { result ≡ true → waits ≡ false }
    ensures width { result ≡ true → tokens ≡ spines }
    ensures exact { result ≡ (tokens == spines && not waits) }
{
    tokens == spines && !waits
}

/// The spines of a score, record by record.
#[derive(Drop)]
pub struct Paths {
    alloc: Global,
    opened: bool,
    names: Vec<Vec<u8>>,
    // whether an added spine waits for its exclusive interpretation
    waits: bool,
    spent: bool,
}

impl Model for Paths {
    ghost use Rattle.hum_path.specs.Tracked.{Tracked, path_in};
    ghost use Rattle.hum_score.specs.Texts.{texts};
    ghost use Rattle.hum_path.specs.Step.{IsTidy};

    ghost Value = { Tracked };

    ghost view = { λ p. record { path = path_in p.opened (texts p.names.items); spent = p.spent } };

    ghost invariant = { λ p. IsTidy p.opened p.waits p.names.items };
}

impl Paths {
    /// No spines yet: the first record that isn't a global comment opens them.
    pub fn new(alloc: Global) -> Self
        ensures { result ≡ record { path = Unopened; spent = false } }
    {
        Paths {
            alloc,
            opened: false,
            names: Vec::new(alloc),
            waits: false,
            spent: false,
        }
    }

    /// How many spines there are, at most 4,096.
    pub fn width(&self) -> usize
        ensures width { result ≡ width self.now.path }
        ensures at_most { result ≤ 4096 }
    {
        self.names.len()
    }

    /// The exclusive interpretation of a spine, counted from 0: empty for an added spine until it
    /// has its own.
    pub fn exclusive(&self, j: usize) -> &[u8]
        requires { j < width self.now.path }
        ensures { result.now ≡ slice_index_or (exclusives self.now.path) j [] }
    {
        self.names[j].as_slice()
    }

    /// Whether no spine is open.
    pub fn is_closed(&self) -> bool
        ensures { result ≡ is_closed self.now.path }
    {
        self.names.is_empty()
    }

    /// Whether a score may end here.
    ///
    /// # Errors
    /// P8 while a spine is open.
    pub fn close(&self) -> Result<(), PathFault>
        ensures { result ≡ (if is_unfinished self.now.path then Err P8 else Ok tt) }
    {
        if self.names.is_empty() {
            Ok(())
        } else {
            Err(PathFault::P8)
        }
    }

    /// Whether a record is data with a token for each spine, of which none waits for its exclusive
    /// interpretation: then it breaks no rule, and each spine goes on.
    pub fn keeps_spines(&self, row: &Record) -> bool
        ensures valid { result ≡ true → fault_of self.now.path row.now ≡ None }
        ensures same { result ≡ true → after self.now.path row.now ≡ self.now.path }
    {
        match row.kind() {
            Kind::Values => self.keeps_data(row.width()),
            _ => false,
        }
    }

    /// The same of data with so many tokens.
    pub fn keeps_data(&self, width: usize) -> bool
        ensures keeps { result ≡ true → KeepsData self.now.path width }
        ensures exact { result ≡ (width == length (exclusives self.now.path)
            && not (list_any is_empty (exclusives self.now.path))) }
    {
        fits(self.waits, self.names.len(), width)
    }

    /// Takes one more record, and says where each spine after it comes from.
    ///
    /// A record without a path indicator or an exclusive interpretation takes no memory.
    ///
    /// # Errors
    /// The first path rule that the record breaks, and then nothing changes; or running out of memory,
    /// which each later call answers again.
    pub fn step(&mut self, row: &Record) -> Result<Moves, PathFault>
        // No rule is broken, and the spines are those after the record.
        ensures valid { OnOk result (fault_of self.old.path row.now ≡ None) }
        ensures moves { IfOk result (λ found. found ≡ moves self.old.path row.now) }
        ensures after { OnOk result
            (self.new ≡ record self.old { path = after self.old.path row.now }) }
        ensures sources { IfOk result (ComeFrom row.now) }

        // The first rule that is broken. Then nothing changes.
        ensures refused { IfErr result (λ fault. Refuses fault (fault_of self.old.path row.now)) }
        ensures unchanged { IfErr result (λ fault. fault ≢ Memory → self.new ≡ self.old) }

        // Only what asks something of the spines takes memory, and after want of it there is no more.
        ensures free { steers row.now ≡ false → result ≡ Err Memory → IsTrue self.old.spent }
        ensures spent { IfErr result (λ fault. fault ≡ Memory → IsTrue self.new.spent) }
        ensures again { IsTrue self.old.spent → result ≡ Err Memory }
    {
        if self.spent {
            return Err(PathFault::Memory);
        }
        if steers(row) {
            self.steer(row)
        } else {
            self.stay(row)
        }
    }

    /// The same of a record that breaks no path rule.
    ///
    /// # Errors
    /// Out of memory, which each later call answers again.
    pub fn follow(&mut self, row: &Record) -> Result<Moves, AllocError>
        requires { fault_of self.old.path row.now ≡ None }
        ensures moves { IfOk result (λ found. found ≡ moves self.old.path row.now) }
        ensures after { OnOk result
            (self.new ≡ record self.old { path = after self.old.path row.now }) }
        ensures sources { IfOk result (ComeFrom row.now) }
        ensures free { steers row.now ≡ false → IsErr result → IsTrue self.old.spent }
        ensures spent { IfErr result (λ _. IsTrue self.new.spent) }
        ensures again { IsTrue self.old.spent → result ≡ Err alloc_error }
    {
        if self.spent {
            return Err(AllocError);
        }
        match row.kind() {
            Kind::Interpretation => self.follow_interpretation(row),
            _ => Ok(Moves::kept(self.names.len() as u16)),
        }
    }

    /// The same of an interpretation.
    #[inline(never)]
    fn follow_interpretation(&mut self, row: &Record) -> Result<Moves, AllocError>
        requires { fault_of self.old.path row.now ≡ None }
        ensures followed { HasFollowed self.old row.now self.new result }
        ensures again { IsTrue self.old.spent → result ≡ Err alloc_error }
    {
        match self.step(row) {
            Ok(found) => Ok(found),
            Err(PathFault::Memory) => Err(AllocError),
            Err(_) => unreachable!(),
        }
    }

    /// The same of a record that asks nothing of the spines.
    fn stay(&self, row: &Record) -> Result<Moves, PathFault>
        requires { steers row.now ≡ false }
        ensures { IsStay self.now.path row.now result }
    {
        match row.kind() {
            Kind::Global => Ok(Moves::kept(self.names.len() as u16)),
            _ => match text_fault(self.opened, self.waits, &self.names, row) {
                Some(fault) => Err(fault),
                None => Ok(Moves::kept(self.names.len() as u16)),
            },
        }
    }

    /// The same of an interpretation that asks something of the spines.
    fn steer(&mut self, row: &Record) -> Result<Moves, PathFault>
        requires steers { steers row.now ≡ true }
        requires alive { self.old.spent ≡ false }
        ensures { HasSteered self.old row.now self.new result }
    {
        match spines_after(self.alloc, self.opened, &self.names, row) {
            Ok(NextSpines { moves, names }) => {
                self.waits = has_nameless(&names);
                self.names = names;
                self.opened = true;
                Ok(Moves::listed(moves))
            }
            Err(PathFault::Memory) => {
                self.spent = true;
                Err(PathFault::Memory)
            }
            Err(fault) => Err(fault),
        }
    }
}
