//! Pages: lines of reports that are made but not out yet.

ghost use Rattle.std.specs.Prelude.{◌≡◌, ◌≤◌, ◌∷◌, ◌++◌, [], replicate, OnOk};
ghost use Rattle.hh_devices.specs.DeviceChanges.{change};
ghost use Rattle.hh_num.specs.Fixed.{flush_right};
ghost use Rattle.hh_names.specs.Accounts.{account_text};
ghost use Rattle.hh_reports.specs.Fields.{energy_text, flush_left, pence_text};
ghost use Rattle.hh_reports.specs.Output.{Sends};
ghost use Rattle.hh_reports.specs.steps.Output.{Passes};

use crate::fault::ReportFault;
use hh_devices::{Sink, write_whole};
use hh_names::Account;
use hh_num::{Pence, Ticks};
use itoa::Buffer;
use std::alloc::{AllocError, Global};
use std::marker::Model;

/// A page with this many bytes is full, and goes out.
const PAGE_BYTES: usize = 16_384;

/// The lines of a report that are not out yet, and the one that is being made. The memory is used again
/// for each page. Contracts see the bytes.
#[derive(Drop)]
pub(crate) struct Page {
    text: Vec<u8>,
}

impl Model for Page {
    ghost use Rattle.std.specs.Prelude.{ℕ, List};

    ghost Value = { List ℕ };

    ghost view = { λ page. page.text.items };
}

impl Page {
    /// The empty page. Takes no memory.
    pub(crate) fn new(alloc: Global) -> Page
        ensures { result ≡ [] }
    {
        Page {
            text: Vec::new(alloc),
        }
    }

    /// Appends a text, and passes on a page that is full then.
    pub(crate) fn put<S: Sink>(&mut self, text: &[u8], out: &mut S) -> Result<(), ReportFault>
        ensures { Passes (change S.taken S.failures out.old out.new) self.new
            (self.old ++ text.now) result }
    {
        self.push(text)?;
        self.pass(out)
    }

    /// Writes a page that is full, and empties it.
    pub(crate) fn pass<S: Sink>(&mut self, out: &mut S) -> Result<(), ReportFault>
        ensures { Passes (change S.taken S.failures out.old out.new) self.new
            self.old result }
    {
        if self.text.len() < PAGE_BYTES {
            return Ok(());
        }
        self.finish(out)
    }

    /// Writes the page, full or not, and empties it.
    pub(crate) fn finish<S: Sink>(&mut self, out: &mut S) -> Result<(), ReportFault>
        ensures sends { Sends (change S.taken S.failures out.old out.new)
            self.old result }
        ensures empty { OnOk result (self.new ≡ []) }
    {
        write_whole(out, &self.text)?;
        self.text.clear();
        Ok(())
    }

    /// Appends a text.
    pub(crate) fn push(&mut self, text: &[u8]) -> Result<(), AllocError>
        ensures { OnOk result (self.new ≡ self.old ++ text.now) }
    {
        self.text.extend_from_slice(text)
    }

    /// Appends a text, with blanks before it to fill a width.
    pub(crate) fn push_right(&mut self, width: u8, text: &[u8]) -> Result<(), AllocError>
        ensures { OnOk result (self.new ≡ self.old ++ flush_right width text.now) }
    {
        push_right(&mut self.text, width, text)
    }

    /// Appends a text, with blanks behind it to fill a width.
    pub(crate) fn push_left(&mut self, width: u8, text: &[u8]) -> Result<(), AllocError>
        ensures { OnOk result (self.new ≡ self.old ++ flush_left width text.now) }
    {
        push_left(&mut self.text, width, text)
    }

    /// Appends the name of an account.
    pub(crate) fn push_account(&mut self, account: &Account) -> Result<(), AllocError>
        ensures { OnOk result (self.new ≡ self.old ++ account_text account.now) }
    {
        push_account(&mut self.text, account)
    }

    /// Appends the name of an account, with blanks behind it to fill a width.
    #[tactic(auto, using(crate::proofs::FieldLaws::name_filled))]
    pub(crate) fn push_account_left(
        &mut self,
        width: u8,
        account: &Account,
    ) -> Result<(), AllocError>
        ensures { OnOk result (self.new ≡ self.old ++ flush_left width (account_text account.now)) }
    {
        let start = self.text.len();
        push_account(&mut self.text, account)?;
        let written = self.text.len() - start;
        push_blanks(&mut self.text, usize::from(width).saturating_sub(written))
    }

    /// Appends a mark, and behind it an energy in MWh.
    #[tactic(auto, using(crate::proofs::FieldLaws::fills_none), unfolding(crate::specs::Fields::energy_text))]
    pub(crate) fn push_energy(&mut self, mark: u8, energy: Ticks) -> Result<(), AllocError>
        ensures { OnOk result (self.new ≡ self.old ++ mark ∷ energy_text energy) }
    {
        energy.write_field(mark, 0, &mut self.text)
    }

    /// Appends a mark, and then an energy in MWh with blanks before it to fill a width of at most 39.
    #[tactic(auto, unfolding(crate::specs::Fields::energy_text))]
    pub(crate) fn push_energy_right(
        &mut self,
        mark: u8,
        width: u8,
        energy: Ticks,
    ) -> Result<(), AllocError>
        requires { width ≤ 39 }
        ensures { OnOk result (self.new
            ≡ self.old ++ mark ∷ flush_right width (energy_text energy)) }
    {
        energy.write_field(mark, usize::from(width), &mut self.text)
    }

    /// Appends a mark, and behind it an amount of pence.
    #[tactic(auto, using(crate::proofs::FieldLaws::fills_none))]
    pub(crate) fn push_pence(&mut self, mark: u8, pence: i128) -> Result<(), AllocError>
        ensures { OnOk result (self.new ≡ self.old ++ mark ∷ pence_text pence) }
    {
        self.push_pence_right(mark, 0, pence)
    }

    /// Appends a mark, and then an amount of pence with blanks before it to fill a width of at most 39.
    pub(crate) fn push_pence_right(
        &mut self,
        mark: u8,
        width: u8,
        pence: i128,
    ) -> Result<(), AllocError>
        requires { width ≤ 39 }
        ensures { OnOk result (self.new ≡ self.old ++ mark ∷ flush_right width (pence_text pence)) }
    {
        match i64::try_from(pence) {
            Ok(pence) => push_small_pence(&mut self.text, mark, width, pence),
            Err(_) => push_large_pence(&mut self.text, mark, width, pence),
        }
    }
}

/// Appends a mark, and then an amount of pence with blanks before it to fill a width of at most 39.
#[tactic(auto, using(crate::proofs::FieldLaws::text_of_whole))]
fn push_small_pence(text: &mut Vec<u8>, mark: u8, width: u8, pence: i64) -> Result<(), AllocError>
    requires { width ≤ 39 }
    ensures { OnOk result (text.new.items
        ≡ text.old.items ++ mark ∷ flush_right width (pence_text pence)) }
{
    Pence::of(pence).write_field(mark, usize::from(width), text)
}

/// Appends a mark, and then an amount of pence of any size with blanks before it to fill a width.
#[tactic(auto, unfolding(crate::specs::Fields::pence_text))]
fn push_large_pence(text: &mut Vec<u8>, mark: u8, width: u8, pence: i128) -> Result<(), AllocError>
    ensures { OnOk result (text.new.items
        ≡ text.old.items ++ mark ∷ flush_right width (pence_text pence)) }
{
    let mut buffer = Buffer::new();
    text.push(mark)?;
    push_right(text, width, buffer.format(pence).as_bytes())
}

/// Appends the name of an account: its party, a dash and its side.
fn push_account(text: &mut Vec<u8>, account: &Account) -> Result<(), AllocError>
    ensures { OnOk result (text.new.items ≡ text.old.items ++ account_text account.now) }
{
    text.extend_from_slice(account.party.as_bytes())?;
    text.push(b'-')?;
    text.push(account.side.letter())?;
    Ok(())
}

/// Appends `count` blanks.
fn push_blanks(text: &mut Vec<u8>, count: usize) -> Result<(), AllocError>
    requires { count ≤ 255 }
    ensures { OnOk result (text.new.items ≡ text.old.items ++ replicate count 32) }
{
    text.resize(text.len() + count, b' ')
}

/// Appends a field, with blanks before it to fill a width.
#[tactic(auto, unfolding(hh_num::specs::Fixed::flush_right))]
fn push_right(text: &mut Vec<u8>, width: u8, field: &[u8]) -> Result<(), AllocError>
    ensures { OnOk result (text.new.items ≡ text.old.items ++ flush_right width field.now) }
{
    push_blanks(text, usize::from(width).saturating_sub(field.len()))?;
    text.extend_from_slice(field)
}

/// Appends a field, with blanks behind it to fill a width.
#[tactic(auto, unfolding(crate::specs::Fields::flush_left))]
fn push_left(text: &mut Vec<u8>, width: u8, field: &[u8]) -> Result<(), AllocError>
    ensures { OnOk result (text.new.items ≡ text.old.items ++ flush_left width field.now) }
{
    text.extend_from_slice(field)?;
    push_blanks(text, usize::from(width).saturating_sub(field.len()))
}
