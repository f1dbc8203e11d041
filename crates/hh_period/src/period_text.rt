//! The text of a settled period.

ghost use Rattle.std.specs.Prelude.{◌≡◌, ◌++◌, OnOk};
ghost use Rattle.hh_calc.specs.Settled.{figures_of};
ghost use Rattle.hh_names.specs.Accounts.{account_text};
ghost use Rattle.hh_period.specs.PeriodText.{account_line, figures_text, named, residual_line};
ghost use Rattle.hh_period.specs.steps.PeriodText.{settled_lines};

use hh_calc::{AccountRow, PeriodResult};
use hh_names::Account;
use hh_num::{Pence, Quantity, Scaled};
use std::alloc::AllocError;

/// Appends the name of an account: its party, a dash and its side.
fn push_account(text: &mut Vec<u8>, account: &Account) -> Result<(), AllocError>
    ensures { OnOk result (text.new.items ≡ text.old.items ++ account_text account.now) }
{
    text.extend_from_slice(account.party.as_bytes())?;
    text.push(b'-')?;
    text.push(account.side.letter())?;
    Ok(())
}

/// Appends a name and a number.
fn push_named<Q: Quantity>(
    text: &mut Vec<u8>,
    name: &str,
    amount: Scaled<Q>,
) -> Result<(), AllocError>
    ensures { OnOk result (text.new.items ≡ text.old.items ++ named name.now Q.decimals amount) }
{
    text.extend_from_slice(name.as_bytes())?;
    amount.write_to(text)
}

/// Appends the figures of an account.
fn push_figures(text: &mut Vec<u8>, row: &AccountRow) -> Result<(), AllocError>
    ensures { OnOk result (text.new.items ≡ text.old.items ++ figures_text (figures_of row.now)) }
{
    push_named(text, " credited ", row.credited)?;
    push_named(text, " imbalance ", row.imbalance)?;
    push_named(text, " charge ", row.charge)
}

/// Appends the line of an account.
fn push_account_line(text: &mut Vec<u8>, row: &AccountRow) -> Result<(), AllocError>
    ensures { OnOk result (text.new.items ≡ text.old.items ++ account_line (figures_of row.now)) }
{
    text.extend_from_slice(b"account ")?;
    push_account(text, &row.account)?;
    push_figures(text, row)?;
    text.extend_from_slice(b"\n")
}

/// Appends the line of the residual.
fn push_residual_line(text: &mut Vec<u8>, residual: Pence) -> Result<(), AllocError>
    ensures { OnOk result (text.new.items ≡ text.old.items ++ residual_line residual) }
{
    push_named(text, "residual ", residual)?;
    text.extend_from_slice(b"\n")
}

/// Appends the text of a settled period: a line for each account in order, and then the residual.
pub(crate) fn push_period(text: &mut Vec<u8>, settled: &PeriodResult) -> Result<(), AllocError>
    ensures { OnOk result (text.new.items ≡ text.old.items ++ settled_lines settled.now) }
{
    for row in settled.accounts() {
        push_account_line(text, row)?;
    }
    push_residual_line(text, settled.residual())
}
