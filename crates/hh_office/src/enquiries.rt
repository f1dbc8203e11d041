//! Enquiries about accounts, contracts and runs.

ghost use Rattle.std.specs.Prelude.{◌≡◌, ℕ, map, IfOk, Some, SomeIff, OnOk};
ghost use Rattle.hh_num.specs.Quantities.{amounts_of_cash};
ghost use Rattle.hh_num.specs.Ranges.{IsBetween};
ghost use Rattle.hh_num.specs.Totals.{total};
ghost use Rattle.hh_runs.specs.DayNets.{day_cash};
ghost use Rattle.hh_states.specs.Reads.{results_in, runs_in};
ghost use Rattle.hh_store.specs.Crashes.{AddsNothing};
ghost use Rattle.hh_store.specs.Reached.{AreReached};
ghost use Rattle.hh_store.specs.StoreFaults.{CountsRefusal};
ghost use Rattle.hh_office.specs.Crashes.{IfReplied};
ghost use Rattle.hh_office.specs.Refusals.{CountsReply, RepresentsSome};
ghost use Rattle.hh_office.specs.Enquiries.{account_reply, balance_reply, contracts_reply, net_of_rows, reply_by_rows, rows_of_account, runs_reply};
ghost use Rattle.hh_office.specs.steps.Promises.{RepliesAs, AnswersAsMachine, reply_of};
ghost use Rattle.hh_office.specs.steps.Reads.{latest_key};
ghost use Rattle.hh_office.specs.Views.{IsSure};

use crate::office::Office;
use hh_calc::AccountRow;
use hh_day::{balances_within, kept_kinds_of_dates, kept_postings, kept_results, paid_within};
use hh_names::{Account, Fault, PeriodNumber, Refusal};
use hh_num::Pence;
use hh_requests::{AccountReply, ContractsReply, Reply, RunsReply};
use hh_runs::{DayNet, RunKey, RunKind, Summary};
use hh_store::{StoreFault, Tables};
use hh_time::SettlementDate;
use std::alloc::{AllocError, Global};

impl<'z, T: Tables> Office<'z, T> {
    /// What an account has and pays in the latest run of a date.
    pub(crate) fn account(
        &mut self,
        account: &Account,
        date: SettlementDate,
    ) -> Result<Reply, Fault>
        ensures makes { IsSure T.is_open self.new
            → AnswersAsMachine self.old.seen self.new.seen result (λ midnight s.
            account_reply midnight s account.now date) }
        ensures same { IsSure T.is_open self.new → self.new.seen ≡ self.old.seen }
        ensures sure { IsSure T.is_open self.new → IsSure T.is_open self.old }
        ensures crash { AddsNothing T.is_honest T.is_open T.may_leave
            self.old.tables self.new.tables (IfReplied (reply_of result)) }
        ensures refusals_counted { IsSure T.is_open self.new → RepresentsSome self.old.seen
            → CountsReply (reply_of result)
            (T.refusals self.old.tables) (T.refusals self.new.tables) }
    {
        // Does nothing, but carries a law for the proof: the tables hold the machine's runs.
        kept_kinds_of_dates();
        match self.latest_run(date)? {
            Some(run) => self.account_in(account, date, run),
            None => Err(Fault::of(Refusal::NoRun)),
        }
    }

    /// What an account has and pays in `run`, the latest run of its date.
    fn account_in(
        &mut self,
        account: &Account,
        date: SettlementDate,
        run: RunKey,
    ) -> Result<Reply, Fault>
        requires { IsSure T.is_open self.old
            → Some run ≡ latest_key date (runs_in self.old.seen.content date) }
        ensures makes { IsSure T.is_open self.new
            → AnswersAsMachine self.old.seen self.new.seen result (λ midnight s.
            account_reply midnight s account.now date) }
        ensures same { IsSure T.is_open self.new → self.new.seen ≡ self.old.seen }
        ensures sure { IsSure T.is_open self.new → IsSure T.is_open self.old }
        ensures crash { AddsNothing T.is_honest T.is_open T.may_leave
            self.old.tables self.new.tables (IfReplied (reply_of result)) }
        ensures refusals_counted { IsSure T.is_open self.new → RepresentsSome self.old.seen
            → CountsReply (reply_of result)
            (T.refusals self.old.tables) (T.refusals self.new.tables) }
    {
        // Do nothing, but carry laws for the proof: the tables contain the machine's runs with their rows,
        // and what an account pays by these is a day net.
        kept_kinds_of_dates();
        kept_results();
        paid_within();
        let rows = self.rows_of_run(&run)?;
        reply_by_rows(self.alloc, account, run, &rows)
    }

    /// The latest run of a date, if it has one.
    fn latest_run(&mut self, date: SettlementDate) -> Result<Option<RunKey>, StoreFault>
        ensures value { IsSure T.is_open self.new → IfOk result (λ latest.
            latest ≡ latest_key date (runs_in self.old.seen.content date)) }
        ensures same { IsSure T.is_open self.new → self.new.seen ≡ self.old.seen }
        ensures crash { AddsNothing T.is_honest T.is_open T.may_leave
            self.old.tables self.new.tables (OnOk result) }
        ensures refusals_counted { IsSure T.is_open self.new → AreReached self.old.seen.content
            → CountsRefusal result (T.refusals self.old.tables) (T.refusals self.new.tables) }
        ensures sure { IsSure T.is_open self.new → IsSure T.is_open self.old }
    {
        let runs = self.tables.runs(date)?;
        Ok(latest_of(date, &runs))
    }

    /// The rows of a run's accounts, by Settlement Period, then by account.
    pub(crate) fn rows_of_run(
        &mut self,
        run: &RunKey,
    ) -> Result<Vec<(PeriodNumber, AccountRow)>, StoreFault>
        ensures value { IsSure T.is_open self.new
            → IfOk result (λ rows. rows.items ≡ results_in self.old.seen.content run.now) }
        ensures same { IsSure T.is_open self.new → self.new.seen ≡ self.old.seen }
        ensures crash { AddsNothing T.is_honest T.is_open T.may_leave
            self.old.tables self.new.tables (OnOk result) }
        ensures refusals_counted { IsSure T.is_open self.new → AreReached self.old.seen.content
            → CountsRefusal result (T.refusals self.old.tables) (T.refusals self.new.tables) }
        ensures sure { IsSure T.is_open self.new → IsSure T.is_open self.old }
    {
        self.tables.results(run)
    }

    /// What the runs of all dates have posted to an account.
    pub(crate) fn balance(&mut self, account: &Account) -> Result<Reply, Fault>
        ensures makes { IsSure T.is_open self.new
            → AnswersAsMachine self.old.seen self.new.seen result (λ midnight s.
            balance_reply midnight s account.now) }
        ensures same { IsSure T.is_open self.new → self.new.seen ≡ self.old.seen }
        ensures sure { IsSure T.is_open self.new → IsSure T.is_open self.old }
        ensures crash { AddsNothing T.is_honest T.is_open T.may_leave
            self.old.tables self.new.tables (IfReplied (reply_of result)) }
        ensures refusals_counted { IsSure T.is_open self.new → AreReached self.old.seen.content
            → CountsReply (reply_of result)
            (T.refusals self.old.tables) (T.refusals self.new.tables) }
    {
        // Do nothing, but carry laws for the proof: the postings come to what the latest runs post, and
        // that is an amount of cash.
        kept_postings();
        balances_within();
        let postings = self.tables.postings(account)?;
        let Some(moved) = sum_of(&postings) else {
            return Err(Fault::of(Refusal::Store));
        };
        Ok(Reply::Balance {
            account: *account,
            moved,
        })
    }

    /// The contracts in force of an account on a date.
    pub(crate) fn contracts(
        &mut self,
        account: &Account,
        date: SettlementDate,
    ) -> Result<Reply, Fault>
        ensures makes { IsSure T.is_open self.new
            → AnswersAsMachine self.old.seen self.new.seen result (λ midnight s.
            contracts_reply midnight s account.now date) }
        ensures same { IsSure T.is_open self.new → self.new.seen ≡ self.old.seen }
        ensures sure { IsSure T.is_open self.new → IsSure T.is_open self.old }
        ensures crash { AddsNothing T.is_honest T.is_open T.may_leave
            self.old.tables self.new.tables (IfReplied (reply_of result)) }
        ensures refusals_counted { IsSure T.is_open self.new → AreReached self.old.seen.content
            → CountsReply (reply_of result)
            (T.refusals self.old.tables) (T.refusals self.new.tables) }
    {
        let contracts = self.tables.contracts(account, date)?;
        Ok(Reply::Contracts(ContractsReply::new(*account, date, contracts)))
    }

    /// The runs of a date.
    pub(crate) fn runs(&mut self, date: SettlementDate) -> Result<Reply, Fault>
        ensures makes { IsSure T.is_open self.new
            → AnswersAsMachine self.old.seen self.new.seen result (λ midnight s.
            runs_reply midnight s date) }
        ensures same { IsSure T.is_open self.new → self.new.seen ≡ self.old.seen }
        ensures sure { IsSure T.is_open self.new → IsSure T.is_open self.old }
        ensures crash { AddsNothing T.is_honest T.is_open T.may_leave
            self.old.tables self.new.tables (IfReplied (reply_of result)) }
        ensures refusals_counted { IsSure T.is_open self.new → AreReached self.old.seen.content
            → CountsReply (reply_of result)
            (T.refusals self.old.tables) (T.refusals self.new.tables) }
    {
        // Does nothing, but carries a law for the proof: the tables hold the machine's runs.
        kept_kinds_of_dates();
        let runs = self.tables.runs(date)?;
        let kinds = kinds_of(self.alloc, &runs)?;
        Ok(Reply::Runs(RunsReply::new(date, kinds)))
    }
}

/// The latest of the runs of a date. They are in the order of their kinds.
pub(crate) fn latest_of(date: SettlementDate, runs: &[(RunKind, Summary)]) -> Option<RunKey>
    ensures { result ≡ latest_key date runs.now }
{
    let latest = runs.last()?;
    Some(RunKey {
        date,
        kind: latest.0,
    })
}

/// The kinds of runs, in their order.
pub(crate) fn kinds_of(
    alloc: Global,
    runs: &[(RunKind, Summary)],
) -> Result<Vec<RunKind>, AllocError>
    ensures { IfOk result (λ kinds. kinds.items ≡ map (λ r. r.0) runs.now) }
{
    runs.iter().map(|run| run.0).collect(alloc)
}

/// The reply about an account, given its rows in a run.
fn reply_by_rows(
    alloc: Global,
    account: &Account,
    run: RunKey,
    rows: &[(PeriodNumber, AccountRow)],
) -> Result<Reply, Fault>
    ensures replies { RepliesAs result
        (reply_by_rows account.now run (rows_of_account account.now rows.now)) }
    ensures refusals_counted { let net = net_of_rows (rows_of_account account.now rows.now) in
        IsBetween day_cash.least day_cash.most net
        → (count : ℕ) → CountsReply (reply_of result) count count }
{
    let found = rows_of(alloc, account, rows)?;
    if found.is_empty() {
        return Err(Fault::of(Refusal::NoRun));
    }
    let Some(net) = net_of(&found) else {
        return Err(Fault::of(Refusal::Store));
    };
    Ok(Reply::Account(AccountReply::new(*account, run, net, found)))
}

/// The rows of an account among those of a run.
fn rows_of(
    alloc: Global,
    account: &Account,
    rows: &[(PeriodNumber, AccountRow)],
) -> Result<Vec<(PeriodNumber, AccountRow)>, AllocError>
    ensures { IfOk result (λ found. found.items ≡ rows_of_account account.now rows.now) }
{
    let mut found = Vec::new(alloc);
    for row in rows {
        if row.1.account == *account {
            found.push(*row)?;
        }
    }
    Ok(found)
}

/// The sum of what the rows of an account pay. It is `None` exactly if no day net is that large.
fn net_of(rows: &[(PeriodNumber, AccountRow)]) -> Option<DayNet>
    ensures { let net = net_of_rows rows.now in
        SomeIff result (IsBetween day_cash.least day_cash.most net) net }
{
    let mut net = 0i128;
    for row in rows {
        net += i128::from(row.1.charge.units()) + i128::from(row.1.share.units());
    }
    DayNet::new(i64::try_from(net).ok()?)
}

/// The sum of postings. It is `None` exactly if no amount of cash is that large.
fn sum_of(postings: &[(RunKey, Pence)]) -> Option<Pence>
    ensures { let sum = total (λ e. e.1) postings.now in
        SomeIff result (IsBetween amounts_of_cash.least amounts_of_cash.most sum) sum }
{
    let mut sum = 0i128;
    for posting in postings {
        sum += i128::from(posting.1.units());
    }
    Pence::new(i64::try_from(sum).ok()?)
}
