//! Exports for other programs: the results of a run and the balances of accounts.

ghost use Rattle.std.specs.Prelude.{◌≡◌, ℕ, List, [], ◌∷◌, ◌++◌, codes, decimal, IfOk, OnOk};
ghost use Rattle.std.specs.List.{flat_map};
ghost use Rattle.hh_devices.specs.DeviceChanges.{change};
ghost use Rattle.hh_time.specs.DateText.{date_text};
ghost use Rattle.hh_runs.specs.RunKinds.{run_kind_code};
ghost use Rattle.hh_reports.specs.declared.run.ReportedRun.{ReportedRun};
ghost use Rattle.hh_reports.specs.Exports.{balance_line, balances_text, party_lines, result_line, results_text};
ghost use Rattle.hh_reports.specs.Fields.{cash_of, energies_of, energy_text, pence_text};
ghost use Rattle.hh_reports.specs.Nets.{Amounts, sum_for};
ghost use Rattle.hh_reports.specs.Output.{Reaches, Sends};
ghost use Rattle.hh_reports.specs.Writers.{GivesBalances, GivesResults, HasAmounts, HasBalances, HasResults, Rows};
ghost use Rattle.hh_reports.specs.steps.Nets.{sum_in};
ghost use Rattle.hh_reports.specs.steps.Output.{Passes};

use crate::fault::ReportFault;
use crate::page::Page;
use crate::run::ReportedRun;
use crate::sums::{AccountSums, SumTable};
use hh_calc::AccountRow;
use hh_devices::Sink;
use hh_names::{Account, PartyId, PeriodNumber, Side};
use hh_num::Pence;
use itoa::Buffer;
use std::alloc::{AllocError, Global};
use std::marker::Model;

/// The header of results.
const RESULTS_HEADER: &[u8] =
    b"date,kind,account,period,credited,balancing,contracts,imbalance,charge,share\n";

/// The header of balances.
const BALANCES_HEADER: &[u8] = b"account,moved_pence\n";

/// A writer of the results of a run. It is given one row after another, and keeps no rows. It keeps the
/// lines of a page that is not full. Contracts see the run and the bytes that are held back.
#[derive(Drop)]
pub struct ResultsWriter {
    run: ReportedRun,
    page: Page,
}

impl Model for ResultsWriter {
    ghost use Rattle.hh_reports.specs.Writers.{ResultsState};

    ghost Value = { ResultsState };

    ghost view = { λ w. record { run = w.run; held = w.page } };
}

impl ResultsWriter {
    /// Begins the results of a run: the header.
    ///
    /// # Errors
    ///
    /// `Memory` if memory is refused. `Write` if the output failed or took nothing in this call. A
    /// beginning of the text may have gone out.
    pub fn begin<S: Sink>(
        alloc: Global,
        run: &ReportedRun,
        out: &mut S,
    ) -> Result<ResultsWriter, ReportFault>
        ensures { let device = change S.taken S.failures out.old out.new in
            Reaches device (λ writer. HasResults device writer run.now [])
            (results_text run.now []) result }
    {
        let mut page = Page::new(alloc);
        page.put(RESULTS_HEADER, out)?;
        Ok(ResultsWriter { run: *run, page })
    }

    /// Takes a row of a Settlement Period. It goes out behind those that were given before.
    ///
    /// # Errors
    ///
    /// The same as for `begin`. The writer can't be used after an error.
    pub fn row<S: Sink>(
        &mut self,
        period: PeriodNumber,
        row: &AccountRow,
        out: &mut S,
    ) -> Result<(), ReportFault>
        ensures { (begun : S) (run : ReportedRun) (rows : Rows)
            → HasResults (change S.taken S.failures begun out.old) self.old run rows
            → GivesResults (change S.taken S.failures begun out.new) self.new run
            (rows ++ (period, row.now) ∷ []) result }
    {
        write_result(&mut self.page, &self.run, period, row, out)
    }

    /// Writes what is held back. The results of all given rows have then gone out.
    ///
    /// # Errors
    ///
    /// The same as for `begin`.
    pub fn finish<S: Sink>(mut self, out: &mut S) -> Result<(), ReportFault>
        ensures { (begun : S) (run : ReportedRun) (rows : Rows)
            → HasResults (change S.taken S.failures begun out.old) self run rows
            → Sends (change S.taken S.failures begun out.new) (results_text run rows) result }
    {
        self.page.finish(out)
    }
}

/// Writes the results of a run as comma-separated values: a header, then a line for each row, in the
/// order of the rows, with energies in MWh and cash in pence (profile). Lines are made in memory, and go
/// out by the page.
///
/// # Errors
///
/// `Memory` if memory is refused. `Write` if the output failed or took nothing in this call. A
/// beginning of the text may have gone out.
pub fn write_results<S: Sink>(
    alloc: Global,
    run: &ReportedRun,
    rows: &[(PeriodNumber, AccountRow)],
    out: &mut S,
) -> Result<(), ReportFault>
    ensures writes { Sends (change S.taken S.failures out.old out.new)
        (results_text run.now rows.now) result }
{
    let mut writer = ResultsWriter::begin(alloc, run, out)?;
    for row in rows {
        writer.row(row.0, &row.1, out)?;
    }
    writer.finish(out)
}

/// Writes the line of a row.
fn write_result<S: Sink>(
    page: &mut Page,
    run: &ReportedRun,
    period: PeriodNumber,
    row: &AccountRow,
    out: &mut S,
) -> Result<(), ReportFault>
    ensures { Passes (change S.taken S.failures out.old out.new) page.new
        (page.old ++ result_line run.now (period, row.now)) result }
{
    push_result_line(page, run, period, row)?;
    page.pass(out)
}

/// Appends the line of a row.
#[tactic(auto, unfolding(crate::specs::Exports::result_line, crate::specs::Fields::comma_line))]
fn push_result_line(
    page: &mut Page,
    run: &ReportedRun,
    period: PeriodNumber,
    row: &AccountRow,
) -> Result<(), AllocError>
    ensures { OnOk result (page.new ≡ page.old ++ result_line run.now (period, row.now)) }
{
    push_run(page, run)?;
    page.push_account(&row.account)?;
    push_period(page, period)?;
    push_energies(page, row)?;
    push_cash(page, row)?;
    page.push(b"\n")
}

/// Appends the date and the kind of a run, each before a comma.
fn push_run(page: &mut Page, run: &ReportedRun) -> Result<(), AllocError>
    ensures { OnOk result (page.new
        ≡ page.old ++ (date_text run.now.date ++ codes "," ++ run_kind_code run.now.kind ++ codes ",")) }
{
    page.push(&run.date.text())?;
    page.push(b",")?;
    page.push(run.kind.code().as_bytes())?;
    page.push(b",")
}

/// Appends the number of a Settlement Period behind a comma.
fn push_period(page: &mut Page, period: PeriodNumber) -> Result<(), AllocError>
    ensures { OnOk result (page.new ≡ page.old ++ (codes "," ++ decimal period)) }
{
    let mut buffer = Buffer::new();
    page.push(b",")?;
    page.push(buffer.format(period.number()).as_bytes())
}

/// Appends the energies of a row, each behind a comma.
fn push_energies(page: &mut Page, row: &AccountRow) -> Result<(), AllocError>
    ensures { OnOk result (page.new ≡ page.old
        ++ flat_map (λ e. codes "," ++ energy_text e) (energies_of row.now)) }
{
    page.push_energy(b',', row.credited)?;
    page.push_energy(b',', row.balancing)?;
    page.push_energy(b',', row.contracts)?;
    page.push_energy(b',', row.imbalance)
}

/// Appends the cash of a row, each amount behind a comma.
fn push_cash(page: &mut Page, row: &AccountRow) -> Result<(), AllocError>
    ensures { OnOk result (page.new ≡ page.old
        ++ flat_map (λ c. codes "," ++ pence_text c) (cash_of row.now)) }
{
    page.push_pence(b',', i128::from(row.charge.units()))?;
    page.push_pence(b',', i128::from(row.share.units()))
}

/// A writer of balances. It is given one party after another, after all postings are summed, and keeps no
/// parties. It keeps the lines of a page that is not full. Contracts see the sums of the postings and the
/// bytes that are held back.
#[derive(Drop)]
pub struct BalancesWriter {
    sums: SumTable,
    page: Page,
}

impl Model for BalancesWriter {
    ghost use Rattle.hh_reports.specs.Writers.{BalancesState};

    ghost Value = { BalancesState };

    ghost view = { λ w. record { sums = w.sums; held = w.page } };
}

impl BalancesWriter {
    /// Begins the balances, from the sums of postings: the header.
    ///
    /// # Errors
    ///
    /// `Memory` if memory is refused. `Write` if the output failed or took nothing in this call. A
    /// beginning of the text may have gone out.
    pub fn begin<S: Sink>(
        alloc: Global,
        sums: AccountSums,
        out: &mut S,
    ) -> Result<BalancesWriter, ReportFault>
        ensures { let device = change S.taken S.failures out.old out.new in
            (postings : Amounts) → HasAmounts sums postings
            → Reaches device (λ writer. HasBalances device writer postings [])
            (balances_text [] (λ a. sum_for a postings)) result }
    {
        let mut page = Page::new(alloc);
        page.put(BALANCES_HEADER, out)?;
        Ok(BalancesWriter {
            sums: sums.into_table(),
            page,
        })
    }

    /// Takes a party. The lines of both its accounts go out behind those of the parties before.
    ///
    /// # Errors
    ///
    /// The same as for `begin`. The writer can't be used after an error.
    pub fn party<S: Sink>(&mut self, party: PartyId, out: &mut S) -> Result<(), ReportFault>
        ensures { (begun : S) (postings : Amounts) (parties : List (List ℕ))
            → HasBalances (change S.taken S.failures begun out.old) self.old postings parties
            → GivesBalances (change S.taken S.failures begun out.new) self.new postings
            (parties ++ party ∷ []) result }
    {
        write_party(&mut self.page, party, &self.sums, out)
    }

    /// Writes what is held back. The balances of all given parties have then gone out.
    ///
    /// # Errors
    ///
    /// The same as for `begin`.
    pub fn finish<S: Sink>(mut self, out: &mut S) -> Result<(), ReportFault>
        ensures { (begun : S) (postings : Amounts) (parties : List (List ℕ))
            → HasBalances (change S.taken S.failures begun out.old) self postings parties
            → Sends (change S.taken S.failures begun out.new)
            (balances_text parties (λ a. sum_for a postings)) result }
    {
        self.page.finish(out)
    }
}

/// Writes the balances of the accounts of parties as comma-separated values: a header, then a line for
/// each of both accounts of each party, in the order of the parties (profile). A balance is the sum of what
/// was posted to the account, in pence, or 0 if nothing was. Lines are made in memory, and go out by the
/// page.
///
/// # Errors
///
/// `Memory` if memory is refused. `Write` if the output failed or took nothing in this call. A
/// beginning of the text may have gone out.
pub fn write_balances<S: Sink>(
    alloc: Global,
    parties: &[PartyId],
    postings: &[(Account, Pence)],
    out: &mut S,
) -> Result<(), ReportFault>
    ensures writes { Sends (change S.taken S.failures out.old out.new)
        (balances_text parties.now (λ a. sum_for a postings.now)) result }
{
    let sums = posted_sums(alloc, postings)?;
    let mut writer = BalancesWriter::begin(alloc, sums, out)?;
    for party in parties {
        writer.party(*party, out)?;
    }
    writer.finish(out)
}

/// The sum of the postings to each account.
fn posted_sums(alloc: Global, postings: &[(Account, Pence)]) -> Result<AccountSums, AllocError>
    ensures { IfOk result (λ sums. HasAmounts sums postings.now) }
{
    let mut sums = AccountSums::new(alloc);
    for posting in postings {
        sums.posting(posting.0, posting.1)?;
    }
    Ok(sums)
}

/// Writes the lines of both accounts of a party.
fn write_party<S: Sink>(
    page: &mut Page,
    party: PartyId,
    sums: &SumTable,
    out: &mut S,
) -> Result<(), ReportFault>
    ensures { Passes (change S.taken S.failures out.old out.new) page.new
        (page.old ++ party_lines (sum_in sums.now) party) result }
{
    let (production, consumption) = (Side::Production, Side::Consumption);
    write_balance(
        page,
        Account {
            party,
            side: production,
        },
        sums,
        out,
    )?;
    write_balance(
        page,
        Account {
            party,
            side: consumption,
        },
        sums,
        out,
    )
}

/// Writes the line of an account's balance.
fn write_balance<S: Sink>(
    page: &mut Page,
    account: Account,
    sums: &SumTable,
    out: &mut S,
) -> Result<(), ReportFault>
    ensures { Passes (change S.taken S.failures out.old out.new) page.new
        (page.old ++ balance_line account (sum_in sums.now account)) result }
{
    push_balance_line(page, &account, sums.get(&account).unwrap_or(0))?;
    page.pass(out)
}

/// Appends the line of an account's balance.
#[tactic(auto, unfolding(crate::specs::Exports::balance_line, crate::specs::Fields::comma_line))]
fn push_balance_line(page: &mut Page, account: &Account, balance: i128) -> Result<(), AllocError>
    ensures { OnOk result (page.new ≡ page.old ++ balance_line account.now balance) }
{
    page.push_account(account)?;
    page.push_pence(b',', balance)?;
    page.push(b"\n")
}
