//! The day report of a run.

ghost use Rattle.std.specs.Prelude.{◌≡◌, ◌==◌, ◌&&◌, ◌-◌, ◌+◌, ◌<◌, ◌≤◌, ◌^◌, ◌+ℤ◌, [], ◌∷◌, ◌++◌, codes, decimal, min, nat_le, nat_lt, pos, unsigned_abs, if◌then◌else◌, OnOk};
ghost use Rattle.std.specs.List.{flat_map};
ghost use Rattle.std.specs.List.Sorted.{IsNonDecreasingBy};
ghost use Rattle.hh_devices.specs.DeviceChanges.{change};
ghost use Rattle.hh_reports.specs.declared.run.ReportedRun.{ReportedRun};
ghost use Rattle.hh_reports.specs.DayReport.{day_report_begun, day_report_text, heads_line, net_line, period_account_line, period_residual_line, title_line};
ghost use Rattle.hh_reports.specs.steps.DayReport.{closed_before, closing_line, closing_lines, run_row_lines};
ghost use Rattle.hh_reports.specs.steps.Output.{Passes};
ghost use Rattle.hh_reports.specs.Fields.{cash_of, energies_of, energy_text, pence_text};
ghost use Rattle.hh_num.specs.Fixed.{flush_right};
ghost use Rattle.hh_reports.specs.Output.{IsShort, Reaches, Sends};
ghost use Rattle.hh_reports.specs.Writers.{GivesDay, HasDay, Rows};

use crate::fault::ReportFault;
use crate::page::Page;
use crate::period_rows::{in_order_of_periods, is_rising};
use crate::run::ReportedRun;
use crate::sums::AccountSums;
use hh_calc::AccountRow;
use hh_devices::Sink;
use hh_names::{Account, PeriodNumber};
use itoa::Buffer;
use std::alloc::{AllocError, Global};
use std::marker::Model;

/// The heads of the columns.
const HEADS: &[u8] =
    b"PER ACCOUNT                  CREDITED            BALANCING            CONTRACTS            IMBALANCE         CHARGE          SHARE\n";

/// A writer of the day report of a run. It is given one row after another in the order of their
/// Settlement Periods. It keeps no rows. It keeps the lines of a page that is not full, the sum of the
/// charges of the last row's period, and a net for each account. Contracts see these.
#[derive(Drop)]
pub struct DayReportWriter {
    run: ReportedRun,
    /// The Settlement Period of the last row, or 0 if there is none.
    period: u8,
    /// The sum of the charges of that period.
    charges: i128,
    nets: AccountSums,
    page: Page,
}

impl Model for DayReportWriter {
    ghost use Rattle.std.specs.Prelude.{◌≤◌, ◌*◌, ◌^◌, unsigned_abs};
    ghost use Rattle.hh_reports.specs.Writers.{DayState};

    ghost Value = { DayState };

    ghost view = { λ w. record {
      run = w.run;
      period = w.period;
      charges = w.charges;
      nets = w.nets;
      held = w.page;
    } };

    ghost invariant = { λ w. (unsigned_abs w.charges ≤ 2 ^ 63 * w.nets.given)
        × (w.nets.given ≤ 2 ^ 62) };
}

impl DayReportWriter {
    /// Begins the day report of a run: its title and the heads of the columns.
    ///
    /// # Errors
    ///
    /// `Memory` if memory is refused. `Write` if the output failed or took nothing in this call. A
    /// beginning of the text may have gone out.
    pub fn begin<S: Sink>(
        alloc: Global,
        run: &ReportedRun,
        out: &mut S,
    ) -> Result<DayReportWriter, ReportFault>
        ensures { let device = change S.taken S.failures out.old out.new in
            Reaches device (λ writer. HasDay device writer run.now [])
            (day_report_begun run.now []) result }
    {
        let mut page = Page::new(alloc);
        write_heads(&mut page, run, out)?;
        Ok(DayReportWriter {
            run: *run,
            period: 0,
            charges: 0,
            nets: AccountSums::new(alloc),
            page,
        })
    }

    /// Whether a row of this Settlement Period may be taken: it is not earlier than that of the last row,
    /// and fewer than 2^62 rows were taken.
    pub fn may_take(&self, period: PeriodNumber) -> bool
        ensures { result ≡ (nat_le self.now.period period && nat_lt self.now.nets.given (2 ^ 62)) }
    {
        self.period <= period.number() && !self.nets.is_full()
    }

    /// Takes a row of the last row's Settlement Period or of a later one. Periods that end with it get
    /// their residuals. A period that the run doesn't have gets no lines, but its rows count in the nets.
    /// At most 2^62 rows are taken, so that their sums fit.
    ///
    /// # Errors
    ///
    /// The same as for `begin`. The writer can't be used after an error.
    pub fn row<S: Sink>(
        &mut self,
        period: PeriodNumber,
        row: &AccountRow,
        out: &mut S,
    ) -> Result<(), ReportFault>
        requires in_order { self.old.period ≤ period }
        requires few { self.old.nets.given < 2 ^ 62 }
        ensures numbered { 1 ≤ period }
        ensures writes { (begun : S) (run : ReportedRun) (rows : Rows)
            → HasDay (change S.taken S.failures begun out.old) self.old run rows
            → GivesDay (change S.taken S.failures begun out.new) self.new run
            (rows ++ (period, row.now) ∷ []) result }
    {
        let number = period.number();
        self.nets.row(row)?;
        write_row(
            &mut self.page,
            &self.run,
            self.period,
            self.charges,
            number,
            row,
            out,
        )?;
        self.charges = charges_with(self.period, self.charges, number, row);
        self.period = number;
        Ok(())
    }

    /// Writes the residuals of the periods that had none, the day net of each account, and what is held
    /// back. The day report of all given rows has then gone out.
    ///
    /// # Errors
    ///
    /// The same as for `begin`.
    pub fn finish<S: Sink>(self, out: &mut S) -> Result<(), ReportFault>
        ensures { (begun : S) (run : ReportedRun) (rows : Rows)
            → HasDay (change S.taken S.failures begun out.old) self run rows
            → Sends (change S.taken S.failures begun out.new) (day_report_text run rows) result }
    {
        let DayReportWriter {
            run,
            period,
            charges,
            nets,
            mut page,
        } = self;
        let nets = nets.into_table();
        write_end(&mut page, &run, period, charges, nets.rows(), out)?;
        page.finish(out)
    }
}

/// Writes the day report of a run (profile). For each Settlement Period it has a line for each account
/// with its energies in MWh and its cash in pence, and then a line with the residual of the period. At the
/// end it has the day net of each account. Each row is given with its Settlement Period. Lines are made in
/// memory, and go out by the page.
///
/// # Errors
///
/// `Memory` if memory is refused. `Write` if the output failed or took nothing in this call. A
/// beginning of the report may have gone out.
pub fn write_day_report<S: Sink>(
    alloc: Global,
    run: &ReportedRun,
    rows: &[(PeriodNumber, AccountRow)],
    out: &mut S,
) -> Result<(), ReportFault>
    ensures writes { Sends (change S.taken S.failures out.old out.new)
        (day_report_text run.now rows.now) result }
{
    if is_rising(rows) {
        return write_rising(alloc, run, rows, out);
    }
    let sorted = in_order_of_periods(alloc, rows)?;
    write_rising(alloc, run, &sorted, out)
}

/// Writes the day report of a run with rows in the order of their Settlement Periods.
fn write_rising<S: Sink>(
    alloc: Global,
    run: &ReportedRun,
    rows: &[(PeriodNumber, AccountRow)],
    out: &mut S,
) -> Result<(), ReportFault>
    requires { IsNonDecreasingBy (λ e. e.0) rows.now }
    ensures { Sends (change S.taken S.failures out.old out.new)
        (day_report_text run.now rows.now) result }
{
    let mut writer = DayReportWriter::begin(alloc, run, out)?;
    for row in rows {
        writer.row(row.0, &row.1, out)?;
    }
    writer.finish(out)
}

/// Writes the title line and the heads of the columns.
fn write_heads<S: Sink>(page: &mut Page, run: &ReportedRun, out: &mut S) -> Result<(), ReportFault>
    ensures { Passes (change S.taken S.failures out.old out.new) page.new
        (page.old ++ (title_line run.now ++ heads_line)) result }
{
    write_title(page, run, out)?;
    page.put(heads(), out)
}

/// Writes what a row adds to a report whose last row was of the period `last`, with these charges.
fn write_row<S: Sink>(
    page: &mut Page,
    run: &ReportedRun,
    last: u8,
    charges: i128,
    period: u8,
    row: &AccountRow,
    out: &mut S,
) -> Result<(), ReportFault>
    requires { unsigned_abs charges ≤ 2 ^ 126 }
    ensures { Passes (change S.taken S.failures out.old out.new) page.new
        (page.old ++ (closing_lines (closed_before run.now last) charges
        (closed_before run.now period) ++ run_row_lines run.now (period, row.now))) result }
{
    let closed = closed_before(run, last);
    let until = closed_before(run, period);
    write_closings(page, closed, charges, until, out)?;
    if period > run.periods {
        return Ok(());
    }
    write_account(page, period, row, out)
}

/// How many Settlement Periods of a run are before this one, or none for period 0.
fn closed_before(run: &ReportedRun, period: u8) -> u8
    ensures value { result ≡ closed_before run.now period }
    ensures room { result < 255 }
{
    run.periods.min(period.saturating_sub(1))
}

/// The charges of a row's period so far, with those of the row. `charges` are those of the period of the
/// row before.
fn charges_with(last: u8, charges: i128, period: u8, row: &AccountRow) -> i128
    requires { unsigned_abs charges ≤ 2 ^ 125 }
    ensures sum { result ≡ (if last == period then charges else pos 0) +ℤ row.now.charge }
    ensures small { unsigned_abs result ≤ unsigned_abs charges + 2 ^ 63 }
{
    let before = if last == period { charges } else { 0 };
    before + i128::from(row.charge.units())
}

/// Writes the residuals of the Settlement Periods after the closed ones, up to another number of periods.
/// The first of them has these charges, the others have none. A full page goes out before.
fn write_closings<S: Sink>(
    page: &mut Page,
    closed: u8,
    charges: i128,
    until: u8,
    out: &mut S,
) -> Result<(), ReportFault>
    requires room { closed < 255 }
    requires small { unsigned_abs charges ≤ 2 ^ 126 }
    ensures { Passes (change S.taken S.failures out.old out.new) page.new
        (page.old ++ closing_lines closed charges until) result }
{
    page.pass(out)?;
    let total = until.saturating_sub(closed);
    for count in 0..total {
        write_closing(page, closed + 1, charges, closed + 1 + count, out)?;
    }
    Ok(())
}

/// Writes the residual of a Settlement Period. The period has these charges if it is the first, and
/// otherwise none.
fn write_closing<S: Sink>(
    page: &mut Page,
    first: u8,
    charges: i128,
    period: u8,
    out: &mut S,
) -> Result<(), ReportFault>
    requires { unsigned_abs charges ≤ 2 ^ 126 }
    ensures { Passes (change S.taken S.failures out.old out.new) page.new
        (page.old ++ closing_line first charges period) result }
{
    let charges = if period == first { charges } else { 0 };
    write_residual(page, period, -charges, out)
}

/// Writes what follows the last row of a report: the residuals of the Settlement Periods that had none,
/// and the day nets.
fn write_end<S: Sink>(
    page: &mut Page,
    run: &ReportedRun,
    last: u8,
    charges: i128,
    nets: &[(Account, i128)],
    out: &mut S,
) -> Result<(), ReportFault>
    requires { unsigned_abs charges ≤ 2 ^ 126 }
    ensures { Passes (change S.taken S.failures out.old out.new) page.new
        (page.old ++ (closing_lines (closed_before run.now last) charges run.now.periods
        ++ flat_map net_line nets.now ++ codes "END\n")) result }
{
    let closed = closed_before(run, last);
    write_closings(page, closed, charges, run.periods, out)?;
    write_nets(page, nets, out)?;
    page.put(b"END\n", out)
}

/// The line of the heads of the columns.
#[tactic(auto, unfolding(crate::specs::DayReport::heads_line, crate::specs::Fields::spaced_line, hh_num::specs::Fixed::flush_right, crate::specs::Fields::flush_left))]
fn heads() -> &'static [u8]
    ensures { result.now ≡ heads_line }
{
    HEADS
}

/// Writes the title line, which names the run.
fn write_title<S: Sink>(page: &mut Page, run: &ReportedRun, out: &mut S) -> Result<(), ReportFault>
    ensures { Passes (change S.taken S.failures out.old out.new) page.new
        (page.old ++ title_line run.now) result }
{
    push_title(page, run)?;
    page.pass(out)
}

/// Appends the title line, which names the run.
#[tactic(auto, unfolding(crate::specs::DayReport::title_line, crate::specs::Fields::spaced_line))]
fn push_title(page: &mut Page, run: &ReportedRun) -> Result<(), AllocError>
    ensures { OnOk result (page.new ≡ page.old ++ title_line run.now) }
{
    page.push(b"DAY REPORT ")?;
    page.push(&run.date.text())?;
    page.push(b" ")?;
    page.push(run.kind.code().as_bytes())?;
    page.push(b"\n")
}

/// Writes the line of an account in a Settlement Period.
fn write_account<S: Sink>(
    page: &mut Page,
    period: u8,
    row: &AccountRow,
    out: &mut S,
) -> Result<(), ReportFault>
    ensures { Passes (change S.taken S.failures out.old out.new) page.new
        (page.old ++ period_account_line period row.now) result }
{
    push_account_line(page, period, row)?;
    page.pass(out)
}

/// Appends the line of an account in a Settlement Period.
#[tactic(auto, unfolding(crate::specs::DayReport::period_account_line, crate::specs::Fields::spaced_line))]
fn push_account_line(page: &mut Page, period: u8, row: &AccountRow) -> Result<(), AllocError>
    ensures { OnOk result (page.new ≡ page.old ++ period_account_line period row.now) }
{
    push_period(page, period)?;
    page.push_account_left(12, &row.account)?;
    push_energies(page, row)?;
    push_cash(page, row)?;
    page.push(b"\n")
}

/// Appends the number of a Settlement Period and a blank.
fn push_period(page: &mut Page, period: u8) -> Result<(), AllocError>
    ensures { OnOk result (page.new ≡ page.old ++ (flush_right 3 (decimal period) ++ codes " ")) }
{
    let mut buffer = Buffer::new();
    page.push_right(3, buffer.format(period).as_bytes())?;
    page.push(b" ")
}

/// Appends the energies of a row, each behind a blank.
fn push_energies(page: &mut Page, row: &AccountRow) -> Result<(), AllocError>
    ensures { OnOk result (page.new ≡ page.old
        ++ flat_map (λ e. codes " " ++ flush_right 20 (energy_text e)) (energies_of row.now)) }
{
    page.push_energy_right(b' ', 20, row.credited)?;
    page.push_energy_right(b' ', 20, row.balancing)?;
    page.push_energy_right(b' ', 20, row.contracts)?;
    page.push_energy_right(b' ', 20, row.imbalance)
}

/// Appends the cash of a row, each amount behind a blank.
fn push_cash(page: &mut Page, row: &AccountRow) -> Result<(), AllocError>
    ensures { OnOk result (page.new ≡ page.old
        ++ flat_map (λ c. codes " " ++ flush_right 14 (pence_text c)) (cash_of row.now)) }
{
    page.push_pence_right(b' ', 14, i128::from(row.charge.units()))?;
    page.push_pence_right(b' ', 14, i128::from(row.share.units()))
}

/// Writes the line of the residual of a Settlement Period.
fn write_residual<S: Sink>(
    page: &mut Page,
    period: u8,
    residual: i128,
    out: &mut S,
) -> Result<(), ReportFault>
    ensures { Passes (change S.taken S.failures out.old out.new) page.new
        (page.old ++ period_residual_line period residual) result }
{
    push_residual_line(page, period, residual)?;
    page.pass(out)
}

/// Appends the line of the residual of a Settlement Period.
#[tactic(auto, unfolding(crate::specs::DayReport::period_residual_line, crate::specs::Fields::spaced_line))]
fn push_residual_line(page: &mut Page, period: u8, residual: i128) -> Result<(), AllocError>
    ensures { OnOk result (page.new ≡ page.old ++ period_residual_line period residual) }
{
    push_period(page, period)?;
    page.push_left(12, b"RESIDUAL")?;
    page.push_pence_right(b' ', 14, residual)?;
    page.push(b"\n")
}

/// Writes the lines of day nets.
fn write_nets<S: Sink>(
    page: &mut Page,
    nets: &[(Account, i128)],
    out: &mut S,
) -> Result<(), ReportFault>
    requires { IsShort page.old }
    ensures { Passes (change S.taken S.failures out.old out.new) page.new
        (page.old ++ flat_map net_line nets.now) result }
{
    for net in nets {
        write_net(page, net, out)?;
    }
    Ok(())
}

/// Writes the line of a day net.
fn write_net<S: Sink>(
    page: &mut Page,
    net: &(Account, i128),
    out: &mut S,
) -> Result<(), ReportFault>
    ensures { Passes (change S.taken S.failures out.old out.new) page.new
        (page.old ++ net_line net.now) result }
{
    push_net_line(page, net)?;
    page.pass(out)
}

/// Appends the line of a day net.
#[tactic(auto, unfolding(crate::specs::DayReport::net_line, crate::specs::Fields::spaced_line))]
fn push_net_line(page: &mut Page, net: &(Account, i128)) -> Result<(), AllocError>
    ensures { OnOk result (page.new ≡ page.old ++ net_line net.now) }
{
    page.push(b"NET ")?;
    page.push_account_left(12, &net.0)?;
    page.push_pence_right(b' ', 16, net.1)?;
    page.push(b"\n")
}
