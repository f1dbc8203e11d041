//! The writers of reports as takers of the rows from which they write.

ghost use Rattle.std.specs.Prelude.{◌≤◌, List, [], ◌∷◌, Err, map, All};
ghost use Rattle.std.specs.Io.KnownBytes.{Appends};
ghost use Rattle.hh_devices.specs.DeviceChanges.{IsWell};
ghost use Rattle.hh_names.specs.declared.account.Account.{Account};
ghost use Rattle.hh_reports.specs.declared.run.ReportedRun.{ReportedRun};
ghost use Rattle.hh_reports.specs.DayReport.{day_report_begun};
ghost use Rattle.hh_reports.specs.Exports.{balances_text, results_text};
ghost use Rattle.hh_reports.specs.Nets.{Amounts, sum_for};
ghost use Rattle.hh_reports.specs.Writers.{HasAmounts, HasBalances, HasDay, HasResults};
ghost use Rattle.hh_keyed_rows.specs.Outputs.{Outputs};
ghost use Rattle.hh_sqltables.specs.Reported.{period_row, posted_amount};
ghost use Rattle.hh_sqltables.specs.TakerLaws.{balances_left, day_left, nothing_left, results_left};

use crate::taker::RowTaker;
use hh_devices::Sink;
use hh_keyed_rows::{AccountAmounts, OutputFault, PostingKey, ResultKey};
use hh_names::PartyId;
use hh_num::Pence;
use hh_reports::{AccountSums, BalancesWriter, DayReportWriter, ResultsWriter};
use hh_rows::PartyRegistration;

/// Writes the results of a run.
impl RowTaker<ResultKey, AccountAmounts> for ResultsWriter {
    ghost Report = { ReportedRun };

    ghost has = { λ device writer run rows. HasResults device writer run (map period_row rows) };

    ghost stopped = { λ device run fault rows.
        Outputs device {A = Unit {0}} (results_text run (map period_row rows)) (Err fault) };

    fn take_row<O: Sink>(
        &mut self,
        key: &ResultKey,
        value: &AccountAmounts,
        out: &mut O,
    ) -> Result<(), OutputFault> {
        Ok(self.row(key.period, &value.with(key.account), out)?)
    }

    ghost ends = { λ device writer run rows fault has.
        results_left device fault writer run (map period_row rows) has };
}

/// Writes the day report of a run. A row of an earlier Settlement Period than the row before it is refused.
/// No office has such rows.
impl RowTaker<ResultKey, AccountAmounts> for DayReportWriter {
    ghost Report = { ReportedRun };

    ghost has = { λ device writer run rows. HasDay device writer run (map period_row rows) };

    ghost stopped = { λ device run fault rows. All (λ e. 1 ≤ e.0) (map period_row rows)
        × Outputs device {A = Unit {0}} (day_report_begun run (map period_row rows)) (Err fault) };

    fn take_row<O: Sink>(
        &mut self,
        key: &ResultKey,
        value: &AccountAmounts,
        out: &mut O,
    ) -> Result<(), OutputFault> {
        if !self.may_take(key.period) {
            return Err(OutputFault::Store);
        }
        Ok(self.row(key.period, &value.with(key.account), out)?)
    }

    ghost ends = { λ device writer run rows fault has.
        day_left device fault writer run (map period_row rows) has };
}

/// Writes the balances of parties, from the sums of what was posted.
impl RowTaker<PartyId, PartyRegistration> for BalancesWriter {
    ghost Report = { Amounts };

    ghost has = { λ device writer amounts rows.
        HasBalances device writer amounts (map (λ e. e.0) rows) };

    ghost stopped = { λ device amounts fault rows. Outputs device {A = Unit {0}}
        (balances_text (map (λ e. e.0) rows) (λ a. sum_for a amounts)) (Err fault) };

    fn take_row<O: Sink>(
        &mut self,
        key: &PartyId,
        _value: &PartyRegistration,
        out: &mut O,
    ) -> Result<(), OutputFault> {
        Ok(self.party(*key, out)?)
    }

    ghost ends = { λ device writer amounts rows fault has.
        balances_left device fault writer amounts (map (λ e. e.0) rows) has };
}

/// Sums what was posted to each account, and writes nothing.
impl RowTaker<PostingKey, Pence> for AccountSums {
    ghost Report = { Unit {0} };

    ghost has = { λ device sums _ rows. HasAmounts sums (map posted_amount rows)
        × Appends device.old device.new [] × IsWell device };

    ghost stopped = { λ device _ fault rows. Outputs device {A = Unit {0}} [] (Err fault) };

    fn take_row<O: Sink>(
        &mut self,
        key: &PostingKey,
        value: &Pence,
        _out: &mut O,
    ) -> Result<(), OutputFault> {
        if self.is_full() {
            return Err(OutputFault::Store);
        }
        Ok(self.posting(key.account, *value)?)
    }

    ghost ends = { λ device sums _ rows fault has. nothing_left device fault (has.1, has.2) };
}
