//! The replies of an office.

ghost use Rattle.std.specs.Prelude.{◌≡◌};

use hh_calc::AccountRow;
use hh_rows::{Account, ContractRow, Fault, Pence, PeriodNumber};
use hh_runs::{DayNet, RunKey, RunKind, Summary};
use hh_time::SettlementDate;
use std::marker::Model;

/// What became of the rows of an accepted file.
#[derive(Clone, Copy, Debug, PartialEq, Eq)]
pub struct Loaded {
    /// How many rows were applied: all but the late ones.
    pub applied: u32,
    /// How many rows of contracts or reallocations came at their deadline or after it.
    pub late: u32,
}

/// The contracts in force of an account on a date, by Settlement Period, then by the bytes of their
/// references (Section P in shape).
#[derive(Debug, Drop)]
pub struct ContractsReply {
    account: Account,
    date: SettlementDate,
    contracts: Vec<ContractRow>,
}

impl Model for ContractsReply {
    ghost use Rattle.hh_requests.specs.Views.{ContractsView};

    ghost Value = { ContractsView };

    ghost view = { λ r. record {
      account = r.account;
      date = r.date;
      contracts = r.contracts.items;
    } };
}

impl ContractsReply {
    /// These contracts of an account on a date.
    pub fn new(
        account: Account,
        date: SettlementDate,
        contracts: Vec<ContractRow>,
    ) -> ContractsReply
        ensures { result ≡ record {
          account = account;
          date = date;
          contracts = contracts.items;
        } }
    {
        ContractsReply {
            account,
            date,
            contracts,
        }
    }

    /// The account that was asked for.
    pub fn account(&self) -> Account
        ensures { result ≡ self.now.account }
    {
        self.account
    }

    /// The date that was asked for.
    pub fn date(&self) -> SettlementDate
        ensures { result ≡ self.now.date }
    {
        self.date
    }

    /// The rows of the contracts, volumes in kWh.
    pub fn contracts(&self) -> &[ContractRow]
        ensures { result.now ≡ self.now.contracts }
    {
        &self.contracts
    }
}

/// What an account has and pays in a run, the latest of its date: a row for each Settlement Period in
/// order, and the sum of the rows' charges and shares (Section T in shape).
#[derive(Debug, Drop)]
pub struct AccountReply {
    account: Account,
    run: RunKey,
    net: DayNet,
    rows: Vec<(PeriodNumber, AccountRow)>,
}

impl Model for AccountReply {
    ghost use Rattle.hh_requests.specs.Views.{AccountView};

    ghost Value = { AccountView };

    ghost view = { λ r. record {
      account = r.account;
      run = r.run;
      net = r.net;
      rows = r.rows.items;
    } };
}

impl AccountReply {
    /// These rows of an account in a run, with their net.
    pub fn new(
        account: Account,
        run: RunKey,
        net: DayNet,
        rows: Vec<(PeriodNumber, AccountRow)>,
    ) -> AccountReply
        ensures { result ≡ record {
          account = account;
          run = run;
          net = net;
          rows = rows.items;
        } }
    {
        AccountReply {
            account,
            run,
            net,
            rows,
        }
    }

    /// The account that was asked for.
    pub fn account(&self) -> Account
        ensures { result ≡ self.now.account }
    {
        self.account
    }

    /// The date that was asked for, and the kind of its latest run.
    pub fn run(&self) -> RunKey
        ensures { result ≡ self.now.run }
    {
        self.run
    }

    /// What the account pays over the date in all, in pence, negative if it is paid.
    pub fn net(&self) -> DayNet
        ensures { result ≡ self.now.net }
    {
        self.net
    }

    /// The account's rows, each with its Settlement Period: energy in ticks, cash in pence.
    pub fn rows(&self) -> &[(PeriodNumber, AccountRow)]
        ensures { result.now ≡ self.now.rows }
    {
        &self.rows
    }
}

/// The kinds of the runs of a date, in their order.
#[derive(Debug, Drop)]
pub struct RunsReply {
    date: SettlementDate,
    kinds: Vec<RunKind>,
}

impl Model for RunsReply {
    ghost use Rattle.hh_requests.specs.Views.{RunsView};

    ghost Value = { RunsView };

    ghost view = { λ r. record {
      date = r.date;
      kinds = r.kinds.items;
    } };
}

impl RunsReply {
    /// Runs of these kinds on a date.
    pub fn new(date: SettlementDate, kinds: Vec<RunKind>) -> RunsReply
        ensures { result ≡ record { date = date; kinds = kinds.items } }
    {
        RunsReply { date, kinds }
    }

    /// The date that was asked for.
    pub fn date(&self) -> SettlementDate
        ensures { result ≡ self.now.date }
    {
        self.date
    }

    /// The kinds of its runs.
    pub fn kinds(&self) -> &[RunKind]
        ensures { result.now ≡ self.now.kinds }
    {
        &self.kinds
    }
}

/// The reply to a request.
#[derive(Debug, Drop)]
pub enum Reply {
    /// A file was accepted, now or before.
    Loaded(Loaded),
    /// A run was made, now or before.
    Ran { run: RunKey, summary: Summary },
    /// The rows of an account that were asked for.
    Account(AccountReply),
    /// What the runs of all dates have posted to an account, in pence, positive if it pays.
    Balance { account: Account, moved: Pence },
    /// The contracts that were asked for.
    Contracts(ContractsReply),
    /// The runs that were asked for.
    Runs(RunsReply),
    /// The request was refused, and nothing has changed.
    Refused(Fault),
}
