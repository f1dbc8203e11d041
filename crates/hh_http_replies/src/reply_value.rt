//! The bodies of replies.

ghost use Rattle.std.specs.Prelude.{◌≡◌, IfOk, OnOk, codes, option_map, string_bytes};
ghost use Rattle.serde_json.specs.Data.{put as with_member, string};
ghost use Rattle.serde_json.specs.View.{members_view, view};
ghost use Rattle.hh_http_replies.specs.Bodies.{account_body, account_data, balance_body, contract_body, contracts_body, count_data, counterparty_of, date_data, energy_data, fault_body, kind_data, list_data, loaded_body, period_body, reply_body, role_of, run_body, runs_body, volume_data};
ghost use Rattle.hh_http_replies.specs.steps.Bodies.{with_place};

use crate::member_text::{date_text, number_text};
use hh_names::{Account, Counterparties, Fault, PeriodNumber, UnitId};
use hh_num::{Kwh, Pence, Ticks};
use hh_requests::{AccountReply, AccountRow, ContractsReply, Loaded, Reply, RunsReply};
use hh_rows::ContractRow;
use hh_runs::{RunKey, RunKind, Summary};
use hh_time::SettlementDate;
use serde_json::{Map, Value, json, put};
use std::alloc::{AllocError, Global};

/// The body of a reply.
pub(crate) fn reply_value(alloc: Global, reply: &Reply) -> Result<Value, AllocError>
    ensures { IfOk result (λ value. view value ≡ reply_body reply.now) }
{
    match reply {
        Reply::Loaded(loaded) => loaded_value(alloc, *loaded),
        Reply::Ran { run, summary } => run_value(alloc, *run, *summary),
        Reply::Account(account) => account_value(alloc, account),
        Reply::Balance { account, moved } => balance_value(alloc, account, *moved),
        Reply::Contracts(contracts) => contracts_value(alloc, contracts),
        Reply::Runs(runs) => runs_value(alloc, runs),
        Reply::Refused(fault) => fault_value(alloc, fault),
    }
}

/// A file that was accepted.
fn loaded_value(alloc: Global, loaded: Loaded) -> Result<Value, AllocError>
    ensures { IfOk result (λ value. view value ≡ loaded_body loaded) }
{
    let Loaded { applied, late } = loaded;
    json!(in alloc; {"applied": applied, "late": late})
}

/// A run.
fn run_value(alloc: Global, run: RunKey, summary: Summary) -> Result<Value, AllocError>
    ensures { IfOk result (λ value. view value ≡ run_body run summary) }
{
    let Summary {
        periods,
        accounts,
        residual,
        postings,
    } = summary;
    let mut members = Map::new(alloc);
    put(&mut members, alloc, "accounts", Value::from(accounts))?;
    put_date(alloc, &mut members, run.date)?;
    put_code(alloc, &mut members, run.kind)?;
    put(&mut members, alloc, "periods", Value::from(periods))?;
    put(&mut members, alloc, "postings", Value::from(postings))?;
    put(
        &mut members,
        alloc,
        "residual_pence",
        Value::from(residual.units()),
    )?;
    Ok(Value::Object(members))
}

/// What an account has and pays in a Settlement Period.
fn period_value(alloc: Global, row: &(PeriodNumber, AccountRow)) -> Result<Value, AllocError>
    ensures { IfOk result (λ value. view value ≡ period_body row.now) }
{
    let (period, row) = row;
    let mut members = Map::new(alloc);
    put_energy(alloc, &mut members, "balancing", row.balancing)?;
    put(
        &mut members,
        alloc,
        "charge_pence",
        Value::from(row.charge.units()),
    )?;
    put_energy(alloc, &mut members, "contracts", row.contracts)?;
    put_energy(alloc, &mut members, "credited", row.credited)?;
    put_energy(alloc, &mut members, "imbalance", row.imbalance)?;
    put(&mut members, alloc, "period", Value::from(period.number()))?;
    put(
        &mut members,
        alloc,
        "share_pence",
        Value::from(row.share.units()),
    )?;
    Ok(Value::Object(members))
}

/// What an account has and pays in each Settlement Period.
fn periods_value(alloc: Global, rows: &[(PeriodNumber, AccountRow)]) -> Result<Value, AllocError>
    ensures { IfOk result (λ value. view value ≡ list_data period_body rows.now) }
{
    let mut values = Vec::new(alloc);
    for row in rows {
        values.push(period_value(alloc, row)?)?;
    }
    Ok(Value::Array(values))
}

/// What an account has and pays in a run.
fn account_value(alloc: Global, reply: &AccountReply) -> Result<Value, AllocError>
    ensures { IfOk result (λ value. view value ≡ account_body reply.now) }
{
    let run = reply.run();
    let mut members = Map::new(alloc);
    put_account(alloc, &mut members, "account", &reply.account())?;
    put_date(alloc, &mut members, run.date)?;
    put_code(alloc, &mut members, run.kind)?;
    put(
        &mut members,
        alloc,
        "net_pence",
        Value::from(reply.net().units()),
    )?;
    let periods = periods_value(alloc, reply.rows())?;
    put(&mut members, alloc, "periods", periods)?;
    Ok(Value::Object(members))
}

/// What runs have posted to an account.
fn balance_value(alloc: Global, account: &Account, moved: Pence) -> Result<Value, AllocError>
    ensures { IfOk result (λ value. view value ≡ balance_body account.now moved) }
{
    let mut members = Map::new(alloc);
    put_account(alloc, &mut members, "account", account)?;
    put(
        &mut members,
        alloc,
        "moved_pence",
        Value::from(moved.units()),
    )?;
    Ok(Value::Object(members))
}

/// The other account of a contract.
fn counterparty_of(account: &Account, counterparties: &Counterparties) -> Account
    ensures { result ≡ counterparty_of account.now counterparties.now }
{
    if counterparties.seller == *account {
        counterparties.buyer
    } else {
        counterparties.seller
    }
}

/// Whether an account sells or buys.
fn role_of(account: &Account, counterparties: &Counterparties) -> &'static str
    ensures { result.now ≡ role_of account.now counterparties.now }
{
    if counterparties.seller == *account {
        "seller"
    } else {
        "buyer"
    }
}

/// A contract as one of its accounts sees it.
fn contract_value(alloc: Global, account: &Account, row: &ContractRow) -> Result<Value, AllocError>
    ensures { IfOk result (λ value. view value ≡ contract_body account.now row.now) }
{
    let counterparties = &row.contract.counterparties;
    let counterparty = counterparty_of(account, counterparties);
    let mut members = Map::new(alloc);
    put_account(alloc, &mut members, "counterparty", &counterparty)?;
    put_volume(alloc, &mut members, row.contract.volume)?;
    let period = Value::from(row.key.at.period.number());
    put(&mut members, alloc, "period", period)?;
    put_str(alloc, &mut members, "reference", row.key.reference.as_str())?;
    put_str(
        alloc,
        &mut members,
        "role",
        role_of(account, counterparties),
    )?;
    Ok(Value::Object(members))
}

/// Contracts as one of their accounts sees them.
fn contract_values(
    alloc: Global,
    account: &Account,
    rows: &[ContractRow],
) -> Result<Value, AllocError>
    ensures { IfOk result (λ value.
        view value ≡ list_data (contract_body account.now) rows.now) }
{
    let mut values = Vec::new(alloc);
    for row in rows {
        values.push(contract_value(alloc, account, row)?)?;
    }
    Ok(Value::Array(values))
}

/// The contracts of an account in force on a date.
fn contracts_value(alloc: Global, reply: &ContractsReply) -> Result<Value, AllocError>
    ensures { IfOk result (λ value. view value ≡ contracts_body reply.now) }
{
    let account = reply.account();
    let mut members = Map::new(alloc);
    put_account(alloc, &mut members, "account", &account)?;
    let contracts = contract_values(alloc, &account, reply.contracts())?;
    put(&mut members, alloc, "contracts", contracts)?;
    put_date(alloc, &mut members, reply.date())?;
    Ok(Value::Object(members))
}

/// The codes of kinds of runs.
fn kinds_value(alloc: Global, kinds: &[RunKind]) -> Result<Value, AllocError>
    ensures { IfOk result (λ value. view value ≡ list_data kind_data kinds.now) }
{
    let mut values = Vec::new(alloc);
    for kind in kinds {
        values.push(Value::try_from_str(alloc, kind.code())?)?;
    }
    Ok(Value::Array(values))
}

/// The runs of a date.
fn runs_value(alloc: Global, reply: &RunsReply) -> Result<Value, AllocError>
    ensures { IfOk result (λ value. view value ≡ runs_body reply.now) }
{
    let mut members = Map::new(alloc);
    put_date(alloc, &mut members, reply.date())?;
    let runs = kinds_value(alloc, reply.kinds())?;
    put(&mut members, alloc, "runs", runs)?;
    Ok(Value::Object(members))
}

/// A refusal, with the places that it names.
fn fault_value(alloc: Global, fault: &Fault) -> Result<Value, AllocError>
    ensures { IfOk result (λ value. view value ≡ fault_body fault.now) }
{
    let mut members = Map::new(alloc);
    put_number(alloc, &mut members, "column", fault.column)?;
    put_str(alloc, &mut members, "name", fault.refusal.name())?;
    let period = fault.period.map(|period| u32::from(period.number()));
    put_number(alloc, &mut members, "period", period)?;
    put(
        &mut members,
        alloc,
        "refused",
        Value::from(fault.refusal.number()),
    )?;
    put_number(alloc, &mut members, "row", fault.row)?;
    put_unit(alloc, &mut members, fault.unit)?;
    Ok(Value::Object(members))
}

/// Adds a number under a key, if there is one.
fn put_number(
    alloc: Global,
    members: &mut Map<String, Value>,
    key: &str,
    number: Option<u32>,
) -> Result<(), AllocError>
    ensures { OnOk result (members_view members.new.entries ≡
        with_place key.now (option_map count_data number) (members_view members.old.entries)) }
{
    match number {
        Some(number) => put(members, alloc, key, Value::from(number)),
        None => Ok(()),
    }
}

/// Adds a unit's id under its key, if there is one.
fn put_unit(
    alloc: Global,
    members: &mut Map<String, Value>,
    unit: Option<UnitId>,
) -> Result<(), AllocError>
    ensures { OnOk result (members_view members.new.entries ≡
        with_place (codes "unit") (option_map string unit) (members_view members.old.entries)) }
{
    match unit {
        Some(unit) => put_str(alloc, members, "unit", unit.as_str()),
        None => Ok(()),
    }
}

/// Adds a text under a key.
fn put_str(
    alloc: Global,
    members: &mut Map<String, Value>,
    key: &str,
    text: &str,
) -> Result<(), AllocError>
    ensures { OnOk result (members_view members.new.entries ≡
        with_member key.now (string text.now) (members_view members.old.entries)) }
{
    let text = Value::try_from_str(alloc, text)?;
    put(members, alloc, key, text)
}

/// Adds the text of an account under a key.
fn put_account(
    alloc: Global,
    members: &mut Map<String, Value>,
    key: &str,
    account: &Account,
) -> Result<(), AllocError>
    ensures { OnOk result (members_view members.new.entries ≡
        with_member key.now (account_data account.now) (members_view members.old.entries)) }
{
    let text = format!(in alloc; "{account}")?;
    put(members, alloc, key, Value::String(text))
}

/// Adds the text of a date under its key.
fn put_date(
    alloc: Global,
    members: &mut Map<String, Value>,
    date: SettlementDate,
) -> Result<(), AllocError>
    ensures { OnOk result (members_view members.new.entries ≡
        with_member (codes "date") (date_data date) (members_view members.old.entries)) }
{
    let text = date_text(alloc, date)?;
    put(members, alloc, "date", Value::String(text))
}

/// Adds the code of a kind of run under its key.
fn put_code(
    alloc: Global,
    members: &mut Map<String, Value>,
    kind: RunKind,
) -> Result<(), AllocError>
    ensures { OnOk result (members_view members.new.entries ≡
        with_member (codes "kind") (kind_data kind) (members_view members.old.entries)) }
{
    put_str(alloc, members, "kind", kind.code())
}

/// Adds energy, in MWh, under a key.
fn put_energy(
    alloc: Global,
    members: &mut Map<String, Value>,
    key: &str,
    energy: Ticks,
) -> Result<(), AllocError>
    ensures { OnOk result (members_view members.new.entries ≡
        with_member key.now (energy_data energy) (members_view members.old.entries)) }
{
    let text = number_text(alloc, energy)?;
    put(members, alloc, key, Value::String(text))
}

/// Adds a volume, in MWh, under its key.
fn put_volume(
    alloc: Global,
    members: &mut Map<String, Value>,
    volume: Kwh,
) -> Result<(), AllocError>
    ensures { OnOk result (members_view members.new.entries ≡
        with_member (codes "mwh") (volume_data volume) (members_view members.old.entries)) }
{
    let text = number_text(alloc, volume)?;
    put(members, alloc, "mwh", Value::String(text))
}
