//! What the solver found, as JSON.

ghost use Rattle.std.specs.Prelude.{◌≡◌, IfOk};
ghost use Rattle.serde_json.specs.Data.{string};
ghost use Rattle.serde_json.specs.View.{view};
ghost use Rattle.json_fields.specs.Written.{HasItems};
ghost use Rattle.cards.specs.Hands.{IsDeal};
ghost use Rattle.cards.specs.HandText.{deal_text};
ghost use Rattle.solver_results.specs.declared.play_answer.PlayAnswer.TheVariants.{NotAPlay};
ghost use Rattle.solver_results.specs.PlayAnswer.{answer_for_play};
ghost use Rattle.session_commands.specs.declared.command.Command.TheVariants as command;
ghost use Rattle.command_writing.specs.NumberData.{numbers_data};
ghost use Rattle.command_writing.specs.ResultData.{written_play};
ghost use Rattle.command_writing.specs.FoundData.{written_strains, written_tricks, written_answer, contract_data};
ghost use Rattle.command_writing.specs.CommandData.{solved_data, analysed_data};
ghost use Rattle.command_writing.specs.Values.{IsContract, IsWritablePlay};
ghost use Rattle.command_writing.specs.Writable.{IsWritable};

use crate::play::cards_value;
use crate::result::contract_writer;
use cards::Deal;
use json_fields::{ArrayWriter, ObjectWriter, string_value};
use movement::Cell;
use scoring::Contract;
use serde_json::Value;
use solver_results::{DdTable, PlayAnswer, PlayCosts};
use std::alloc::{AllocError, Global};
use table_terms::{Place, Strain};

/// A board's table, with its deal.
pub(crate) fn solved_value(alloc: Global, board: u8, table: &DdTable) -> Result<Value, AllocError>
    ensures writable { IsWritable (command.Solved board table.now) }
    ensures value { IfOk result (λ value. view value ≡ solved_data board table.now) }
{
    ObjectWriter::new(alloc)
        .number("board", board)
        .member("cmd", Value::try_from_str(alloc, "Solved"))
        .member("deal", table_deal(alloc, table))
        .member("tricks", tricks_value(alloc, table))
        .object()
}

fn table_deal(alloc: Global, table: &DdTable) -> Result<Value, AllocError>
    ensures writable { IsDeal table.now }
    ensures value { IfOk result (λ value. view value ≡ string (deal_text table.now)) }
{
    deal_value(alloc, table.deal())
}

fn deal_value(alloc: Global, deal: Deal) -> Result<Value, AllocError>
    ensures writable { IsDeal deal }
    ensures value { IfOk result (λ value. view value ≡ string (deal_text deal)) }
{
    string_value(deal.to_string(alloc))
}

fn tricks_value(alloc: Global, table: &DdTable) -> Result<Value, AllocError>
    ensures { IfOk result (λ value. view value ≡ written_tricks table.now) }
{
    ObjectWriter::new(alloc)
        .member("E", declarer_value(alloc, table, Place::East))
        .member("N", declarer_value(alloc, table, Place::North))
        .member("S", declarer_value(alloc, table, Place::South))
        .member("W", declarer_value(alloc, table, Place::West))
        .object()
}

fn declarer_value(alloc: Global, table: &DdTable, declarer: Place) -> Result<Value, AllocError>
    ensures { IfOk result (λ value. view value ≡ numbers_data (written_strains table.now declarer)) }
{
    let numbers = [
        table.tricks(Strain::Spades, declarer),
        table.tricks(Strain::Hearts, declarer),
        table.tricks(Strain::Diamonds, declarer),
        table.tricks(Strain::Clubs, declarer),
        table.tricks(Strain::NoTrump, declarer),
    ];
    numbers_value(alloc, &numbers)
}

/// What a play cost, with its deal, its contract and its cards.
pub(crate) fn analysed_value(
    alloc: Global,
    cell: Cell,
    costs: &PlayCosts,
) -> Result<Value, AllocError>
    ensures writable { IsWritable (command.Analysed cell costs.now) }
    ensures value { IfOk result (λ value. view value ≡ analysed_data cell costs.now) }
{
    ObjectWriter::new(alloc)
        .number("board", cell.board)
        .member("cmd", Value::try_from_str(alloc, "Analysed"))
        .member("contract", played_contract(alloc, costs))
        .member("costs", found_costs(alloc, costs))
        .member("deal", played_deal(alloc, costs))
        .member("play", played_cards(alloc, costs))
        .number("table", cell.table)
        .object()
}

fn played_deal(alloc: Global, costs: &PlayCosts) -> Result<Value, AllocError>
    ensures writable { IsDeal costs.now.deal }
    ensures value { IfOk result (λ value. view value ≡ string (deal_text costs.now.deal)) }
{
    deal_value(alloc, costs.deal())
}

fn played_contract(alloc: Global, costs: &PlayCosts) -> Result<Value, AllocError>
    ensures writable { IsContract costs.now.contract }
    ensures value { IfOk result (λ value. view value ≡ contract_data costs.now.contract) }
{
    contract_value(alloc, costs.contract())
}

fn contract_value(alloc: Global, contract: Contract) -> Result<Value, AllocError>
    ensures writable { IsContract contract }
    ensures value { IfOk result (λ value. view value ≡ contract_data contract) }
{
    contract_writer(alloc, contract).object()
}

fn played_cards(alloc: Global, costs: &PlayCosts) -> Result<Value, AllocError>
    ensures writable { IsWritablePlay costs.now.play }
    ensures value { IfOk result (λ value. view value ≡ written_play costs.now.play) }
{
    cards_value(alloc, costs.play())
}

fn found_costs(alloc: Global, costs: &PlayCosts) -> Result<Value, AllocError>
    ensures { IfOk result (λ value. view value ≡ written_answer (answer_for_play costs.now)) }
{
    answer_value(alloc, &costs.answer())
}

fn answer_value(alloc: Global, answer: &PlayAnswer) -> Result<Value, AllocError>
    ensures { IfOk result (λ value. view value ≡ written_answer answer.now) }
{
    match answer {
        PlayAnswer::Costs(costs) => numbers_value(alloc, costs.as_slice()),
        PlayAnswer::NotAPlay(number) => not_a_play(alloc, *number),
    }
}

fn not_a_play(alloc: Global, number: usize) -> Result<Value, AllocError>
    ensures { IfOk result (λ value. view value ≡ written_answer (NotAPlay number)) }
{
    ObjectWriter::new(alloc)
        .member("not_a_play", Ok(Value::from(number)))
        .object()
}

fn numbers_value(alloc: Global, numbers: &[u8]) -> Result<Value, AllocError>
    ensures { IfOk result (λ value. view value ≡ numbers_data numbers.now) }
{
    let mut items = ArrayWriter::new(alloc);
    for number in numbers {
        items = items.item(Ok(Value::from(*number)));
    }
    items.array()
}
