ghost use Rattle.std.specs.Prelude.{◌≡◌, ◌++◌, codes, string_bytes, IfOk, OnOk, OnErr};
ghost use Rattle.solution_verifier.specs.FaultText.{with_number, with_numbers, resource_text, fault_text};

use crate::fault::Fault;
use disp_model::{Memory, Problem};
use serde_json::Value;
use std::alloc::Global;

/// Words and a number.
fn with_number(alloc: Global, words: &str, number: u64) -> Result<String, Memory>
    ensures { IfOk result (λ text. string_bytes text ≡ with_number words.now number) }
{
    Ok(format!(in alloc; "{words} {number}")?)
}

/// Words and two numbers.
fn with_numbers(alloc: Global, words: &str, first: u64, second: u128) -> Result<String, Memory>
    ensures { IfOk result (λ text. string_bytes text ≡ with_numbers words.now first second) }
{
    Ok(format!(in alloc; "{words} {first} {second}")?)
}

/// The name of a resource as JSON.
fn resource_text(alloc: Global, problem: &Problem, resource: u32) -> Result<String, Memory>
    ensures { IfOk result (λ text. string_bytes text ≡ resource_text problem.now resource) }
{
    let name = match problem.names.as_slice().get(resource as usize) {
        Some(name) => name.as_str(),
        None => "",
    };
    let value = Value::try_from_str(alloc, name)?;
    Ok(value.to_string(alloc)?)
}

/// The text of a fault that one event holds a resource against another.
fn held_text(
    alloc: Global,
    problem: &Problem,
    holder: u64,
    event: u64,
    resource: u32,
) -> Result<String, Memory>
    ensures { IfOk result (λ text. string_bytes text ≡ with_numbers (codes "Held") holder event
        ++ codes " " ++ resource_text problem.now resource) }
{
    let events = with_numbers(alloc, "Held", holder, u128::from(event))?;
    let name = resource_text(alloc, problem, resource)?;
    Ok(format!(in alloc; "{events} {name}")?)
}

/// The text of a fault.
fn fault_text(alloc: Global, problem: &Problem, fault: &Fault) -> Result<String, Memory>
    ensures { IfOk result (λ text. string_bytes text ≡ fault_text problem.now fault.now) }
{
    match *fault {
        Fault::UnknownTrain(event) => with_number(alloc, "UnknownTrain", event),
        Fault::UnknownOperation(event) => with_number(alloc, "UnknownOperation", event),
        Fault::TimeBackwards(event) => with_number(alloc, "TimeBackwards", event),
        Fault::NotEntry(event) => with_number(alloc, "NotEntry", event),
        Fault::NotSuccessor(event) => with_number(alloc, "NotSuccessor", event),
        Fault::TooEarly(event) => with_number(alloc, "TooEarly", event),
        Fault::TooLate(event) => with_number(alloc, "TooLate", event),
        Fault::TooShort(event) => with_number(alloc, "TooShort", event),
        Fault::Held(holder, event, resource) => held_text(alloc, problem, holder, event, resource),
        Fault::Incomplete(train) => with_number(alloc, "Incomplete", u64::from(train)),
        Fault::FixingUnmet(fixing) => with_number(alloc, "FixingUnmet", fixing),
        Fault::WrongCost(claimed, actual) => with_numbers(alloc, "WrongCost", claimed, actual),
    }
}

impl Fault {
    /// Adds the fault's text at the end: the name of its variant, its numbers, and a resource by
    /// its name in the problem as JSON, with one space between, as `Held 0 1 "r"`.
    ///
    /// # Errors
    ///
    /// Where memory runs out the text is as before.
    pub fn write(&self, problem: &Problem, text: &mut String) -> Result<(), Memory>
        ensures ok { OnOk result
            (string_bytes text.new ≡ string_bytes text.old ++ fault_text problem.now self.now) }
        ensures err { OnErr result (string_bytes text.new ≡ string_bytes text.old) }
    {
        let alloc = *text.allocator();
        let piece = fault_text(alloc, problem, self)?;
        text.push_str(piece.as_str())?;
        Ok(())
    }
}
