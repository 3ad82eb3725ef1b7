//! The rounds of a row, in each of which other values have its names.

use crate::fault::CaseFault;
use crate::marked::{behind, number_of};
use crate::pieces::Pieces;
use std::alloc::Global;

#[derive(Drop)]
struct Choice {
    name: String,
    values: Vec<String>,
}

/// The rounds of a row: one for each choice of a value for each of its names.
#[derive(Drop)]
pub struct Rounds {
    choices: Vec<Choice>,
}

/// Adds the values that a word says: itself, or by `A..B` the numbers from `A` to below `B`.
fn add_values(alloc: Global, values: &mut Vec<String>, word: &str) -> Result<(), CaseFault> {
    let Some((from, to)) = word.split_once("..") else {
        values.push(String::from_str(alloc, word)?)?;
        return Ok(());
    };
    for number in number_of(from)?..number_of(to)? {
        values.push(format!(in alloc; "{number}")?)?;
    }
    Ok(())
}

/// The choice of a line `* NAME VALUE ..`, of which this stands behind the mark.
fn choice_of(alloc: Global, line: &str) -> Result<Choice, CaseFault> {
    let (name, words) = line.split_once(' ').unwrap_or((line, ""));
    let name = String::from_str(alloc, name)?;
    let mut values = Vec::new(alloc);
    for word in words.split_whitespace() {
        add_values(alloc, &mut values, word)?;
    }
    Ok(Choice { name, values })
}

/// Adds a choice. Where the last one has the same name, it gets the further values.
fn add_choice(choices: &mut Vec<Choice>, choice: Choice) -> Result<(), CaseFault> {
    if let Some(last) = choices.last_mut() {
        if last.name.as_str() == choice.name.as_str() {
            for value in choice.values {
                last.values.push(value)?;
            }
            return Ok(());
        }
    }
    choices.push(choice)?;
    Ok(())
}

impl Rounds {
    /// The rounds of a row, by its lines `* NAME VALUE ..`. Lines of one name that stand one behind
    /// another are one choice.
    pub fn of(alloc: Global, row: &str) -> Result<Rounds, CaseFault> {
        let mut choices = Vec::new(alloc);
        for line in row.split('\n') {
            if let Some(rest) = behind(line, "*") {
                add_choice(&mut choices, choice_of(alloc, rest)?)?;
            }
        }
        Ok(Rounds { choices })
    }

    /// How many there are.
    pub fn count(&self) -> usize {
        let mut count: usize = 1;
        for choice in self.choices.iter() {
            count = count.saturating_mul(choice.values.len());
        }
        count
    }

    /// Adds the values of a round as pieces, each what its text says. The first round is 0. A name
    /// without a value is malformed.
    pub fn add_to(
        &self,
        alloc: Global,
        pieces: &mut Pieces,
        round: usize,
    ) -> Result<(), CaseFault> {
        let mut left = round;
        for choice in self.choices.iter() {
            let count = choice.values.len();
            let at = left.checked_rem(count).unwrap_or(0);
            left = left.checked_div(count).unwrap_or(0);
            let Some(value) = choice.values.get(at) else {
                return Err(CaseFault::Malformed);
            };
            let bytes = pieces.bytes_of(alloc, value.as_str())?;
            pieces.add(alloc, choice.name.as_str(), bytes)?;
        }
        Ok(())
    }
}
