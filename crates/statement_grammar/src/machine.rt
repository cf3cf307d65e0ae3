//! The machine: one word after the other, over a stack of what must come.
ghost use Rattle.std.specs.Prelude.{◌≡◌, ◌++◌, [], IfOk, OnOk, option_map};
ghost use Rattle.statement_grammar.specs.Machine.{advance, finish, shape_of};

use crate::following::SCRIPT;
use crate::grammar::{behind, may_be_empty};
use crate::stack::Stack;
use crate::symbols::{End, Symbol};
use crate::words_at::{is_fixed, is_name, is_number};
use sql_base::{List, NoMemory};
use statement_words::{Token, Word};
use std::alloc::Global;

/// Whether words are those of a script, as far as its grammar goes.
#[derive(Clone, Copy, Debug)]
pub enum Shape {
    Whole,
    /// They begin a script, and end before its end.
    Short,
    /// They begin no script from the word on that begins at this byte.
    StopsAt(u32),
}

/// Puts symbols on the stack, the first of them on top.
pub fn put(stack: &mut Stack<Symbol>, symbols: &[Symbol]) -> Result<(), NoMemory>
    ensures { OnOk result (stack.new ≡ symbols.now ++ stack.old) }
{
    for symbol in symbols.iter().rev() {
        stack.push(*symbol)?;
    }
    Ok(())
}

/// Takes a word: what ends before it is added to `ends`. None if the word is unexpected.
#[tactic(auto, unfolding(crate::specs::Machine::advance))]
pub fn advance(
    stack: &mut Stack<Symbol>,
    ends: &mut List<End>,
    word: &Word,
) -> Result<Option<Symbol>, NoMemory>
    ensures { IfOk result (λ taken. advance ends.old stack.old word.now ≡ record { ends = ends.new; taken = option_map (λ role. record { role = role; rest = stack.new }) taken }) }
{
    while let Some(symbol) = stack.pop() {
        match symbol {
            Symbol::Fixed(fixed) => {
                if is_fixed(word, fixed) {
                    return Ok(Some(symbol));
                }
                return Ok(None);
            }
            Symbol::Name(_) => {
                if is_name(word) {
                    return Ok(Some(symbol));
                }
                return Ok(None);
            }
            Symbol::Number(_) => {
                if is_number(word) {
                    return Ok(Some(symbol));
                }
                return Ok(None);
            }
            Symbol::Part(part) => {
                if let Some(more) = behind(part, word) {
                    put(stack, more)?;
                    return Ok(Some(symbol));
                }
                if !may_be_empty(part) {
                    return Ok(None);
                }
            }
            Symbol::Ended(end) => ends.push(end)?,
        }
    }
    Ok(None)
}

/// Adds to `ends` what has ended where no word follows, and tells whether nothing more must come.
#[tactic(auto, unfolding(crate::specs::Machine::finish))]
pub fn finish(stack: &mut Stack<Symbol>, ends: &mut List<End>) -> Result<bool, NoMemory>
    ensures { IfOk result (λ whole. finish ends.old stack.old ≡ record { ends = ends.new; whole = whole }) }
{
    while let Some(symbol) = stack.pop() {
        match symbol {
            Symbol::Fixed(_) => return Ok(false),
            Symbol::Name(_) => return Ok(false),
            Symbol::Number(_) => return Ok(false),
            Symbol::Part(part) => {
                if !may_be_empty(part) {
                    return Ok(false);
                }
            }
            Symbol::Ended(end) => ends.push(end)?,
        }
    }
    Ok(true)
}

/// The shape of the words.
#[tactic(auto, unfolding(crate::specs::Machine::shape_from))]
pub fn read_shape(alloc: Global, tokens: &[Token]) -> Result<Shape, NoMemory>
    ensures { IfOk result (λ shape. shape ≡ shape_of tokens.now) }
{
    let mut stack = Stack::new(alloc);
    put(&mut stack, &SCRIPT)?;
    for token in tokens {
        let mut ends = List::new(alloc);
        let taken = advance(&mut stack, &mut ends, &token.word)?;
        if taken.is_none() {
            return Ok(Shape::StopsAt(token.first));
        }
    }
    let mut ends = List::new(alloc);
    if finish(&mut stack, &mut ends)? {
        return Ok(Shape::Whole);
    }
    Ok(Shape::Short)
}
