//! What the words of a command line ask for.
ghost use Rattle.std.specs.Prelude.{◌≡◌, ◌≢◌, ℕ, Bool, List, [], ◌∷◌, ◌++◌, count_by, map, string_bytes, nat_eq, get_or, Err, IfOk, OnOk, IfSome, None};
ghost use Rattle.nonstop_sql.specs.Commands.{AreChoices, AsksSteps, IsChoice, IsCommand, IsNoCommand, IsNumeral, IsOneNumber, is_trace, other_words};
ghost use Rattle.nonstop_sql.specs.declared.commands.Command.TheVariants as asked;
ghost use Rattle.nonstop_sql.specs.declared.commands.WordsFault.TheVariants.{NoMemory, Refused};

use sql_base::{List, NoMemory};
use std::alloc::Global;

/// The most choices that a command line may have.
const MOST_CHOICES: usize = 10_000;

/// What the words of a command line ask for.
#[derive(Debug, Drop)]
pub enum Command {
    /// To print the script as it was read.
    Check,
    /// To print what one thread answers that runs the sessions in number order.
    Oracle,
    /// To run the script step by step: each action is the one that a choice picks among those that are enabled.
    /// With a trace collectors see each entry of the record, and their texts follow.
    Steps { choices: List<u32>, trace: bool },
    /// To print the script that is made from a number.
    Make { number: u64 },
    /// To run that script without choices, and print the summary of its record.
    Trial { number: u64 },
}

/// Why words are no command line.
#[derive(Clone, Copy, Debug, PartialEq, Eq)]
pub enum WordsFault {
    Refused,
    NoMemory,
}

impl From<NoMemory> for WordsFault {
    ghost from_gives = { λ _ fault. fault ≡ NoMemory };

    fn from(_error: NoMemory) -> WordsFault {
        WordsFault::NoMemory
    }
}

/// The command of a line of words. The first word is the program's name, and isn't judged.
pub fn command_of(alloc: Global, words: &[String]) -> Result<Command, WordsFault>
    ensures asked { IfOk result (IsCommand words.now) }
    ensures refused { result ≡ Err Refused → IsNoCommand words.now }
{
    match words {
        [_program, name, rest @ ..] => match name.as_str() {
            "check" => alone(Command::Check, rest),
            "oracle" => alone(Command::Oracle, rest),
            "steps" => steps(alloc, rest),
            "make" => match one_number(rest) {
                Some(number) => Ok(Command::Make { number }),
                None => Err(WordsFault::Refused),
            },
            "trial" => match one_number(rest) {
                Some(number) => Ok(Command::Trial { number }),
                None => Err(WordsFault::Refused),
            },
            _ => Err(WordsFault::Refused),
        },
        _ => Err(WordsFault::Refused),
    }
}

/// A command that no words follow.
fn alone(command: Command, words: &[String]) -> Result<Command, WordsFault>
    ensures asked { IfOk result (λ r. (r ≡ command) × (words.now ≡ [])) }
    ensures refused { result ≡ Err Refused → words.now ≢ [] }
{
    if words.is_empty() {
        Ok(command)
    } else {
        Err(WordsFault::Refused)
    }
}

/// Choices, among which `--trace` may stand once, at any place.
fn steps(alloc: Global, words: &[String]) -> Result<Command, WordsFault>
    ensures asked { IfOk result (λ command. (choices : List ℕ) × (trace : Bool) × (command ≡ asked.Steps choices trace) × AsksSteps (map string_bytes words.now) choices trace) }
    ensures refused { result ≡ Err Refused → (choices : List ℕ) (trace : Bool) → AsksSteps (map string_bytes words.now) choices trace → ⊥ }
{
    let trace = match traces(words) {
        0 => false,
        1 => true,
        _ => return Err(WordsFault::Refused),
    };
    match choices_of(alloc, words) {
        Ok(choices) => Ok(Command::Steps { choices, trace }),
        Err(fault) => Err(fault),
    }
}

/// How often `--trace` stands among the words.
fn traces(words: &[String]) -> usize
    ensures { result ≡ count_by is_trace (map string_bytes words.now) }
{
    let mut count = 0;
    for word in words {
        count += is_trace(word) as usize;
    }
    count
}

fn is_trace(word: &String) -> bool
    ensures { result ≡ is_trace (string_bytes word.now) }
{
    word.as_str() == "--trace"
}

/// The choices that the words spell that aren't `--trace`.
fn choices_of(alloc: Global, words: &[String]) -> Result<List<u32>, WordsFault>
    ensures asked { IfOk result (AreChoices (other_words (map string_bytes words.now))) }
    ensures refused { result ≡ Err Refused → (choices : List ℕ) → AreChoices (other_words (map string_bytes words.now)) choices → ⊥ }
{
    let mut choices = List::new(alloc);
    for word in words {
        if is_trace(word) {
            continue;
        }
        if let Err(fault) = push_choice(&mut choices, word) {
            return Err(fault);
        }
    }
    if choices.items().len() > MOST_CHOICES {
        return Err(WordsFault::Refused);
    }
    Ok(choices)
}

/// Adds the choice that the word spells.
fn push_choice(choices: &mut List<u32>, word: &String) -> Result<(), WordsFault>
    ensures pushed { OnOk result ((choice : ℕ) × IsChoice (string_bytes word.now) choice × (choices.new ≡ choices.old ++ choice ∷ [])) }
    ensures refused { result ≡ Err Refused → (choice : ℕ) → IsChoice (string_bytes word.now) choice → ⊥ }
{
    match choice_of(word) {
        Some(choice) => choices.push(choice)?,
        None => return Err(WordsFault::Refused),
    }
    Ok(())
}

/// The number of 32 bits that a word spells in digits alone.
fn choice_of(word: &String) -> Option<u32>
    ensures found { IfSome result (IsChoice (string_bytes word.now)) }
    ensures none { result ≡ None → (choice : ℕ) → IsChoice (string_bytes word.now) choice → ⊥ }
{
    if has_sign(word.as_bytes()) {
        return None;
    }
    match word.as_str().parse::<u32>() {
        Ok(choice) => Some(choice),
        Err(_error) => None,
    }
}

/// The number of 64 bits that one word spells.
fn one_number(words: &[String]) -> Option<u64>
    ensures found { IfSome result (IsOneNumber (map string_bytes words.now)) }
    ensures none { result ≡ None → (number : ℕ) → IsOneNumber (map string_bytes words.now) number → ⊥ }
{
    match words {
        [word] => number_of(word),
        _ => None,
    }
}

/// The number of 64 bits that a word spells in digits alone.
fn number_of(word: &String) -> Option<u64>
    ensures found { IfSome result (IsNumeral 64 (string_bytes word.now)) }
    ensures none { result ≡ None → (number : ℕ) → IsNumeral 64 (string_bytes word.now) number → ⊥ }
{
    if has_sign(word.as_bytes()) {
        return None;
    }
    match word.as_str().parse::<u64>() {
        Ok(number) => Some(number),
        Err(_error) => None,
    }
}

/// Whether the first byte is a plus sign, which `parse` reads and no number has.
fn has_sign(word: &[u8]) -> bool
    ensures { result ≡ nat_eq (get_or word.now 0 0) 43 }
{
    match word.first() {
        Some(byte) => *byte == b'+',
        None => false,
    }
}
