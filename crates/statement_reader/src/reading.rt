//! The script that bytes spell.
ghost use Rattle.std.specs.Prelude.{◌≡◌, ◌≤◌, ℕ, List, length, IfOk, IfErr};
ghost use Rattle.sql_base.specs.Scripts.{IsScript};
ghost use Rattle.sql_base.specs.declared.scripts.Script as script;
ghost use Rattle.statement_printer.specs.Printing.{printed};
ghost use Rattle.statement_draft.specs.Judging.{script_of};
ghost use Rattle.statement_reader.specs.Spells.{Spells, ReadsAs, reason_of, IsRefusal, Judges, RefusesWhole};

use crate::faults::{ReadFault, ScriptFault};
use crate::positions::fault_at;
use sql_base::Script;
use statement_draft::{Checks, Draft, Reason, read};
use statement_printer::print_script;
use statement_words::{SCRIPT_LIMIT, Token, WordFault, WordReason, words};
use std::alloc::Global;

fn reason_of(reason: WordReason) -> Reason
    ensures { result ≡ reason_of reason }
{
    match reason {
        WordReason::BadByte => Reason::BadByte,
        WordReason::OpenText => Reason::OpenText,
        WordReason::NumberTooWide => Reason::NumberTooWide,
        WordReason::TextTooLong => Reason::TextTooLong,
    }
}

fn script_of(draft: Draft) -> Script
    ensures { result ≡ script_of draft }
{
    Script {
        limits: draft.limits,
        tables: draft.tables,
        loads: draft.loads,
        sessions: draft.sessions,
    }
}

/// The script, unless it has too many bytes as it is printed.
fn printable(alloc: Global, script: Script) -> Result<Script, ReadFault>
    ensures same { IfOk result (λ whole. whole ≡ script) }
    ensures fits { IfOk result (λ whole. length (printed whole) ≤ SCRIPT_LIMIT) }
    ensures refused { IfErr result (RefusesWhole script) }
{
    if print_script(alloc, &script)?.len() > SCRIPT_LIMIT {
        return Err(ReadFault::Script(ScriptFault {
            line: 1,
            column: 1,
            reason: Reason::TooLarge,
        }));
    }
    Ok(script)
}

/// The script that the draft of a text's words says, or its first fault.
fn judged(alloc: Global, text: &[u8], draft: Draft) -> Result<Script, ReadFault>
    requires { length text.now ≤ SCRIPT_LIMIT }
    ensures { Judges text.now draft result }
{
    match draft.first {
        Some(fault) => Err(ReadFault::Script(fault_at(text, fault.at as usize, fault.reason))),
        None => printable(alloc, script_of(draft)),
    }
}

/// Reads the script that the bytes spell.
pub fn read_script<C: Checks>(alloc: Global, checks: &C, text: &[u8]) -> Result<Script, ReadFault>
    // What is read is spelled by the bytes, all of them.
    ensures found { IfOk result (Spells text.now) }
    // What is spelled is read, unless memory runs out.
    ensures only { (s : script.Script) → Spells text.now s → ReadsAs result s }
    // Which refusal it is, and where.
    ensures refused { IfErr result (IsRefusal text.now) }
    // What is read meets every rule of scripts.
    ensures rules { IfOk result IsScript }
{
    if text.len() > SCRIPT_LIMIT {
        return Err(ReadFault::Script(fault_at(text, SCRIPT_LIMIT, Reason::TooLarge)));
    }
    match words(alloc, text) {
        Ok(tokens) => {
            let draft = read(alloc, checks, tokens.items(), text.len() as u32)?;
            judged(alloc, text, draft)
        }
        Err(WordFault::At { reason, at }) => {
            Err(ReadFault::Script(fault_at(text, at as usize, reason_of(reason))))
        }
        Err(WordFault::NoMemory) => Err(ReadFault::NoMemory),
    }
}

/// The bytes spell one script at the most.
pub fn one_script()
    ensures { (text : List ℕ) (a b : script.Script) → Spells text a → Spells text b → a ≡ b }
{}
