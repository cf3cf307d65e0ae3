//! What a walk keeps of the candidates that it has handled.
ghost use Rattle.std.specs.Prelude.{◌≡◌, ◌≤◌, ◌<◌, ◌+◌, ◌-◌, ◌^◌, ◌++◌, [], ◌↔◌, IfOk, OnOk, IfSome, IsNone, IsTrue, option_copied, if◌then◌else◌};
ghost use Rattle.quantum_core.specs.Quantum.{cause_at, is_change, lets_on, refusal};
ghost use Rattle.quantum_core.specs.Walk.{given_rows, option_list, room_for};
ghost use Rattle.quantum_runner.specs.Scaffold.Plans.{halted, plan_of, x_on};

use crate::planned::{Planned, Walk};
use quantum_core::{Effect, QuantumReply, Verdict};
use sql_base::{Cause, Fault, Key, List, Lock, Mode, NoMemory, Packed, Prefix, Row, TxnName};
use std::alloc::Global;

/// The candidates handled so far: their rows, the bytes left of the buffer, how many there are and how many of them
/// are changed, and the changes to be made.
#[derive(Debug, Drop)]
pub struct Progress {
    pub rows: List<Packed>,
    pub room: usize,
    pub visits: u32,
    pub changed: u32,
    pub plans: List<Planned>,
}

impl Progress {
    /// No candidate, and all of the buffer.
    pub fn new(alloc: Global, buffer: u32) -> Progress
        ensures rows { result.rows ≡ [] }
        ensures room { result.room ≡ buffer }
        ensures visits { result.visits ≡ 0 }
        ensures changed { result.changed ≡ 0 }
        ensures plans { result.plans ≡ [] }
    {
        Progress {
            rows: List::new(alloc),
            room: buffer as usize,
            visits: 0,
            changed: 0,
            plans: List::new(alloc),
        }
    }

    /// One more candidate, whose row fits. For want of memory what is kept is of no use.
    pub fn add(
        &mut self,
        alloc: Global,
        key: &Key,
        holder: TxnName,
        verdict: Verdict,
    ) -> Result<(), NoMemory>
        requires fits { room_for verdict ≤ self.old.room }
        requires visits { self.old.visits < 2 ^ 32 - 1 }
        requires changed { self.old.changed ≤ self.old.visits }
        ensures rows { OnOk result (self.new.rows ≡ self.old.rows ++ given_rows verdict) }
        ensures room { OnOk result (self.new.room ≡ self.old.room - room_for verdict) }
        ensures visits { OnOk result (self.new.visits ≡ self.old.visits + 1) }
        ensures changed { OnOk result (self.new.changed ≡ self.old.changed + (if is_change verdict then 1 else 0)) }
        ensures plans { OnOk result (self.new.plans ≡ self.old.plans ++ option_list (plan_of holder key.now verdict)) }
    {
        self.visits += 1;
        self.room -= room_of(&verdict);
        if is_change(&verdict) {
            self.changed += 1;
        }
        note(alloc, &mut self.rows, &mut self.plans, key, holder, verdict)
    }

    /// The walk stops with a candidate left: a redrive from the last one handled, or else the refusal of this one.
    pub fn stop(
        self,
        last: Option<&Key>,
        cause: Cause,
        key: &Key,
        verdict: Verdict,
    ) -> Result<Walk, NoMemory>
        ensures reply { IfOk result (λ walk. walk.reply ≡ halted (option_copied last.entry) cause (record { key = key.now; verdict = verdict }) self.rows self.changed) }
        ensures plans { IfOk result (λ walk. walk.plans ≡ self.plans) }
    {
        let Progress {
            rows,
            room: _,
            visits: _,
            changed,
            plans,
        } = self;
        Ok(Walk {
            reply: reply_of(last, cause, key, verdict, rows, changed)?,
            plans,
        })
    }

    /// The walk has come to the end of the subset.
    pub fn end(self) -> Walk
        ensures reply { result.reply ≡ QuantumReply.Ended self.rows self.changed }
        ensures plans { result.plans ≡ self.plans }
    {
        let Progress {
            rows,
            room: _,
            visits: _,
            changed,
            plans,
        } = self;
        Walk {
            reply: QuantumReply::Ended { rows, changed },
            plans,
        }
    }
}

fn reply_of(
    last: Option<&Key>,
    cause: Cause,
    key: &Key,
    verdict: Verdict,
    rows: List<Packed>,
    changed: u32,
) -> Result<QuantumReply, NoMemory>
    ensures { IfOk result (λ reply. reply ≡ halted (option_copied last.entry) cause (record { key = key.now; verdict = verdict }) rows changed) }
{
    match last {
        Some(handled) => Ok(QuantumReply::Redrive {
            last: handled.clone()?,
            cause,
            rows,
            changed,
        }),
        None => refuse(key, verdict),
    }
}

fn refuse(key: &Key, verdict: Verdict) -> Result<QuantumReply, NoMemory>
    ensures { IfOk result (λ reply. reply ≡ refusal key.now verdict) }
{
    let fault = match verdict {
        Verdict::Blocked(lock) => return Ok(QuantumReply::Locked(lock)),
        Verdict::Faulty(fault) => fault,
        Verdict::PassedOver => Fault::Overflow,
        Verdict::Selected(_effect) => Fault::Overflow,
    };
    Ok(QuantumReply::Failed {
        key: key.clone()?,
        fault,
    })
}

/// Why a walk stops before a candidate with this verdict, if it does.
pub fn cause_to_stop(verdict: &Verdict, room: usize) -> Option<Cause>
    ensures goes_on { IsNone result ↔ (IsTrue (lets_on verdict.now) × (room_for verdict.now ≤ room)) }
    ensures why { IfSome result (λ cause. cause ≡ cause_at verdict.now) }
{
    match verdict {
        Verdict::Blocked(_) => Some(Cause::Lock),
        Verdict::Faulty(_) => Some(Cause::Fault),
        Verdict::PassedOver => None,
        Verdict::Selected(Effect::Gives(row)) => {
            if row.bytes().len() + 2 <= room {
                None
            } else {
                Some(Cause::Buffer)
            }
        }
        Verdict::Selected(Effect::Becomes(_)) => None,
        Verdict::Selected(Effect::Goes) => None,
    }
}

/// The room that the row of a verdict takes in the buffer.
fn room_of(verdict: &Verdict) -> usize
    ensures { result ≡ room_for verdict.now }
{
    match verdict {
        Verdict::Selected(Effect::Gives(row)) => row.bytes().len() + 2,
        _ => 0,
    }
}

fn is_change(verdict: &Verdict) -> bool
    ensures { result ≡ is_change verdict.now }
{
    match verdict {
        Verdict::Blocked(_) => false,
        Verdict::Faulty(_) => false,
        Verdict::PassedOver => false,
        Verdict::Selected(Effect::Gives(_)) => false,
        Verdict::Selected(Effect::Becomes(_)) => true,
        Verdict::Selected(Effect::Goes) => true,
    }
}

fn note(
    alloc: Global,
    rows: &mut List<Packed>,
    plans: &mut List<Planned>,
    key: &Key,
    holder: TxnName,
    verdict: Verdict,
) -> Result<(), NoMemory>
    ensures rows { OnOk result (rows.new ≡ rows.old ++ given_rows verdict) }
    ensures plans { OnOk result (plans.new ≡ plans.old ++ option_list (plan_of holder key.now verdict)) }
{
    match verdict {
        Verdict::Blocked(_lock) => Ok(()),
        Verdict::Faulty(_fault) => Ok(()),
        Verdict::PassedOver => Ok(()),
        Verdict::Selected(effect) => note_effect(alloc, rows, plans, key, holder, effect),
    }
}

fn note_effect(
    alloc: Global,
    rows: &mut List<Packed>,
    plans: &mut List<Planned>,
    key: &Key,
    holder: TxnName,
    effect: Effect,
) -> Result<(), NoMemory>
    ensures rows { OnOk result (rows.new ≡ rows.old ++ given_rows (Verdict.Selected effect)) }
    ensures plans { OnOk result (plans.new ≡ plans.old ++ option_list (plan_of holder key.now (Verdict.Selected effect))) }
{
    match effect {
        Effect::Gives(row) => rows.push(row),
        Effect::Becomes(row) => plans.push(plan(alloc, key, holder, Some(row))?),
        Effect::Goes => plans.push(plan(alloc, key, holder, None)?),
    }
}

fn plan(alloc: Global, key: &Key, holder: TxnName, now: Option<Row>) -> Result<Planned, NoMemory>
    ensures lock { IfOk result (λ plan. plan.lock ≡ x_on holder key.now) }
    ensures now { IfOk result (λ plan. plan.now ≡ now) }
{
    Ok(Planned {
        lock: Lock {
            holder,
            prefix: Prefix::from_vec(key.bytes().to_vec(alloc)?),
            mode: Mode::X,
        },
        now,
    })
}
