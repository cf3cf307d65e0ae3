//! Reports: each collector sees each entry of a record, and says its text.
ghost use Rattle.std.specs.Prelude.{◌≡◌, ◌≤◌, ◌+◌, ◌<◌, ◌^◌, ◌++◌, length, map, IfOk, OnOk, OnErr};
ghost use Rattle.std.specs.List.{AllByRecursion, AllZip};
ghost use Rattle.outside.specs.Collecting.{Collecting, behind, said};
ghost use Rattle.run_record.specs.Seen.{seen, seen_from, seen_parts};
ghost use Rattle.trace_report.specs.Reports.{CanBeSeen, HasFewRows, SawFront, behind_all, texts};

use crate::entries::seen_of;
use outside::{Collector, NoMemory, Seen};
use partition_state::Entry;
use run_record::RunRecord;
use sql_base::List;
use std::alloc::Global;

/// Shows each entry of the record to each collector, partition by partition in the order of the histories, and gives
/// the texts of the collectors, in the order of the list. After `NoMemory` each has seen a front of the entries.
pub fn report(
    alloc: Global,
    kept: &RunRecord,
    collectors: &mut Vec<Box<dyn Collector>>,
) -> Result<Vec<u8>, NoMemory>
    requires { CanBeSeen kept.now }
    ensures shown { OnOk result (map collecting collectors.new.items
        ≡ map (behind_all (seen kept.now)) (map collecting collectors.old.items)) }
    ensures said { IfOk result (λ said. said.items ≡ texts (map collecting collectors.new.items)) }
    ensures cut { OnErr result (AllZip (SawFront (seen kept.now))
        (map collecting collectors.old.items) (map collecting collectors.new.items)) }
{
    show(kept, collectors)?;
    say(alloc, collectors)
}

/// Shows each entry of the record to each collector.
fn show(kept: &RunRecord, collectors: &mut Vec<Box<dyn Collector>>) -> Result<(), NoMemory>
    requires { CanBeSeen kept.now }
    ensures shown { OnOk result (map collecting collectors.new.items
        ≡ map (behind_all (seen kept.now)) (map collecting collectors.old.items)) }
    ensures cut { OnErr result (AllZip (SawFront (seen kept.now))
        (map collecting collectors.old.items) (map collecting collectors.new.items)) }
{
    for at in 0..collectors.len() {
        show_all(&mut collectors[at], kept.histories.items())?;
    }
    Ok(())
}

/// Shows each entry of the histories to a collector.
fn show_all(collector: &mut Box<dyn Collector>, histories: &[List<Entry>]) -> Result<(), NoMemory>
    requires parts { length histories.now < 2 ^ 32 }
    requires rows { AllByRecursion (λ history. AllByRecursion HasFewRows history) histories.now }
    ensures shown { OnOk result (collecting collector.new ≡ behind_all (seen_parts 0 histories.now) (collecting collector.old)) }
    ensures cut { OnErr result (SawFront (seen_parts 0 histories.now) (collecting collector.old) (collecting collector.new)) }
{
    let mut part = 0;
    for history in histories {
        show_history(collector, part, history.items())?;
        part += 1;
    }
    Ok(())
}

/// Shows each entry of the history of a partition to a collector.
fn show_history(
    collector: &mut Box<dyn Collector>,
    part: u32,
    history: &[Entry],
) -> Result<(), NoMemory>
    requires { AllByRecursion HasFewRows history.now }
    ensures shown { OnOk result (collecting collector.new ≡ behind_all (seen_from part 0 history.now) (collecting collector.old)) }
    ensures cut { OnErr result (SawFront (seen_from part 0 history.now) (collecting collector.old) (collecting collector.new)) }
{
    let mut place = 0;
    for entry in history {
        see(collector, &seen_of(part, place, entry))?;
        place += 1;
    }
    Ok(())
}

fn see(collector: &mut Box<dyn Collector>, entry: &Seen) -> Result<(), NoMemory>
    ensures ok { OnOk result (collecting collector.new ≡ behind entry.now (collecting collector.old)) }
    ensures err { OnErr result (collecting collector.new ≡ collecting collector.old) }
{
    collector.see(entry)
}

/// What the collectors say, one behind the other.
fn say(alloc: Global, collectors: &[Box<dyn Collector>]) -> Result<Vec<u8>, NoMemory>
    ensures { IfOk result (λ said. said.items ≡ texts (map collecting collectors.now)) }
{
    let mut out = Vec::new(alloc);
    for collector in collectors {
        put_text(collector, &mut out)?;
    }
    Ok(out)
}

fn put_text(collector: &Box<dyn Collector>, out: &mut Vec<u8>) -> Result<(), NoMemory>
    ensures { OnOk result (out.new.items ≡ out.old.items ++ said (collecting collector.now)) }
{
    collector.text(out)
}
