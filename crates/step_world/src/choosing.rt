//! Who acts next.
ghost use Rattle.std.specs.Prelude.{◌≡◌, ◌++◌, IfOk, OnOk, map, filter, length, option_map};
ghost use Rattle.std.specs.List.{range_with_len};
ghost use Rattle.driver_laws.specs.Scheduling.{OfPartition, OfSession, chosen_of};
ghost use Rattle.step_world.specs.Choosing.{acts_at, actor_seen, has_mail, is_acting, mail_at};
ghost use Rattle.step_world.specs.Scaffold.Seats.{seen, turn_of};
ghost use Rattle.step_world.specs.Scaffold.Worlds.{scene};

use crate::processes::DiskProcess;
use crate::seats::{Seat, Turn};
use crate::worlds::World;
use requester_fs::Requester;
use sql_base::NoMemory;
use std::alloc::Global;

/// Who acts. Sessions count from 1, the partitions of all tables from 0.
#[derive(Clone, Copy, Debug, PartialEq, Eq)]
pub enum Agent {
    Session(usize),
    Partition(usize),
}

impl<Q: Requester> World<Q> {
    /// Who acts next, by the choices; nobody where none is enabled.
    pub fn next_agent(&self, alloc: Global, schedule: &[u32]) -> Result<Option<Agent>, NoMemory>
        ensures { IfOk result (λ next. option_map actor_seen next ≡ chosen_of schedule.now (length self.now.acts)
            (map OfSession (filter (acts_at (scene Q.asking self.now).seats) (range_with_len 1 (length self.now.seats.items)))
            ++ map OfPartition (filter (mail_at self.now.processes.items) (range_with_len 0 (length self.now.processes.items))))) }
    {
        let mut agents = Vec::new(alloc);
        enabled_sessions(&mut agents, self.seats.as_slice())?;
        enabled_partitions(&mut agents, self.processes.as_slice())?;
        Ok(chosen(agents.as_slice(), schedule, self.acts.items().len()))
    }
}

/// The agent with the number of the choice, counted round; a choice that is missing is 0.
fn chosen(agents: &[Agent], schedule: &[u32], turn: usize) -> Option<Agent>
    ensures { option_map actor_seen result ≡ chosen_of schedule.now turn (map actor_seen agents.now) }
{
    if agents.is_empty() {
        return None;
    }
    let choice = schedule.get(turn).copied().unwrap_or(0);
    Some(agents[choice as usize % agents.len()])
}

fn enabled_sessions<Q: Requester>(
    agents: &mut Vec<Agent>,
    seats: &[Seat<Q>],
) -> Result<(), NoMemory>
    ensures { OnOk result (agents.new.items ≡ agents.old.items ++ map Agent.Session (filter (acts_at (map (seen Q.asking) seats.now)) (range_with_len 1 (length seats.now)))) }
{
    for (at, seat) in seats.iter().enumerate() {
        if is_enabled(seat) {
            agents.push(Agent::Session(at + 1))?;
        }
    }
    Ok(())
}

fn is_enabled<Q: Requester>(seat: &Seat<Q>) -> bool
    ensures { result ≡ is_acting (turn_of (seen Q.asking seat.now)) }
{
    !matches!(seat.turn(), Turn::Wait | Turn::Rest)
}

fn enabled_partitions(agents: &mut Vec<Agent>, processes: &[DiskProcess]) -> Result<(), NoMemory>
    ensures { OnOk result (agents.new.items ≡ agents.old.items ++ map Agent.Partition (filter (mail_at processes.now) (range_with_len 0 (length processes.now)))) }
{
    for (part, process) in processes.iter().enumerate() {
        if has_mail(process) {
            agents.push(Agent::Partition(part))?;
        }
    }
    Ok(())
}

fn has_mail(process: &DiskProcess) -> bool
    ensures { result ≡ has_mail process.now }
{
    !process.mail.is_empty()
}
