//! The run of a script, one action after the other.
ghost use Rattle.std.specs.Prelude.{◌≡◌, ◌≤◌, ◌<◌, suc, length, map, vec_len, IfOk, OnOk};
ghost use Rattle.std.specs.List.{AllByRecursion, AllZip};
ghost use Rattle.outside.specs.Wire.{Answers};
ghost use Rattle.sql_base.specs.Scripts.{IsScript};
ghost use Rattle.run_record.specs.Legal.{Legal};
ghost use Rattle.driver_laws.specs.Scheduling.{OfSession, Scheduled};
ghost use Rattle.requester_fs.specs.Beginnings.{AreNew};
ghost use Rattle.driver_laws.specs.Carrying.{AllCarried, Telling};
ghost use Rattle.step_world.specs.Choosing.{actor_seen};
ghost use Rattle.step_world.specs.Runs.{AreSeated, CanAct, GoesOnFrom};
ghost use Rattle.step_world.specs.Tellings.{HasTold};
ghost use Rattle.step_world.specs.declared.choosing.Agent.{Agent};
ghost use Rattle.step_world.specs.Scaffold.Measures.{LeavesLess};
ghost use Rattle.step_world.specs.Scaffold.Worlds.{AreLater, Driving, Setting, scene};

use crate::choosing::Agent;
use crate::ending::record;
use crate::processes::processes_of;
use crate::seats::{Seat, Turn};
use crate::worlds::World;
use commit_journal::Journal;
use outside::{Passage, Wire};
use partition_openings::open;
use requester_fs::Requester;
use run_record::RunRecord;
use sql_base::{List, NoMemory, Script};
use std::alloc::Global;

/// Runs the script by its requesters, one for each session, with a wire for each at least. Each action is that of the
/// enabled session or partition that the next choice names. It waits for nobody, and ends once nobody is enabled.
pub fn drive_with<Q: Requester>(
    alloc: Global,
    script: &Script,
    requesters: Vec<Q>,
    schedule: &[u32],
    wires: Vec<Box<dyn Wire + Send>>,
) -> Result<RunRecord, NoMemory>
    requires script { IsScript script.now }
    requires requesters { AreNew Q.asking script.now requesters.items }
    requires single { AllByRecursion Q.single requesters.items }
    requires wires { length requesters.items ≤ length wires.items }
    ensures legal { IfOk result (Legal script.now) }
    ensures scheduled { IfOk result (Scheduled schedule.now) }
    ensures carried { IfOk result (AllCarried (map {B = Telling} (λ w. record { first = first w; round = round w }) wires.items)) }
    ensures allowed { IfOk result (λ kept. AllZip Q.allows requesters.items kept.logs) }
{
    let mut wires = wires;
    let mut world = World {
        seats: take_seats(alloc, requesters)?,
        processes: processes_of(alloc, open(alloc, script)?)?,
        journal: Journal::new(alloc),
        acts: List::new(alloc),
    };
    start_from(&mut wires, 0, world.seats.len());
    while let Some(agent) = world.next_agent(alloc, schedule)? {
        act(alloc, &mut world, &mut wires, agent)?;
    }
    record(alloc, world)
}

/// The seats of the sessions, with nothing done yet.
fn take_seats<Q: Requester>(alloc: Global, requesters: Vec<Q>) -> Result<Vec<Seat<Q>>, NoMemory>
    requires { length requesters.items ≤ 8 }
    ensures { IfOk result (λ seats. AreSeated requesters.items seats.items) }
{
    let mut seats = Vec::new(alloc);
    let mut number = 0;
    for requester in requesters {
        number += 1;
        seats.push(Seat {
            number,
            requester,
            losses: 0,
            waits: false,
            is_served: false,
        })?;
    }
    Ok(seats)
}

/// Tells the wire of each session from a place on its number.
fn start_from(wires: &mut Vec<Box<dyn Wire + Send>>, at: usize, sessions: usize)
    requires { sessions ≤ vec_len wires.old }
    ensures told { map {B = Telling} (λ w. record { first = first w; round = round w }) wires.new.items ≡ map {B = Telling} (λ w. record { first = first w; round = round w }) wires.old.items }
    ensures many { vec_len wires.new ≡ vec_len wires.old }
{
    if at < sessions {
        start(&mut wires[at], at as u64 + 1);
        start_from(wires, at + 1, sessions);
    }
}

fn start(wire: &mut Box<dyn Wire + Send>, number: u64)
    ensures first { first wire.new ≡ first wire.old }
    ensures round { round wire.new ≡ round wire.old }
{
    wire.start(number);
}

/// What becomes of the next message on a wire.
fn pass(wire: &mut Box<dyn Wire + Send>) -> Passage
    ensures answer { Answers (first wire.old) (round wire.old) result (first wire.new) }
    ensures same_round { round wire.new ≡ round wire.old }
{
    wire.pass()
}

/// What becomes of the next message of the session at a place.
fn pass_at(wires: &mut Vec<Box<dyn Wire + Send>>, at: usize) -> Passage
    requires { at < length wires.old.items }
    ensures { HasTold at result (map {B = Telling} (λ w. record { first = first w; round = round w }) wires.old.items) (map {B = Telling} (λ w. record { first = first w; round = round w }) wires.new.items) }
{
    pass(&mut wires[at])
}

/// Lets a session or a partition act.
fn act<Q: Requester>(
    alloc: Global,
    world: &mut World<Q>,
    wires: &mut Vec<Box<dyn Wire + Send>>,
    agent: Agent,
) -> Result<(), NoMemory>
    requires driving { (setting : Setting) × Driving setting (map {B = Telling} (λ w. record { first = first w; round = round w }) wires.old.items) (scene Q.asking world.old) }
    requires wires { length world.old.seats.items ≤ length wires.old.items }
    requires enabled { CanAct (scene Q.asking world.old) agent }
    requires single { AllByRecursion (λ s. Q.single s.requester) world.old.seats.items }
    ensures goes_on { OnOk result (GoesOnFrom (actor_seen agent)
        (map {B = Telling} (λ w. record { first = first w; round = round w }) wires.old.items) (scene Q.asking world.old)
        (map {B = Telling} (λ w. record { first = first w; round = round w }) wires.new.items) (scene Q.asking world.new)) }
    ensures less { OnOk result (LeavesLess Q.asking Q.left world.old world.new) }
    ensures later { OnOk result (AreLater Q.single Q.allows world.old.seats.items world.new.seats.items) }
    ensures wires { length wires.new.items ≡ length wires.old.items }
{
    match agent {
        Agent::Session(number) => act_for(alloc, world, wires, number - 1),
        Agent::Partition(part) => world.serve(alloc, part),
    }
}

/// Lets the session at a place do what it does next.
fn act_for<Q: Requester>(
    alloc: Global,
    world: &mut World<Q>,
    wires: &mut Vec<Box<dyn Wire + Send>>,
    at: usize,
) -> Result<(), NoMemory>
    requires driving { (setting : Setting) × Driving setting (map {B = Telling} (λ w. record { first = first w; round = round w }) wires.old.items) (scene Q.asking world.old) }
    requires wires { length world.old.seats.items ≤ length wires.old.items }
    requires enabled { CanAct (scene Q.asking world.old) (Agent.Session (suc at)) }
    requires single { AllByRecursion (λ s. Q.single s.requester) world.old.seats.items }
    ensures goes_on { OnOk result (GoesOnFrom (OfSession (suc at))
        (map {B = Telling} (λ w. record { first = first w; round = round w }) wires.old.items) (scene Q.asking world.old)
        (map {B = Telling} (λ w. record { first = first w; round = round w }) wires.new.items) (scene Q.asking world.new)) }
    ensures less { OnOk result (LeavesLess Q.asking Q.left world.old world.new) }
    ensures later { OnOk result (AreLater Q.single Q.allows world.old.seats.items world.new.seats.items) }
    ensures wires { length wires.new.items ≡ length wires.old.items }
{
    match world.seats[at].turn() {
        Turn::Send => {
            let passage = pass_at(wires, at);
            world.send(alloc, at, passage)
        }
        Turn::Take => world.take(at),
        Turn::ServeByHand => world.serve_by_hand(alloc, at),
        Turn::Draw => world.draw(at),
        Turn::Wait | Turn::Rest => unreachable!(),
    }
}
