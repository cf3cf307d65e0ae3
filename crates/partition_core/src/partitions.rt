//! A partition, as its callers see it.
ghost use Rattle.std.specs.Prelude.{◌≡◌, ◌<◌, ◌++◌, [], length, option_map, slice_get, IfOk, OnOk, Some, option_to_list};
ghost use Rattle.sql_base.specs.Scripts.{AreLimits, Lies};
ghost use Rattle.sql_base.specs.Tables.{IsTable};
ghost use Rattle.sql_base.specs.Rows.{AreRecords};
ghost use Rattle.partition_state.specs.State.{opening};
ghost use Rattle.partition_core.specs.Kept.{AreMarked, IsReplayed, Serves, Picks, opened_with, opener_in, rows_in, starved};
ghost use Rattle.partition_core.specs.Settling.{ServesSettling};

use crate::contents::Contents;
use dp_messages::{Reply, Request};
use partition_state::Entry;
use sql_base::{Limits, List, Lock, NoMemory, Row, TableDef};
use std::alloc::Global;
use std::marker::Model;
use sync_messages::Arrival;

/// What became of a request.
#[derive(Clone, Copy, Debug, PartialEq, Eq)]
pub enum Served {
    /// Its sync was new: it was served, and one entry tells of it.
    New,
    /// Its sync is the opener's last, and was served.
    Repeat,
    /// Its sync is below the opener's last.
    Old,
    /// Memory was short for its sync, which is the opener's last now and will never be served.
    Starved,
}

/// What there is for an opener that asks for the reply to a sync.
#[derive(Clone, Copy, Debug)]
pub enum Pick<'a> {
    /// The reply to just this sync.
    Reply(&'a Reply),
    /// The sync has not been served yet.
    Pending,
    /// A later sync of the opener has been served.
    Passed,
    /// Memory was short for the opener's last sync, which is this one or a later one.
    Starved,
}

/// A partition with its history.
#[derive(Debug, Drop)]
pub struct Partition {
    contents: Contents,
}

impl Model for Partition {
    ghost use Rattle.partition_core.specs.Kept.{Kept};
    ghost use Rattle.sql_base.specs.contracts.expressions.Expr as expr;
    ghost use Rattle.std.specs.Coded.{codes};

    ghost Value = { Kept };

    ghost coded = { Prim.hlevel (codes, expr.the_row.coded) };

    ghost use Rattle.partition_core.specs.Scaffold.Contents.{kept_of, parts_of};
    ghost use Rattle.partition_core.specs.Rooms.{IsReady};

    ghost view = { λ p. kept_of (parts_of p.contents) };

    ghost invariant = { λ p. IsReady p.contents };
}

impl Partition {
    /// The partition at a place of a table, with its records. Nothing has been served. Openers count from 1 to 8.
    pub fn new(
        alloc: Global,
        table: &TableDef,
        place: u32,
        limits: Limits,
        rows: &[Row],
    ) -> Result<Partition, NoMemory>
        requires table { IsTable table.now }
        requires limits { AreLimits limits }
        requires rows { AreRecords table.now rows.now }
        ensures { IfOk result (λ p. p ≡ opened_with (opening table.now place limits rows.now)) }
    {
        let contents = Contents::new(alloc, table, place, limits, rows)?;
        Ok(Partition { contents })
    }

    /// Serves a request of an opener from 1 to 8, whose sync and ordinal count from 1. Where the sync is above the
    /// opener's last, the request takes one step and one entry is added; for want of memory the sync is marked as
    /// starved, and nothing else changes. Where it isn't above, nothing changes. The Prepare that prepares a live
    /// transaction and the End that ends one need no memory: room for their entries was taken when it became live.
    pub fn serve(&mut self, alloc: Global, opener: u32, sync: u64, request: &Request) -> Served
        requires opener { Lies 1 8 opener }
        ensures served { Serves self.old opener sync request.now result self.new }
        ensures settled { ServesSettling self.old opener sync request.now result }
    {
        match self.contents.arrive(opener, sync) {
            Arrival::New => match self.contents.serve_new(alloc, opener, sync, request) {
                Ok(()) => Served::New,
                Err(_) => {
                    self.contents.seats.starve(opener, sync);
                    Served::Starved
                }
            },
            Arrival::Repeat => Served::Repeat,
            Arrival::Starved => Served::Starved,
            Arrival::Old => Served::Old,
        }
    }

    /// Marks a new sync of an opener from 1 to 8 as starved: it is the opener's last, and will never be served.
    pub fn starve(&mut self, opener: u32, sync: u64)
        requires opener { Lies 1 8 opener }
        requires fresh { (opener_in self.old opener).last < sync }
        ensures { self.new ≡ starved self.old opener sync }
    {
        self.contents.seats.starve(opener, sync);
    }

    /// The kept reply to a sync, from 1, of an opener from 1 to 8.
    pub fn pickup(&self, opener: u32, sync: u64) -> Pick<'_>
        requires opener { Lies 1 8 opener }
        requires sync { 0 < sync }
        ensures { Picks (opener_in self.now opener) sync result }
    {
        let last = self.contents.seats.last(opener);
        if last < sync {
            return Pick::Pending;
        }
        if self.contents.seats.is_starved(opener) {
            return Pick::Starved;
        }
        if sync < last {
            return Pick::Passed;
        }
        match self.contents.seats.kept(opener) {
            Some(place) => Pick::Reply(reply_at(&self.contents.history, *place)),
            None => unreachable!(),
        }
    }

    /// What was served, from the first on. It leads from the opening to what the partition is now.
    pub fn history(&self) -> &[Entry]
        ensures history { result.now ≡ self.now.history }
        ensures replayed { IsReplayed self.now }
        ensures marked { AreMarked self.now }
    {
        self.contents.history.as_slice()
    }

    /// The greatest stamp that ended here by commit, or 0.
    pub fn high(&self) -> u64
        ensures { result ≡ self.now.now.high }
    {
        self.contents.high
    }

    /// The locks, in table order.
    pub fn locks(&self, alloc: Global) -> Result<List<Lock>, NoMemory>
        ensures { IfOk result (λ locks. locks ≡ self.now.now.locks) }
    {
        self.contents.store.locks.locks(alloc)
    }

    /// How many subsets are under way.
    pub fn blocks(&self) -> usize
        ensures { result ≡ length self.now.now.blocks }
    {
        self.contents.blocks.len()
    }

    /// What was served, once the partition is done with.
    pub fn into_history(self) -> List<Entry>
        ensures history { result ≡ self.history }
        ensures replayed { IsReplayed self }
    {
        let Partition { contents } = self;
        List::from_vec(contents.history)
    }

    /// The rows of the cells that are not deleted, in key order.
    pub fn rows(&self, alloc: Global) -> Result<List<Row>, NoMemory>
        ensures { IfOk result (λ rows. rows ≡ rows_in self.now) }
    {
        let mut rows = Vec::new(alloc);
        for cell in self.contents.store.file.cells() {
            append_row(&mut rows, alloc, &cell.now)?;
        }
        Ok(List::from_vec(rows))
    }
}

fn append_row(rows: &mut Vec<Row>, alloc: Global, row: &Option<Row>) -> Result<(), NoMemory>
    ensures { OnOk result (rows.new.items ≡ rows.old.items ++ option_to_list row.now) }
{
    match row {
        Some(row) => {
            rows.push(row.clone()?)?;
            Ok(())
        }
        None => Ok(()),
    }
}

fn reply_at(entries: &[Entry], place: usize) -> &Reply
    requires { place < length entries.now }
    ensures { option_map (λ e. e.reply) (slice_get entries.now place) ≡ Some result.now }
{
    &entries[place].reply
}
