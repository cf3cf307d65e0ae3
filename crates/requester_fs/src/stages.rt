//! What an attempt does, and where a session stands.
ghost use Rattle.std.specs.Prelude.{◌≡◌, ℕ, List, Some, IfOk};
ghost use Rattle.sql_base.specs.declared.statements.Statement.{Statement};
ghost use Rattle.dp_messages.specs.Spelling.{IsAsk};
ghost use Rattle.session_grammar.specs.Plans.{Asker};
ghost use Rattle.session_laws.specs.Scaffold.Machine.{At, Place, Trying, closes_at, prepares_at};
ghost use Rattle.requester_fs.specs.Scaffold.Stages.{IsStage, MayBeStage, doing_of, placed};

use dp_messages::{Ask, Request};
use sql_base::{List, NoMemory};
use std::alloc::Global;

/// A request that a statement asks, while it is open: as a subset's or not, and as often again after Locked.
#[derive(Debug, Drop)]
pub(crate) struct Turn {
    /// The place of the statement in its transaction.
    pub statement: usize,
    /// The place of the request among those of the statement.
    pub sent: usize,
    pub subset: bool,
    pub part: u32,
    pub request: Request,
    pub repeats: u32,
}

/// What an attempt does, with the request that is open.
#[derive(Debug, Drop)]
pub(crate) enum Stage {
    /// It asks what a statement asks.
    Asks(Turn),
    /// It prepares the partition, then these; so far this is the greatest floor.
    Prepares {
        part: u32,
        request: Request,
        parts: List<u32>,
        floor: u64,
    },
    /// It draws its stamp above the floor.
    Stamps {
        floor: u64,
    },
    /// It ends in the partition, then in these; by a lock or otherwise.
    Closes {
        part: u32,
        request: Request,
        parts: List<u32>,
        locked: bool,
    },
}

/// Where a session stands: in this transaction, in the attempt with this ordinal, behind which so many may follow.
#[derive(Debug, Drop)]
pub(crate) struct Stand {
    pub work: usize,
    pub ordinal: u32,
    pub restarts: u32,
    /// The partitions that the attempt has sent something to, the newest first.
    pub seen: List<u32>,
    pub stage: Stage,
}

impl Stand {
    /// In the same attempt, at this stage.
    pub(crate) fn at(&self, seen: List<u32>, stage: Stage) -> Option<Stand>
        ensures { result ≡ Some (record { work = self.now.work; ordinal = self.now.ordinal; restarts = self.now.restarts; seen = seen; stage = stage }) }
    {
        Some(Stand {
            work: self.work,
            ordinal: self.ordinal,
            restarts: self.restarts,
            seen,
            stage,
        })
    }
}

/// The next Prepare, or the draw where none is left.
pub(crate) fn prepares(
    alloc: Global,
    ordinal: u32,
    parts: &[u32],
    floor: u64,
) -> Result<Stage, NoMemory>
    ensures stage { IfOk result (λ stage. (statements : List Statement) → IsStage ordinal statements stage) }
    ensures placed { IfOk result (λ stage. (r : Asker) (t : Trying) (seen : List ℕ) (statements : List Statement) → At t seen (doing_of r statements stage) ≡ prepares_at t seen parts.now floor) }
{
    match parts.split_first() {
        Some((part, rest)) => Ok(Stage::Prepares {
            part: *part,
            request: Request {
                ordinal,
                ask: Ask::Prepare,
            },
            parts: parts_copy(alloc, rest)?,
            floor,
        }),
        None => Ok(Stage::Stamps { floor }),
    }
}

/// The next End, or none where none is left.
pub(crate) fn closes(
    alloc: Global,
    ordinal: u32,
    ask: Ask,
    parts: &[u32],
    locked: bool,
) -> Result<Option<Stage>, NoMemory>
    requires { IsAsk ask }
    ensures stage { IfOk result (λ stage. (statements : List Statement) → MayBeStage ordinal statements stage) }
    ensures placed { IfOk result (λ stage. (r : Asker) (t : Trying) (seen : List ℕ) (statements : List Statement) (behind : Place) → placed r t seen statements behind stage ≡ closes_at t seen ask parts.now locked behind) }
{
    match parts.split_first() {
        Some((part, rest)) => Ok(Some(Stage::Closes {
            part: *part,
            request: Request { ordinal, ask },
            parts: parts_copy(alloc, rest)?,
            locked,
        })),
        None => Ok(None),
    }
}

/// A copy of a list of partitions.
pub(crate) fn parts_copy(alloc: Global, parts: &[u32]) -> Result<List<u32>, NoMemory>
    ensures { IfOk result (λ copy. copy ≡ parts.now) }
{
    Ok(List::from_vec(parts.to_vec(alloc)?))
}

/// A copy of a request.
pub(crate) fn request_copy(request: &Request) -> Result<Request, NoMemory>
    ensures { IfOk result (λ copy. copy ≡ request.now) }
{
    Ok(request.clone()?)
}
