//! The jobs that the threads of a run do.
ghost use Rattle.std.specs.Prelude.{IfOk};
ghost use Rattle.sql_base.specs.declared.scripts.Script.{Script};
ghost use Rattle.executor_pool.specs.Doing.{HasWorked, IsDone, IsJob};
ghost use Rattle.executor_pool.specs.Sessions.{IsSession, seen};

use crate::journals::SharedJournal;
use crate::processes::DiskProcess;
use crate::servers::serve_mail;
use crate::sessions::SessionJob;
use crate::tokens::Server;
use outside::{Gate, Wire};
use requester_fs::Requester;
use sql_base::NoMemory;
use std::alloc::Global;
use std::sync::atomic::{AtomicU64, Ordering};
use std::sync::{Arc, Wait};
use turn_lock::TurnLock;

/// What the jobs of a run share.
#[derive(Drop)]
pub struct Shared<'a, G> {
    pub alloc: Global,
    /// In the order of the partitions.
    pub processes: &'a Vec<DiskProcess>,
    pub journal: &'a TurnLock<SharedJournal>,
    pub gate: &'a G,
    /// How many sessions haven't ended.
    pub at_work: &'a AtomicU64,
}

/// One of the sessions that haven't ended. It has ended once this is dropped, be its job done or not.
pub struct Ticket {
    pub at_work: Arc<AtomicU64, Global>,
}

impl Drop for Ticket {
    fn drop(self) {
        let Ticket { at_work } = self;
        at_work.fetch_sub(1, Ordering::SeqCst);
    }
}

/// What a thread of a run does.
#[derive(Drop)]
pub enum Job<Q, W> {
    /// It does what a session asks, over its wire.
    Session {
        session: SessionJob<Q>,
        wire: W,
        ticket: Ticket,
    },
    /// It serves the mail of a partition.
    Server {
        server: Server,
    },
}

/// What a job hands back.
#[derive(Drop)]
pub enum Done<Q> {
    Session(SessionJob<Q>),
    Server(Server),
}

/// Does a job to its end. A session for which memory is short ends as well.
pub fn work<R: Wait, Q: Requester, G: Gate>(
    rt: &R,
    shared: &Shared<'_, G>,
    job: Job<Q, Box<dyn Wire + Send>>,
) -> Result<Done<Q>, NoMemory>
    requires { IsJob Q.asking Q.single shared.now.processes.now.items shared.now.journal.now job }
    ensures { IfOk result (IsDone Q.asking Q.single Q.allows (λ w. record { first = first w; round = round w }) shared.now.processes.now.items shared.now.journal.now job) }
{
    match job {
        Job::Session {
            session,
            wire,
            ticket: _ticket,
        } => Ok(Done::Session(work_to_end(rt, shared, session, wire)?)),
        Job::Server { server } => {
            let mut server = server;
            serve_mail(rt, shared, &mut server);
            Ok(Done::Server(server))
        }
    }
}

/// A session that has worked to its end, over its wire.
fn work_to_end<R: Wait, Q: Requester, G: Gate>(
    rt: &R,
    shared: &Shared<'_, G>,
    session: SessionJob<Q>,
    wire: Box<dyn Wire + Send>,
) -> Result<SessionJob<Q>, NoMemory>
    requires session { (script : Script) × IsSession script shared.now.processes.now.items shared.now.journal.now (seen Q.asking session) }
    requires single { Q.single session.requester }
    ensures { IfOk result (HasWorked Q.asking Q.single Q.allows shared.now.processes.now.items shared.now.journal.now (record { first = first wire; round = round wire }) session) }
{
    let mut session = session;
    let mut wire = wire;
    session.work(rt, shared, &mut wire)?;
    Ok(session)
}
