//! The job of a server.
ghost use Rattle.executor_pool.specs.Jobs.{KeepsMail};
ghost use Rattle.executor_pool.specs.Tokens.{IsAt, IsSameServer};

use crate::jobs::Shared;
use crate::tokens::Server;
use outside::Gate;
use std::sync::Wait;
use std::sync::atomic::Ordering;
use std::thread;

/// Serves one message of its partition's mail after the other, until all sessions have ended. It may wait.
pub fn serve_mail<R: Wait, G: Gate>(rt: &R, shared: &Shared<'_, G>, server: &mut Server)
    requires { IsAt shared.now.processes.now.items server.old }
    ensures same { IsSameServer server.old server.new }
    ensures keeps { KeepsMail server.old → KeepsMail server.new }
{
    let process = &shared.processes[server.part as usize];
    for _ in rt.forever() {
        if !server.serve_one(rt, shared.alloc, process, shared.gate) {
            if shared.at_work.load(Ordering::SeqCst) == 0 {
                return;
            }
            thread::yield_now();
        }
    }
}
