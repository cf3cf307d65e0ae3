//! Prepare, and the two ends.
ghost use Rattle.std.specs.Prelude.{◌≡◌};
ghost use Rattle.dp_messages.specs.declared.requests.Ask.TheVariants as ask;
ghost use Rattle.partition_core.specs.Scaffold.Contents.{state_of, parts_of};
ghost use Rattle.partition_core.specs.Scaffold.Changes.{tells, IsFitting};
ghost use Rattle.partition_core.specs.Rooms.{IsSettled};
ghost use Rattle.partition_state.specs.Step.{prepare, end_commit, end_undo};

use crate::changes::{Change, Judgement, refusal};
use crate::contents::Contents;
use crate::lives::{floor_of, is_live};
use dp_messages::Reply;
use sql_base::TxnName;

impl Contents {
    /// Gives the floor above which the transaction's stamp has to be.
    pub fn prepare(&self, t: TxnName) -> Judgement
        ensures told { tells (state_of (parts_of self.now)) t result ≡ prepare (state_of (parts_of self.now)) t }
        ensures fits { IsFitting (parts_of self.now) result.change }
        ensures settled { IsSettled (state_of (parts_of self.now)) t ask.Prepare result.change }
    {
        if !is_live(&self.lives, t) {
            return refusal(Reply::NotKnown);
        }
        match floor_of(&self.lives, t) {
            Some(floor) => refusal(Reply::Floor(floor)),
            None => Judgement {
                reply: Reply::Floor(self.high),
                change: Change::Prepares,
            },
        }
    }

    /// Ends the transaction by commit.
    pub fn end_commit(&self, t: TxnName, stamp: u64) -> Judgement
        ensures told { tells (state_of (parts_of self.now)) t result ≡ end_commit (state_of (parts_of self.now)) t stamp }
        ensures fits { IsFitting (parts_of self.now) result.change }
        ensures settled { IsSettled (state_of (parts_of self.now)) t (ask.EndCommit stamp) result.change }
    {
        if !is_live(&self.lives, t) {
            return refusal(Reply::NotKnown);
        }
        let Some(floor) = floor_of(&self.lives, t) else {
            return refusal(Reply::NotPrepared);
        };
        if stamp <= floor {
            return refusal(Reply::StampLow { floor });
        }
        Judgement {
            reply: Reply::Done,
            change: Change::Commits { stamp },
        }
    }

    /// Ends the transaction and gives back what it changed.
    pub fn end_undo(&self, t: TxnName) -> Judgement
        ensures told { tells (state_of (parts_of self.now)) t result ≡ end_undo (state_of (parts_of self.now)) t }
        ensures fits { IsFitting (parts_of self.now) result.change }
        ensures settled { IsSettled (state_of (parts_of self.now)) t ask.EndUndo result.change }
    {
        Judgement {
            reply: Reply::Done,
            change: Change::Undoes,
        }
    }
}
