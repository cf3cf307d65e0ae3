//! A mail and its tokens.
ghost use Rattle.std.specs.Prelude.{◌≡◌, ◌≤◌, length, OnOk, OnErr, IfErr, IfSome, IfNone};

use crate::hand::{Fair, Hand, Posts, Takes};
use crate::letter::Letter;
use crossbeam_queue::{Pass, RuledArrayQueue};
use std::alloc::Global;
use std::marker::Model;
use std::sync::Wait;

/// How many messages a mail holds at most.
pub const CAPACITY: usize = 64;

pub(crate) type Queue<M> = RuledArrayQueue<M, Hand, Fair, Global>;

/// A mail that threads share by reference. Contracts see which one it is, and for how many posters and takers it was made.
#[derive(Drop)]
pub struct Mail<M: Letter> {
    pub(crate) queue: Queue<M>,
    pub(crate) posters: u32,
    pub(crate) takers: u32,
}

impl<M: Letter> Model for Mail<M> {
    ghost use Rattle.std.specs.Prelude.{◌≡◌, ◌<◌};
    ghost use Rattle.crossbeam_queue.specs.Passes.{ruled_capacity};
    ghost use Rattle.mail_queue.specs.Tokens.{MailId};

    ghost Value = { MailId };

    ghost view = { λ mail. record { place = mail.queue.table.shared.table_id; posters = mail.posters; takers = mail.takers } };

    ghost invariant = { λ mail. (ruled_capacity mail.queue ≡ 64) × (0 < mail.posters) × (0 < mail.takers) };
}

/// The right to post. Contracts see its mail, its number and the bytes of what it posted.
#[derive(Drop)]
pub struct Poster<M> {
    pub(crate) number: u32,
    pub(crate) pass: Pass<M, Hand>,
}

impl<M> Model for Poster<M> {
    ghost use Rattle.mail_queue.specs.Tokens.{PosterToken};
    ghost use Rattle.mail_queue.specs.Insides.{hand_of, mail_of, IsPosterPass};

    ghost Value = { PosterToken };

    ghost view = { λ token. record { mail = mail_of token.pass; number = token.number; posted = (hand_of token.pass).posted } };

    ghost invariant = { λ token. IsPosterPass token.number token.pass };
}

/// The right to take. Contracts see its mail, its number and the bytes of what it took.
#[derive(Drop)]
pub struct Taker<M> {
    pub(crate) number: u32,
    pub(crate) pass: Pass<M, Hand>,
}

impl<M> Model for Taker<M> {
    ghost use Rattle.mail_queue.specs.Tokens.{TakerToken};
    ghost use Rattle.mail_queue.specs.Insides.{hand_of, mail_of, IsTakerPass};

    ghost Value = { TakerToken };

    ghost view = { λ token. record { mail = mail_of token.pass; number = token.number; taken = (hand_of token.pass).taken } };

    ghost invariant = { λ token. IsTakerPass token.number token.pass };
}

impl<M: Letter> Mail<M> {
    ghost use Rattle.crossbeam_queue.specs.Fifo.{Held};
    ghost use Rattle.mail_queue.specs.Rule.{Moment};
    ghost use Rattle.mail_queue.specs.Tokens.{poster_hand, taker_hand, with_posted, with_taken};

    /// Puts the message into the mail, and adds it to the poster's list.
    /// Where the mail is full at this call's step the message is handed back, and the list stays.
    /// May wait for the step of another thread, and never for room.
    pub fn post<R: Wait>(&self, rt: &R, poster: &mut Poster<M>, message: M) -> Result<(), M>
        requires mail { poster.old.mail ≡ self.now }
        ensures posted { OnOk result (poster.new ≡ with_posted poster.old (M.spelling message)) }
        ensures handed_back { IfErr result (λ back. back ≡ message) }
        ensures stays { OnErr result (poster.new ≡ poster.old) }
        ensures full { OnErr result (Held CAPACITY (Moment M.spelling (poster_hand poster.old))) }
        ensures only_poster { OnErr result (self.now.posters ≡ 1 → CAPACITY ≤ length poster.old.posted) }
    {
        let pass = &mut poster.pass;
        self.queue.push_as::<Posts, R>(rt, pass, message)
    }

    /// Takes a message, and adds it to the taker's list. That it was posted is told by `laws::gathered`.
    /// `None` only where the mail was empty at one moment of the call, and the list then stays.
    /// May wait for the step of another thread, and never for a message.
    pub fn take<R: Wait>(&self, rt: &R, taker: &mut Taker<M>) -> Option<M>
        requires mail { taker.old.mail ≡ self.now }
        ensures taken { IfSome result (λ message. taker.new ≡ with_taken taker.old (M.spelling message)) }
        ensures stays { IfNone result (taker.new ≡ taker.old) }
        ensures empty { IfNone result (Held 0 (Moment M.spelling (taker_hand taker.old))) }
    {
        let pass = &mut taker.pass;
        self.queue.pop_as::<Takes, R>(rt, pass)
    }
}
