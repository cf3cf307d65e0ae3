//! What the tokens of a mail know, the rule that ties it to what lies in the mail, and what each step tells.
ghost use Rattle.std.specs.Prelude.{ℕ};

use crate::letter::Letter;
use crossbeam_queue::protocol::{Join, Lesson, Outcome, Protocol, Split};
use std::collections::LinkedList;
use std::marker::{Brand, PhantomData};

/// How many posters and takers a mail was made for.
pub struct Crew {
    pub posters: u32,
    pub takers: u32,
}

/// What a token knows. No value of it is made.
pub struct Hand {
    /// Whether it is to found the mail.
    pub founds: bool,
    /// `None` before the mail is founded, and once another has taken it in.
    pub crew: Option<Crew>,
    /// The numbers of the posters and of the takers that it stands for.
    pub posters: LinkedList<u32>,
    pub takers: LinkedList<u32>,
    /// The bytes of each message that it posted and took.
    pub posted: LinkedList<LinkedList<u8>>,
    pub taken: LinkedList<LinkedList<u8>>,
}

/// The rule of a mail.
pub struct Fair;

impl<M: Letter> Protocol<M, Hand> for Fair {
    ghost use Rattle.mail_queue.specs.Rule.{Stands};
    ghost use Rattle.mail_queue.specs.Hands.{first_hand};

    ghost holds = { Stands M.spelling };

    ghost first = { first_hand };
}

/// A post: the message joins the hand's list.
pub struct Posts;

impl<M: Letter> Outcome<M, Hand> for Posts {
    ghost use Rattle.std.specs.Prelude.{◌≡◌};
    ghost use Rattle.mail_queue.specs.Hands.{after_post};

    ghost then = { λ hand message next. next ≡ after_post hand (M.spelling message) };
}

impl<M: Letter> Lesson<M, Hand> for Posts {
    ghost use Rattle.mail_queue.specs.Rule.{Moment};

    ghost fact = { Moment M.spelling };
}

/// A take: the message joins the hand's list.
pub struct Takes;

impl<M: Letter> Outcome<M, Hand> for Takes {
    ghost use Rattle.std.specs.Prelude.{◌≡◌};
    ghost use Rattle.mail_queue.specs.Hands.{after_take};

    ghost then = { λ hand message next. next ≡ after_take hand (M.spelling message) };
}

impl<M: Letter> Lesson<M, Hand> for Takes {
    ghost use Rattle.mail_queue.specs.Rule.{Moment};

    ghost fact = { Moment M.spelling };
}

/// Of a mail with every token gathered: what is left in it.
pub struct Gathered;

impl<M: Letter> Lesson<M, Hand> for Gathered {
    ghost use Rattle.std.specs.Prelude.{map};
    ghost use Rattle.mail_queue.specs.Messages.{Balances};

    ghost fact = { λ hand left. Balances hand.posted hand.taken (map M.spelling left) };
}

/// For how many posters and takers a mail is founded.
pub trait Founding {
    ghost posters: { ℕ };

    ghost takers: { ℕ };
}

impl Founding for Brand {
    ghost posters = { 0 };

    ghost takers = { 0 };
}

/// The first hand founds the mail, and has every number then.
pub struct Founds<F> {
    of: PhantomData<F>,
}

impl<F: Founding> Split<Hand> for Founds<F> {
    ghost use Rattle.std.specs.Prelude.{Some};
    ghost use Rattle.mail_queue.specs.Hands.{founding_hand, idle_hand};

    ghost left = { λ _. founding_hand (record { posters = F.posters; takers = F.takers }) };

    ghost right = { λ _. idle_hand (Some (record { posters = F.posters; takers = F.takers })) };
}

/// A hand gives its first poster's number to a new one.
pub struct DealsPoster;

impl Split<Hand> for DealsPoster {
    ghost use Rattle.mail_queue.specs.Hands.{without_poster, next_poster};

    ghost left = { without_poster };

    ghost right = { next_poster };
}

/// A hand gives its first taker's number to a new one.
pub struct DealsTaker;

impl Split<Hand> for DealsTaker {
    ghost use Rattle.mail_queue.specs.Hands.{without_taker, next_taker};

    ghost left = { without_taker };

    ghost right = { next_taker };
}

/// A hand takes another in.
pub struct Gathers;

impl Join<Hand> for Gathers {
    ghost use Rattle.std.specs.Prelude.{None};
    ghost use Rattle.mail_queue.specs.Hands.{both_hands, idle_hand};

    ghost both = { both_hands };

    ghost spent = { idle_hand None };
}
