//! What the tokens of a mail tell once they are gathered.
ghost use Rattle.std.specs.Prelude.{◌≡◌, ◌↔◌, ◌<◌, IsTrue, All, Any, Contains, [], map, Some, Err, IfOk, OnOk, ℕ, length};
ghost use Rattle.mail_queue.specs.Messages.{Balances, HasNumbers};
ghost use Rattle.mail_queue.specs.Hands.{idle_hand};
ghost use Rattle.crossbeam_queue.specs.Passes.{view};
ghost use Rattle.mail_queue.specs.Tokens.{crew_of};
ghost use Rattle.mail_queue.specs.Insides.{IsIdlePassOf, HasAllNumbers, with_posters, with_takers};
ghost use Rattle.mail_queue.specs.Gathering.{IsComplete, posted_by, taken_by};

use crate::fault::{GatherFault, NoMemory};
use crate::hand::{Gathered, Gathers, Hand, Takes};
use crate::letter::Letter;
use crate::mail::{CAPACITY, Mail, Poster, Taker};
use crossbeam_queue::Pass;
use std::alloc::Global;

/// The messages that are left in the mail once all its tokens are brought together.
/// Each message stands in the posters' lists exactly as often as in the takers' lists and among those left, taken together, so what was taken was posted.
/// `Incomplete` exactly where the token of a number that `new` gave is missing. A refusal hands nothing back.
pub fn gathered<M: Letter + Drop>(
    alloc: Global,
    mail: Mail<M>,
    posters: Vec<Poster<M>>,
    takers: Vec<Taker<M>>,
) -> Result<Vec<M>, GatherFault>
    requires posters { All (λ poster. poster.mail ≡ mail) posters.items }
    requires takers { All (λ taker. taker.mail ≡ mail) takers.items }
    ensures incomplete { (result ≡ Err GatherFault.Incomplete) ↔ ¬ IsComplete mail posters.items takers.items }
    ensures complete { OnOk result (IsComplete mail posters.items takers.items) }
    ensures only_posted { OnOk result (All (Contains (posted_by posters.items)) (taken_by takers.items)) }
    ensures balance { IfOk result (λ left. Balances (posted_by posters.items) (taken_by takers.items) (map M.spelling left.items)) }
{
    if !has_each_number(&posters, mail.posters) || !has_each_number(&takers, mail.takers) {
        return Err(GatherFault::Incomplete);
    }
    let mut whole = gather_posters(&mail, posters);
    gather_takers(&mail, &mut whole, takers);
    let left = left_in(alloc, &mail, &mut whole)?;
    Ok(left)
}

/// A token with a number.
trait Numbered {
    ghost number_of: { Self → ℕ };

    fn number(&self) -> u32
        ensures { result ≡ number_of self.now };
}

impl<M> Numbered for Poster<M> {
    ghost number_of = { λ poster. poster.number };

    fn number(&self) -> u32 {
        self.number
    }
}

impl<M> Numbered for Taker<M> {
    ghost number_of = { λ taker. taker.number };

    fn number(&self) -> u32 {
        self.number
    }
}

fn has_each_number<T: Numbered>(tokens: &Vec<T>, count: u32) -> bool
    ensures { IsTrue result ↔ HasNumbers T.number_of count tokens.now.items }
{
    for number in 0..count {
        if !has_number(tokens, number) {
            return false;
        }
    }
    true
}

fn has_number<T: Numbered>(tokens: &Vec<T>, number: u32) -> bool
    ensures { IsTrue result ↔ Any (λ token. T.number_of token ≡ number) tokens.now.items }
{
    tokens.iter().any(|token| token.number() == number)
}

// One pass that stands for all these posters.
fn gather_posters<M: Letter + Drop>(mail: &Mail<M>, posters: Vec<Poster<M>>) -> Pass<M, Hand>
    requires some_poster { 0 < length posters.items }
    requires mail { All (λ poster. poster.mail ≡ mail.now) posters.items }
    ensures pass { IsIdlePassOf mail.now result }
    ensures gathered { view result ≡ with_posters (idle_hand (Some (crew_of mail.now))) posters.items }
{
    let mut rest = posters.into_iter();
    let Poster {
        number: _,
        mut pass,
    } = rest.next().unwrap();
    for poster in rest {
        let Poster {
            number: _,
            pass: other,
        } = poster;
        mail.queue.absorb::<Gathers>(&mut pass, other);
    }
    pass
}

fn gather_takers<M: Letter + Drop>(mail: &Mail<M>, whole: &mut Pass<M, Hand>, takers: Vec<Taker<M>>)
    requires pass { IsIdlePassOf mail.now whole.old }
    requires mail { All (λ taker. taker.mail ≡ mail.now) takers.items }
    ensures pass { IsIdlePassOf mail.now whole.new }
    ensures gathered { view whole.new ≡ with_takers (view whole.old) takers.items }
{
    for taker in takers {
        let Taker { number: _, pass } = taker;
        mail.queue.absorb::<Gathers>(whole, pass);
    }
}

// With every token in hand no other thread is at work in the mail, so the first attempt that takes nothing finds it empty.
// No contract says so: hence the rounds, whose end no run comes to.
fn left_in<M: Letter + Drop>(
    alloc: Global,
    mail: &Mail<M>,
    whole: &mut Pass<M, Hand>,
) -> Result<Vec<M>, NoMemory>
    requires pass { IsIdlePassOf mail.now whole.old }
    requires whole { HasAllNumbers (view whole.old) }
    ensures { IfOk result (λ left. Balances (view whole.old).posted (view whole.old).taken (map M.spelling left.items)) }
{
    let mut left = Vec::with_capacity(alloc, CAPACITY)?;
    for _ in 0..u64::MAX {
        match mail.queue.try_pop_as::<Takes>(whole) {
            Some(message) => left.push(message)?,
            None => {
                if mail.queue.is_empty_as::<Gathered>(whole) {
                    return Ok(left);
                }
            }
        }
    }
    Err(NoMemory)
}
