//! How a mail and its tokens are made.
ghost use Rattle.std.specs.Prelude.{◌≡◌, ◌<◌, [], map, Some, None, IfOk};
ghost use Rattle.std.specs.List.{range_with_len};
ghost use Rattle.crossbeam_queue.specs.Passes.{IsPassOf, IsSamePass, view};
ghost use Rattle.mail_queue.specs.Hands.{founding_hand, first_hand};
ghost use Rattle.mail_queue.specs.Tokens.{new_poster, new_taker};
ghost use Rattle.mail_queue.specs.Insides.{mail_of, IsPosterPass, IsTakerPass, CanDeal};

use crate::fault::NoMemory;
use crate::hand::{DealsPoster, DealsTaker, Founding, Founds, Hand};
use crate::letter::Letter;
use crate::mail::{CAPACITY, Mail, Poster, Queue, Taker};
use crossbeam_queue::Pass;
use std::alloc::Global;
use std::marker::Brand;

impl<M: Letter + Drop> Mail<M> {
    /// A mail with nothing in it, and its tokens, which are numbered from 0 in the order of the lists.
    pub fn new(
        alloc: Global,
        posters: u32,
        takers: u32,
    ) -> Result<(Mail<M>, Vec<Poster<M>>, Vec<Taker<M>>), NoMemory>
        requires some_poster { 0 < posters }
        requires some_taker { 0 < takers }
        ensures mail { IfOk result (λ made. (made.0.posters ≡ posters) × (made.0.takers ≡ takers)) }
        ensures posters { IfOk result (λ made. made.1.items ≡ map (new_poster made.0) (range_with_len 0 posters)) }
        ensures takers { IfOk result (λ made. made.2.items ≡ map (new_taker made.0) (range_with_len 0 takers)) }
    {
        let (queue, mut keeper) = Queue::<M>::ruled(alloc, CAPACITY)?;
        found::<M, Brand>(&queue, &mut keeper, posters, takers);
        let posting = dealt_posters(alloc, &queue, &mut keeper, posters)?;
        let taking = dealt_takers(alloc, &queue, &mut keeper, takers)?;
        let mail = Mail {
            queue,
            posters,
            takers,
        };
        Ok((mail, posting, taking))
    }
}

// The first pass founds the mail, and has all numbers then.
fn found<M: Letter, F: Founding>(
    queue: &Queue<M>,
    keeper: &mut Pass<M, Hand>,
    posters: u32,
    takers: u32,
)
    requires counts { (posters ≡ F.posters) × (takers ≡ F.takers) }
    requires first { IsPassOf queue.now keeper.old × (keeper.old.id ≡ 0) × (view keeper.old ≡ first_hand) }
    ensures pass { IsSamePass keeper.old keeper.new }
    ensures founded { view keeper.new ≡ founding_hand (record { posters = posters; takers = takers }) }
{
    let _rest = queue.another::<Founds<F>>(keeper);
}

fn poster_of<M>(number: u32, pass: Pass<M, Hand>) -> Poster<M>
    requires poster { IsPosterPass number pass }
    requires nothing { (view pass).posted ≡ [] }
    ensures { result ≡ new_poster (mail_of pass) number }
{
    Poster { number, pass }
}

fn taker_of<M>(number: u32, pass: Pass<M, Hand>) -> Taker<M>
    requires taker { IsTakerPass number pass }
    requires nothing { (view pass).taken ≡ [] }
    ensures { result ≡ new_taker (mail_of pass) number }
{
    Taker { number, pass }
}

fn dealt_posters<M: Letter>(
    alloc: Global,
    queue: &Queue<M>,
    keeper: &mut Pass<M, Hand>,
    count: u32,
) -> Result<Vec<Poster<M>>, NoMemory>
    requires pass { IsPassOf queue.now keeper.old }
    requires all { CanDeal (view keeper.old) × ((view keeper.old).posters ≡ range_with_len 0 count) }
    ensures pass { IsSamePass keeper.old keeper.new }
    ensures dealt { IfOk result (λ _. view keeper.new ≡ record (view keeper.old) { posters = [] }) }
    ensures posters { IfOk result (λ made. made.items ≡ map (new_poster (mail_of keeper.old)) (range_with_len 0 count)) }
{
    let mut made = Vec::with_capacity(alloc, count as usize)?;
    for number in 0..count {
        let pass = queue.another::<DealsPoster>(keeper);
        made.push(poster_of(number, pass))?;
    }
    Ok(made)
}

fn dealt_takers<M: Letter>(
    alloc: Global,
    queue: &Queue<M>,
    keeper: &mut Pass<M, Hand>,
    count: u32,
) -> Result<Vec<Taker<M>>, NoMemory>
    requires pass { IsPassOf queue.now keeper.old }
    requires all { CanDeal (view keeper.old) × ((view keeper.old).takers ≡ range_with_len 0 count) }
    ensures pass { IsSamePass keeper.old keeper.new }
    ensures dealt { IfOk result (λ _. view keeper.new ≡ record (view keeper.old) { takers = [] }) }
    ensures takers { IfOk result (λ made. made.items ≡ map (new_taker (mail_of keeper.old)) (range_with_len 0 count)) }
{
    let mut made = Vec::with_capacity(alloc, count as usize)?;
    for number in 0..count {
        let pass = queue.another::<DealsTaker>(keeper);
        made.push(taker_of(number, pass))?;
    }
    Ok(made)
}
