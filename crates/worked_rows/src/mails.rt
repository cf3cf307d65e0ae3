//! A mail that two threads fill and empty.
ghost use Rattle.std.specs.Prelude.{◌≡◌, ◌+◌, ◌≤◌, length, All};

use mail_queue::laws::gathered;
use mail_queue::{GatherFault, Letter, Mail, Poster, Taker};
use std::alloc::{AllocError, Global};
use std::process::Abort;
use std::sync::Wait;
use std::test::Fail;
use std::thread;
use std::thread::Threads;

#[derive(Clone, Copy, Debug, PartialEq, Eq)]
struct Note([u8; 1]);

impl Letter for Note {
    ghost spelling = { λ note. note.0 };

    fn bytes(&self) -> &[u8] {
        &self.0
    }
}

/// Posts a note of each number from `first` up to `end`, which the mail has room for.
fn post_all<R: Wait + Abort>(
    rt: &R,
    mail: &Mail<Note>,
    mut poster: Poster<Note>,
    first: u8,
    end: u8,
) -> Poster<Note>
    requires { poster.mail ≡ mail.now }
    ensures { result.mail ≡ mail.now }
{
    for number in first..end {
        assert_eq!(rt; mail.post(rt, &mut poster, Note([number])), Ok(()));
    }
    poster
}

#[test]
fn message_after_64_is_handed_back(rt: HostRuntime) -> Result<(), Fail> {
    let (mail, mut posters, takers) = Mail::new(rt.alloc(), 1, 1)?;
    let poster = posters.pop().expect(&rt, "one poster");
    let mut poster = post_all(&rt, &mail, poster, 0, 64);
    assert_eq!(rt; mail.post(&rt, &mut poster, Note([64])), Err(Note([64])));
    posters.push(poster)?;
    let left = gathered(rt.alloc(), mail, posters, takers)?;
    let kept: Vec<u8> = left.iter().map(|note| note.0[0]).collect(rt.alloc())?;
    let sent: Vec<u8> = (0..64u8).collect(rt.alloc())?;
    assert_eq!(rt; kept, sent);
    Ok(())
}

#[test]
fn nothing_is_taken_from_an_empty_mail(rt: HostRuntime) -> Result<(), Fail> {
    let (mail, _posters, mut takers) = Mail::<Note>::new(rt.alloc(), 1, 1)?;
    let mut taker = takers.pop().expect(&rt, "one taker");
    assert_eq!(rt; mail.take(&rt, &mut taker), None);
    Ok(())
}

#[test]
fn missing_token_is_told(rt: HostRuntime) -> Result<(), Fail> {
    let (mail, posters, mut takers) = Mail::<Note>::new(rt.alloc(), 2, 2)?;
    let _missing = takers.pop().expect(&rt, "two takers");
    assert_eq!(rt;
        gathered(rt.alloc(), mail, posters, takers).err(),
        Some(GatherFault::Incomplete)
    );
    Ok(())
}

type Taken = (Taker<Note>, Result<Vec<u8>, AllocError>);

/// Takes `count` notes, which come in any order, and tells their numbers.
fn take_some<R: Wait>(
    rt: &R,
    alloc: Global,
    mail: &Mail<Note>,
    mut taker: Taker<Note>,
    count: usize,
) -> Taken
    requires { taker.mail ≡ mail.now }
    ensures { result.0.mail ≡ mail.now }
{
    let mut numbers = match Vec::with_capacity(alloc, count) {
        Ok(numbers) => numbers,
        Err(refused) => return (taker, Err(refused)),
    };
    for _ in rt.forever() {
        if numbers.len() >= count {
            break;
        }
        match mail.take(rt, &mut taker) {
            Some(note) => {
                if numbers.push(note.0[0]).is_err() {
                    return (taker, Err(AllocError));
                }
            }
            None => thread::yield_now(),
        }
    }
    (taker, Ok(numbers))
}

/// Two threads post 30 notes each, and two others take 20 each. What was taken and what is left is what was posted.
fn exchange<R: Threads + Wait + Abort + Sync>(rt: &R, alloc: Global) -> Result<Vec<u8>, Fail> {
    let (mail, mut posters, mut takers) = Mail::new(alloc, 2, 2)?;
    let second = posters.pop().expect(rt, "two posters");
    let first = posters.pop().expect(rt, "two posters");
    let fourth = takers.pop().expect(rt, "two takers");
    let third = takers.pop().expect(rt, "two takers");
    let shared = &mail;
    let ((first, second), ((third, some), (fourth, others))) = thread::join(
        rt,
        move ||
            requires { (first.mail ≡ shared.now) × (second.mail ≡ shared.now) }
            ensures { (result.0.mail ≡ shared.entry.now) × (result.1.mail ≡ shared.entry.now) }
        { posting(rt, shared, first, second) },
        move ||
            requires { (third.mail ≡ shared.now) × (fourth.mail ≡ shared.now) }
            ensures { (result.0.0.mail ≡ shared.entry.now) × (result.1.0.mail ≡ shared.entry.now) }
        { taking(rt, alloc, shared, third, fourth) },
    );
    let mut numbers = some?;
    numbers.extend_from_slice(&others?)?;
    posters.push(first)?;
    posters.push(second)?;
    takers.push(third)?;
    takers.push(fourth)?;
    for note in gathered(alloc, mail, posters, takers)? {
        numbers.push(note.0[0])?;
    }
    Ok(numbers)
}

fn posting<R: Threads + Wait + Abort + Sync>(
    rt: &R,
    mail: &Mail<Note>,
    first: Poster<Note>,
    second: Poster<Note>,
) -> (Poster<Note>, Poster<Note>)
    requires { (first.mail ≡ mail.now) × (second.mail ≡ mail.now) }
    ensures { (result.0.mail ≡ mail.now) × (result.1.mail ≡ mail.now) }
{
    thread::join(
        rt,
        move ||
            requires { first.mail ≡ mail.now }
            ensures { result.mail ≡ mail.entry.now }
        { post_all(rt, mail, first, 0, 30) },
        move ||
            requires { second.mail ≡ mail.now }
            ensures { result.mail ≡ mail.entry.now }
        { post_all(rt, mail, second, 30, 60) },
    )
}

fn taking<R: Threads + Wait + Abort + Sync>(
    rt: &R,
    alloc: Global,
    mail: &Mail<Note>,
    third: Taker<Note>,
    fourth: Taker<Note>,
) -> (Taken, Taken)
    requires { (third.mail ≡ mail.now) × (fourth.mail ≡ mail.now) }
    ensures { (result.0.0.mail ≡ mail.now) × (result.1.0.mail ≡ mail.now) }
{
    thread::join(
        rt,
        move ||
            requires { third.mail ≡ mail.now }
            ensures { result.0.mail ≡ mail.entry.now }
        { take_some(rt, alloc, mail, third, 20) },
        move ||
            requires { fourth.mail ≡ mail.now }
            ensures { result.0.mail ≡ mail.entry.now }
        { take_some(rt, alloc, mail, fourth, 20) },
    )
}

#[test]
fn four_threads_exchange_each_note_once(rt: HostRuntime) -> Result<(), Fail> {
    let mut numbers = exchange(&rt, rt.alloc())?;
    numbers.sort_unstable();
    let sent: Vec<u8> = (0..60u8).collect(rt.alloc())?;
    assert_eq!(rt; numbers, sent);
    Ok(())
}
