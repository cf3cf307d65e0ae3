//! A lock whose passes know the history, taken by two threads.
ghost use Rattle.std.specs.Prelude.{◌≡◌, ℕ, ◌++◌, ◌∷◌, [], true, false, IfOk};
ghost use Rattle.turn_lock.specs.Pass.{HasRoot, IsMadeOf};

use std::alloc::Global;
use std::sync::Wait;
use std::test::Fail;
use std::thread::{Threads, join};
use turn_lock::{Busy, NoMemory, Pass, StandsFor, TurnLock};

// A list of numbers, which stands for itself.
#[derive(Drop)]
struct Numbers {
    list: Vec<u64>,
}

impl StandsFor for Numbers {
    type Entry = u64;

    type Root = ();

    ghost history = { λ n. n.list.items };

    ghost root = { λ n. tt };

    ghost state = { λ n. tt };

    fn entries(&self) -> u64 {
        self.list.len() as u64
    }
}

impl Numbers {
    fn add(&mut self, number: u64) -> bool
        ensures added { result ≡ true → self.new.list.items ≡ self.old.list.items ++ number ∷ [] }
        ensures same { result ≡ false → self.new.list.items ≡ self.old.list.items }
    {
        self.list.push(number).is_ok()
    }
}

// The sums that were paid in, since the account was opened with its first one.
#[derive(Drop)]
struct Account {
    opened_with: u64,
    paid: Vec<u64>,
}

impl StandsFor for Account {
    type Entry = u64;

    type Root = u64;

    ghost history = { λ a. a.paid.items };

    ghost root = { λ a. a.opened_with };

    ghost state = { λ a. a.opened_with };

    fn entries(&self) -> u64 {
        self.paid.len() as u64
    }
}

// Closes a lock of two passes, which come in the other order.
fn close_both<V: StandsFor + Drop>(
    lock: TurnLock<V>,
    zero: Pass<V>,
    one: Pass<V>,
    mut list: Vec<Pass<V>>,
) -> Result<V, NoMemory>
    requires lock { (lock.passes ≡ 2) × (list.items ≡ []) }
    requires zero { (zero.lock ≡ lock) × (zero.number ≡ 0) × (zero.holds ≡ false) }
    requires one { (one.lock ≡ lock) × (one.number ≡ 1) × (one.holds ≡ false) }
    ensures root { IfOk result (λ value. HasRoot zero (V.root value)) }
    ensures made { IfOk result (λ value. IsMadeOf (V.history value) (one ∷ zero ∷ [])) }
{
    list.push(one)?;
    list.push(zero)?;
    Ok(lock.close_with(list))
}

#[test]
fn a_held_turn_is_busy_and_a_given_one_is_free(rt: HostRuntime) -> Result<(), Fail> {
    let numbers = Numbers {
        list: Vec::new(rt.alloc()),
    };
    let (lock, mut passes) = TurnLock::new(&rt, rt.alloc(), numbers, 2)?;
    let mut one = passes.pop().expect(&rt, "pass 1");
    let mut zero = passes.pop().expect(&rt, "pass 0");
    let Ok(held) = lock.try_turn(&mut zero) else {
        panic!(rt; "nobody holds the turn");
    };
    match lock.try_turn(&mut one) {
        Ok(second) => {
            lock.give(second, &mut one);
            panic!(rt; "pass 0 holds the turn");
        }
        Err(busy) => assert_eq!(rt; busy, Busy { holder: 0 }),
    }
    lock.give(held, &mut zero);
    let Ok(held) = lock.try_turn(&mut one) else {
        panic!(rt; "pass 0 gave the turn");
    };
    lock.give(held, &mut one);
    let numbers = close_both(lock, zero, one, passes)?;
    assert_eq!(rt; numbers.list.len(), 0);
    Ok(())
}

// Adds a number under the turn, and says whether it did.
fn add<R: Wait>(rt: &R, lock: &TurnLock<Numbers>, pass: &mut Pass<Numbers>, number: u64) -> bool
    requires lock { pass.old.lock ≡ lock.now }
    requires idle { pass.old.holds ≡ false }
    ensures same { (pass.new.lock ≡ pass.old.lock) × (pass.new.number ≡ pass.old.number) × (pass.new.holds ≡ false) }
    ensures added { result ≡ true → (place : ℕ) × (pass.new.mine ≡ pass.old.mine ++ (place, number) ∷ []) }
    ensures refused { result ≡ false → pass.new.mine ≡ pass.old.mine }
{
    let mut held = lock.turn(rt, pass);
    let added = held.value_mut().add(number);
    lock.give(held, pass);
    added
}

fn add_two<R: Wait>(
    rt: &R,
    lock: &TurnLock<Numbers>,
    mut pass: Pass<Numbers>,
    first: u64,
    second: u64,
) -> Pass<Numbers>
    requires lock { pass.lock ≡ lock.now }
    requires idle { pass.holds ≡ false }
    ensures { (result.lock ≡ pass.lock) × (result.number ≡ pass.number) × (result.holds ≡ false) }
{
    add(rt, lock, &mut pass, first);
    add(rt, lock, &mut pass, second);
    pass
}

fn add_in_two_threads<R: Threads + Wait + Sync>(
    rt: &R,
    lock: &TurnLock<Numbers>,
    zero: Pass<Numbers>,
    one: Pass<Numbers>,
) -> (Pass<Numbers>, Pass<Numbers>)
    requires zero { (zero.lock ≡ lock.now) × (zero.holds ≡ false) }
    requires one { (one.lock ≡ lock.now) × (one.holds ≡ false) }
    ensures zero { (result.0.lock ≡ zero.lock) × (result.0.number ≡ zero.number) × (result.0.holds ≡ false) }
    ensures one { (result.1.lock ≡ one.lock) × (result.1.number ≡ one.number) × (result.1.holds ≡ false) }
{
    join(
        rt,
        move || add_two(rt, lock, zero, 1, 2),
        move || add_two(rt, lock, one, 11, 12),
    )
}

#[test]
fn the_entries_of_two_threads_stand_in_their_own_orders(rt: HostRuntime) -> Result<(), Fail> {
    let numbers = Numbers {
        list: Vec::new(rt.alloc()),
    };
    let (lock, mut passes) = TurnLock::new(&rt, rt.alloc(), numbers, 2)?;
    let one = passes.pop().expect(&rt, "pass 1");
    let zero = passes.pop().expect(&rt, "pass 0");
    let (zero, one) = add_in_two_threads(&rt, &lock, zero, one);
    let list = close_both(lock, zero, one, passes)?.list;
    assert_eq!(rt; list.len(), 4);
    let low: Vec<u64> = list
        .iter()
        .copied()
        .filter(|x| *x < 10)
        .collect(rt.alloc())?;
    let high: Vec<u64> = list
        .iter()
        .copied()
        .filter(|x| *x > 10)
        .collect(rt.alloc())?;
    assert_eq!(rt; low.as_slice(), [1, 2].as_slice());
    assert_eq!(rt; high.as_slice(), [11, 12].as_slice());
    Ok(())
}

// Pays a sum into a new account with the lock of one pass, and closes it.
fn paid_in<R: Wait>(rt: &R, alloc: Global, opened_with: u64, sum: u64) -> Result<Account, NoMemory>
    ensures { IfOk result (λ account. account.opened_with ≡ opened_with) }
{
    let account = Account {
        opened_with,
        paid: Vec::new(alloc),
    };
    let (lock, mut passes) = TurnLock::new(rt, alloc, account, 1)?;
    let Some(mut pass) = passes.pop() else {
        unreachable!()
    };
    let mut held = lock.turn(rt, &mut pass);
    let paid = held.value_mut().paid.push(sum).is_ok();
    lock.give(held, &mut pass);
    passes.push(pass)?;
    let account = lock.close_with(passes);
    if paid { Ok(account) } else { Err(NoMemory) }
}

#[test]
fn a_closed_value_has_the_root_that_it_began_with(rt: HostRuntime) -> Result<(), Fail> {
    let account = paid_in(&rt, rt.alloc(), 7, 30)?;
    assert_eq!(rt; account.opened_with, 7);
    assert_eq!(rt; account.paid.as_slice(), [30].as_slice());
    Ok(())
}

#[test]
fn errors_say_what_happened(rt: HostRuntime) -> Result<(), Fail> {
    let busy = format!(in rt.alloc(); "{}", Busy { holder: 3 })?;
    assert_eq!(rt; busy.as_str(), "pass 3 holds the turn");
    let no_memory = format!(in rt.alloc(); "{NoMemory}")?;
    assert_eq!(rt; no_memory.as_str(), "out of memory");
    Ok(())
}
