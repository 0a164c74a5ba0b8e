//! Turns over a list of notes, alone and between threads.
ghost use Rattle.std.specs.Prelude.{◌≡◌, ◌≤◌, ◌<◌, ◌^◌, ◌++◌, ◌∷◌, [], length, None, OnOk, OnErr, IfOk, All};
ghost use Rattle.turn_table.specs.Passes.{IsFree};

use crate::{Pass, Storied, Turn, Worn};
use std::alloc::{AllocError, Global};
use std::process::Abort;
use std::sync::Wait;
use std::test::Fail;
use std::thread::{Threads, for_each_mut, join};

// A list of entries, each a maker's number and a number that it wrote.
#[derive(Drop)]
struct Notes {
    entries: Vec<(u64, u64)>,
    faults: u64,
}

impl Storied for Notes {
    type Entry = u64;

    type Basis = ();

    ghost story = { λ n. n.entries.items };

    ghost faults = { λ n. n.faults };

    ghost basis = { λ n. tt };

    fn story_len(&self) -> u64 {
        self.entries.len() as u64
    }
}

impl Notes {
    fn new(alloc: Global) -> Notes
        ensures empty { result.entries.items ≡ [] }
        ensures faults { result.faults ≡ 0 }
    {
        Notes {
            entries: Vec::new(alloc),
            faults: 0,
        }
    }

    fn add(&mut self, maker: u64, entry: u64) -> Result<(), AllocError>
        ensures ok { OnOk result (self.new.entries.items
            ≡ self.old.entries.items ++ (maker, entry) ∷ []) }
        ensures err { OnErr result (self.new.entries.items ≡ self.old.entries.items) }
        ensures faults { self.new.faults ≡ self.old.faults }
    {
        self.entries.push((maker, entry))?;
        Ok(())
    }
}

// A turn over an empty list, and its first pass.
fn begun(alloc: Global, first: u64) -> Result<(Turn<Notes>, Pass<Notes>), AllocError>
    requires { first ≤ 2 ^ 62 }
    ensures { IfOk result (λ p. IsFree p.0 p.1 × (p.1.number ≡ 0) × (p.1.splits ≡ 0)) }
{
    match Turn::begin(alloc, Notes::new(alloc), first) {
        Ok(begun) => Ok(begun),
        Err(_) => Err(AllocError),
    }
}

// One turn, in which the pass adds an entry, or none where there is no memory for it.
fn add_one<R: Wait>(
    rt: &R,
    turn: &Turn<Notes>,
    pass: &mut Pass<Notes>,
    entry: u64,
) -> Result<bool, Worn>
    requires { IsFree turn.now pass.old }
    ensures { IsFree turn.now pass.new }
{
    let mut held = turn.take(rt, pass)?;
    let added = held.value.add(pass.number(), entry).is_ok();
    turn.give(pass, held, false);
    Ok(added)
}

// One turn, in which nothing is added. Gives a copy of the entries.
fn read_all<R: Wait>(
    rt: &R,
    alloc: Global,
    turn: &Turn<Notes>,
    pass: &mut Pass<Notes>,
) -> Result<Result<Vec<(u64, u64)>, AllocError>, Worn>
    requires { IsFree turn.now pass.old }
    ensures { IsFree turn.now pass.new }
{
    let held = turn.take(rt, pass)?;
    let entries: Result<_, _> = held.value.entries.clone();
    turn.give(pass, held, false);
    Ok(entries)
}

// Two passes are split off. The first of them adds an entry, which the second sees once they met.
#[test]
fn passes_meet(rt: HostRuntime) -> Result<(), Fail> {
    let (turn, mut main) = begun(rt.alloc(), 0)?;
    let mut one = turn.split(&mut main);
    let mut two = turn.split(&mut main);
    assert_eq!(rt; (main.number(), one.number(), two.number()), (0, 1, 2));
    assert_eq!(rt; add_one(&rt, &turn, &mut one, 7), Ok(true));
    assert_eq!(rt; (one.seen_len(), two.seen_len()), (1, 0));
    turn.meet(&mut one, &mut two);
    assert_eq!(rt; (one.seen_len(), two.seen_len()), (1, 1));
    let Ok(entries) = read_all(&rt, rt.alloc(), &turn, &mut two) else {
        panic!(rt; "the turn is not worn")
    };
    assert_eq!(rt; entries?.as_slice(), [(1, 7)].as_slice());
    turn.join(&mut main, two);
    turn.join(&mut main, one);
    assert_eq!(rt; main.seen_len(), 1);
    let Ok(held) = turn.take(&rt, &mut main) else {
        panic!(rt; "the turn is not worn")
    };
    assert_eq!(rt; held.keep().entries.as_slice(), [(1, 7)].as_slice());
    Ok(())
}

// Takes so many turns, and adds an entry in each.
fn take_turns<R: Wait>(rt: &R, turn: &Turn<Notes>, pass: &mut Pass<Notes>, count: u64)
    requires { IsFree turn.now pass.old }
    ensures { IsFree turn.now pass.new }
{
    for entry in 0..count {
        let _added = add_one(rt, turn, pass, entry).is_ok();
    }
}

// A turn that serves so many tickets, and then none. A pass that drew a later one draws no more.
fn wears_out_after<R: Wait + Abort>(rt: &R, alloc: Global, served: u64) -> Result<(), Fail>
    requires { served ≤ 1000 }
{
    let (turn, mut main) = begun(alloc, (1 << 62) - served)?;
    let mut pass = turn.split(&mut main);
    take_turns(rt, &turn, &mut pass, served);
    assert_eq!(rt; pass.seen_len(), served);
    let worn = Err(Worn { ticket: 1 << 62 });
    let next = Err(Worn {
        ticket: (1 << 62) + 1,
    });
    assert_eq!(rt; add_one(rt, &turn, &mut pass, 9), worn);
    assert_eq!(rt; add_one(rt, &turn, &mut pass, 9), worn);
    assert_eq!(rt; add_one(rt, &turn, &mut main, 9), next);
    turn.join(&mut main, pass);
    assert_eq!(rt; add_one(rt, &turn, &mut main, 9), next);
    assert_eq!(rt; main.seen_len(), served);
    Ok(())
}

#[test]
fn passes_wear_out(rt: HostRuntime) -> Result<(), Fail> {
    wears_out_after(&rt, rt.alloc(), 0)?;
    wears_out_after(&rt, rt.alloc(), 1)?;
    wears_out_after(&rt, rt.alloc(), 3)
}

// A turn that fails, with so many faults before.
fn fail_once<R: Wait + Abort>(rt: &R, turn: &Turn<Notes>, pass: &mut Pass<Notes>, faults: u64)
    requires { IsFree turn.now pass.old }
    ensures { IsFree turn.now pass.new }
{
    let Ok(mut held) = turn.take(rt, pass) else {
        panic!(rt; "the turn is not worn")
    };
    assert_eq!(rt; held.value.faults, faults);
    held.value.faults = held.value.faults.saturating_add(1);
    turn.give(pass, held, true);
}

#[test]
fn failed_turns_are_counted(rt: HostRuntime) -> Result<(), Fail> {
    let (turn, mut main) = begun(rt.alloc(), 5)?;
    let mut other = turn.split(&mut main);
    fail_once(&rt, &turn, &mut main, 0);
    fail_once(&rt, &turn, &mut other, 1);
    fail_once(&rt, &turn, &mut main, 2);
    Ok(())
}

// A count that stands at the greatest number stays there when a turn fails.
#[test]
fn greatest_count_stays(rt: HostRuntime) -> Result<(), Fail> {
    let mut notes = Notes::new(rt.alloc());
    notes.faults = u64::MAX;
    let Ok((turn, mut main)) = Turn::begin(rt.alloc(), notes, 0) else {
        panic!(rt; "there is memory")
    };
    let Ok(held) = turn.take(&rt, &mut main) else {
        panic!(rt; "the turn is not worn")
    };
    assert_eq!(rt; held.value.faults, u64::MAX);
    turn.give(&mut main, held, true);
    Ok(())
}

const TURNS_OF_EACH: u64 = 10_000;

// Splits off passes.
fn split_many(
    alloc: Global,
    turn: &Turn<Notes>,
    main: &mut Pass<Notes>,
    count: usize,
) -> Result<Vec<Pass<Notes>>, AllocError>
    requires main { IsFree turn.now main.old × (main.old.number ≡ 0) × (main.old.splits ≡ 0) }
    requires few { count ≤ 1000 }
    ensures main { IsFree turn.now main.new }
    ensures passes { IfOk result (λ v. All (IsFree turn.now) v.items) }
{
    let mut passes = Vec::new(alloc);
    while passes.len() < count {
        passes.push(turn.split(main))?;
    }
    Ok(passes)
}

// Joins passes into one.
fn join_many(turn: &Turn<Notes>, main: &mut Pass<Notes>, mut passes: Vec<Pass<Notes>>)
    requires { IsFree turn.now main.old × All (IsFree turn.now) passes.items }
    ensures { IsFree turn.now main.new }
{
    while let Some(pass) = passes.pop() {
        turn.join(main, pass);
    }
}

// Each of some passes takes its turns in a thread of its own.
fn take_turns_side_by_side<R: Threads + Wait + Sync>(
    rt: &R,
    turn: &Turn<Notes>,
    passes: &mut [Pass<Notes>],
)
    requires { All (IsFree turn.now) passes.old }
    ensures { All (IsFree turn.now) passes.new }
{
    for_each_mut(
        rt,
        passes,
        8,
        &|_, pass|
            requires { IsFree turn.now pass.old }
            ensures { IsFree turn.entry.now pass.new }
        { take_turns(rt, turn, pass, TURNS_OF_EACH) },
    );
}

// How many entries each maker has, where each maker's are 0, 1, 2 and so on.
fn counts_in_order(entries: &[(u64, u64)]) -> Option<[u64; 9]> {
    let mut counts = [0; 9];
    for (maker, entry) in entries {
        let count = counts.get_mut(*maker as usize)?;
        if *count != *entry {
            return None;
        }
        *count = entry.checked_add(1)?;
    }
    Some(counts)
}

// Eight threads write one story, in which the entries of each stand in their order.
#[test]
fn threads_write_one_story(rt: HostRuntime) -> Result<(), Fail> {
    let (turn, mut main) = begun(rt.alloc(), 0)?;
    let mut passes = split_many(rt.alloc(), &turn, &mut main, 8)?;
    take_turns_side_by_side(&rt, &turn, passes.as_mut_slice());
    join_many(&turn, &mut main, passes);
    assert_eq!(rt; main.seen_len(), 8 * TURNS_OF_EACH);
    let Ok(held) = turn.take(&rt, &mut main) else {
        panic!(rt; "the turn is not worn")
    };
    let entries = held.keep().entries;
    assert_eq!(rt; entries.len(), 80_000);
    let n = TURNS_OF_EACH;
    assert_eq!(rt;
        counts_in_order(&entries),
        Some([0, n, n, n, n, n, n, n, n])
    );
    Ok(())
}

// Turns and passes go to threads where their values do: a turn is lent to two threads, and passes are moved.
fn split_and_meet<T: Storied + Send, R: Threads>(
    rt: &R,
    turn: &Turn<T>,
    mut main: Pass<T>,
    mut one: Pass<T>,
    mut two: Pass<T>,
) -> (u64, u64)
    requires main { IsFree turn.now main × (main.number ≡ 0) × (main.splits ≤ 1000) }
    requires free { IsFree turn.now one × IsFree turn.now two }
{
    join(
        rt,
        move || -> u64
            requires { IsFree turn.now main × (main.number ≡ 0) × (main.splits ≤ 1000) }
        { turn.split(&mut main).number() },
        move || -> u64
            requires { IsFree turn.now one × IsFree turn.now two }
        {
            turn.meet(&mut one, &mut two);
            two.seen_len()
        },
    )
}

#[test]
fn passes_go_to_threads(rt: HostRuntime) -> Result<(), Fail> {
    let (turn, mut main) = begun(rt.alloc(), 0)?;
    let mut one = turn.split(&mut main);
    let two = turn.split(&mut main);
    assert_eq!(rt; add_one(&rt, &turn, &mut one, 7), Ok(true));
    assert_eq!(rt; split_and_meet(&rt, &turn, main, one, two), (3, 1));
    Ok(())
}
