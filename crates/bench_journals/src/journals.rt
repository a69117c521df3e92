// Appends, syncs, gets and whole replays of a journal of date marks, few and many items in one section, on both storages. The
// best of some rounds counts. Every call must be accepted.
use anyhow::anyhow;
use item::{DateMark, DayKind};
use journal::Journal;
use std::time::Instant;
use storage::{Pages, Slots, Storage};
use timing::Hundredths;

const ROUNDS: u64 = 7;

// A date mark and its header.
const FRAME: u64 = 6;

// What is done for one item takes so long.
#[derive(Clone, Copy)]
struct Costs {
    append: Hundredths,
    sync: Hundredths,
    get: Hundredths,
    replay: Hundredths,
}

const NEVER: Costs = Costs {
    append: Hundredths(u64::MAX),
    sync: Hundredths(u64::MAX),
    get: Hundredths(u64::MAX),
    replay: Hundredths(u64::MAX),
};

// Calls, one for each item; every one must be accepted.
fn each<F: FnMut(u64) -> bool>(
    rt: &HostRuntime,
    items: u64,
    call: F,
    refused: &str,
) -> anyhow::Result<Hundredths>
    requires { F.IsAlwaysCallable call }
{
    let start = Instant::now(rt)?;
    let taken = (0..items).all(call);
    let nanos = start.elapsed(rt)?.as_nanos();
    if !taken {
        return Err(anyhow!("{refused} was refused"));
    }
    Ok(Hundredths::each(nanos, items))
}

// From the opening to the finish.
fn replay_all<S: Storage + Drop>(
    rt: &HostRuntime,
    storage: S,
    items: u64,
    work: &mut [u8],
) -> anyhow::Result<(S, Hundredths)> {
    let start = Instant::now(rt)?;
    let mut replay = Journal::<DateMark, S>::init(storage).replay(0, 0);
    let mut item = None;
    let taken = (0..items).all(|_| matches!(replay.next(work, &mut item), Ok(Some(_))));
    let drained = matches!(replay.next(work, &mut item), Ok(None));
    let finished = replay.finish();
    let nanos = start.elapsed(rt)?.as_nanos();
    if !taken || !drained || finished.answer.is_err() {
        return Err(anyhow!("a replay was refused"));
    }
    Ok((finished.journal.close(), Hundredths::each(nanos, items)))
}

// One round on a storage without sections, which it leaves so.
fn round<S: Storage + Drop>(
    rt: &HostRuntime,
    storage: S,
    items: u64,
    best: Costs,
) -> anyhow::Result<(S, Costs)> {
    let Ok(mark) = DateMark::new(3, 9, DayKind::Birthday, 260) else {
        return Err(anyhow!("no mark"));
    };
    let mut buffer = [0u8; 10];
    let mut journal = Journal::<DateMark, S>::init(storage);
    // Every append is settled at once; a sync of what is settled would have nothing to do.
    let sync = each(
        rt,
        items,
        |_| journal.append(0, &mark, &mut buffer).is_ok() && journal.sync(&[0]).is_ok(),
        "an append or a sync",
    )?;
    let mut storage = journal.close();
    storage.remove(0);
    let mut journal = Journal::<DateMark, S>::init(storage);
    let append = each(
        rt,
        items,
        |_| journal.append(0, &mark, &mut buffer).is_ok(),
        "an append",
    )?;
    let mut item = None;
    let get = each(
        rt,
        items,
        |i| journal
            .get(0, i.saturating_mul(FRAME), &mut buffer, &mut item)
            .is_ok(),
        "a get",
    )?;
    let (mut storage, replay) = replay_all(rt, journal.close(), items, &mut buffer)?;
    storage.remove(0);
    let costs = Costs {
        append: best.append.min(append),
        sync: best.sync.min(sync),
        get: best.get.min(get),
        replay: best.replay.min(replay),
    };
    Ok((storage, costs))
}

fn print_costs(
    rt: &HostRuntime,
    name: &str,
    items: u64,
    costs: Costs,
    few: Costs,
) -> anyhow::Result<()> {
    print_call(rt, name, "append", items, costs.append, few.append)?;
    print_call(rt, name, "append and sync", items, costs.sync, few.sync)?;
    print_call(rt, name, "get", items, costs.get, few.get)?;
    print_call(rt, name, "replay", items, costs.replay, few.replay)
}

fn print_call(
    rt: &HostRuntime,
    name: &str,
    call: &str,
    items: u64,
    cost: Hundredths,
    few: Hundredths,
) -> anyhow::Result<()> {
    let percent = cost.percent_of(few);
    println!(rt; "{name} {call} of {items} items: {cost} ns an item, {percent} % of 1000 items")?;
    Ok(())
}

fn measure_storage<S: Storage + Drop>(
    rt: &HostRuntime,
    name: &str,
    mut storage: S,
) -> anyhow::Result<()> {
    let mut few = NEVER;
    let mut some = NEVER;
    let mut many = NEVER;
    for _ in 0..ROUNDS {
        (storage, few) = round(rt, storage, 1_000, few)?;
        (storage, some) = round(rt, storage, 10_000, some)?;
        (storage, many) = round(rt, storage, 100_000, many)?;
    }
    print_costs(rt, name, 1_000, few, few)?;
    print_costs(rt, name, 10_000, some, few)?;
    print_costs(rt, name, 100_000, many, few)
}

pub(crate) fn measure_all(rt: &HostRuntime) -> anyhow::Result<()> {
    let heap = rt.alloc();
    let area = vec![in heap; 0u8; 4_194_304]?;
    let slots = Slots::new(heap, area, 1).map_err(|_| anyhow!("no memory for slots"))?;
    measure_storage(rt, "slots", slots)?;
    let area = vec![in heap; 0u8; 1_048_576]?;
    let pages = Pages::new(heap, area).map_err(|_| anyhow!("no memory for pages"))?;
    measure_storage(rt, "pages", pages)
}
