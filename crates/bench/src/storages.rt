// Appends and reads on the storages, in batches; the best of many rounds counts, since a machine is only ever slowed down. Every
// call of a batch must be taken: a refused one moves nothing and would look fast.
use anyhow::anyhow;
use std::time::Instant;
use storage::{Pages, Slots, Storage};
use timing::Hundredths;

const BATCH: u64 = 64;

const ROUNDS: u64 = 128;

// Near empty and near full take turns this often, so that a slow spell of the machine meets both.
const TURNS: u64 = 16;

// What one call takes.
#[derive(Clone, Copy)]
struct Times {
    append: Hundredths,
    read: Hundredths,
}

// Which sections stand: so many, numbered from 0 in equal steps.
#[derive(Clone, Copy)]
struct Numbering {
    count: u64,
    step: u64,
}

impl Numbering {
    fn number(self, i: u64) -> u64 {
        (i % self.count.max(1)).wrapping_mul(self.step)
    }
}

// How many bytes a section has near full, with 1 section and with 64.
#[derive(Clone, Copy)]
struct Full {
    one: u64,
    many: u64,
}

// Brings each section to `base` bytes, with zeros.
fn fill<S: Storage>(storage: &mut S, sections: Numbering, base: u64) {
    let block = [0u8; 256];
    for section in (0..sections.count).map(|i| sections.number(i)) {
        for _ in 0..(base / 256) {
            if storage.size(section) >= base {
                break;
            }
            let _ = storage.append(section, &block);
        }
        storage.truncate(section, base);
    }
}

// A batch of calls, each on its section; every one must be taken.
fn batch<F: FnMut(u64) -> bool>(
    rt: &HostRuntime,
    sections: Numbering,
    call: F,
    refused: &str,
) -> anyhow::Result<Hundredths>
    requires { F.IsAlwaysCallable call }
{
    let start = Instant::now(rt)?;
    let taken = (0..BATCH).map(|i| sections.number(i)).all(call);
    let nanos = start.elapsed(rt)?.as_nanos();
    if !taken {
        return Err(anyhow!("{refused} was refused"));
    }
    Ok(Hundredths::each(nanos, BATCH))
}

const NEVER: Times = Times {
    append: Hundredths(u64::MAX),
    read: Hundredths(u64::MAX),
};

// The best of these rounds and of `before`.
fn measure<S: Storage>(
    rt: &HostRuntime,
    storage: &mut S,
    sections: Numbering,
    base: u64,
    buffer: &mut [u8],
    before: Times,
) -> anyhow::Result<Times> {
    let mut best = before;
    for _ in 0..ROUNDS {
        fill(storage, sections, base);
        let append = batch(
            rt,
            sections,
            |section| storage.append(section, buffer).is_ok(),
            "an append",
        )?;
        let read = batch(
            rt,
            sections,
            |section| storage.read(section, base, buffer).is_ok(),
            "a read",
        )?;
        best.append = best.append.min(append);
        best.read = best.read.min(read);
    }
    Ok(best)
}

// Prints a line for each filling, and how the full one compares with the empty one.
fn compare<S: Storage>(
    rt: &HostRuntime,
    name: &str,
    storage: &mut S,
    sections: Numbering,
    full: u64,
    buffer: &mut [u8],
) -> anyhow::Result<Times> {
    let size = buffer.len();
    let mut low = NEVER;
    let mut high = NEVER;
    for _ in 0..TURNS {
        low = measure(rt, storage, sections, 0, buffer, low)?;
        high = measure(rt, storage, sections, full, buffer, high)?;
    }
    for section in (0..sections.count).map(|i| sections.number(i)) {
        storage.remove(section);
    }
    print_row(rt, name, sections, size, "near empty", low)?;
    print_row(rt, name, sections, size, "near full", high)?;
    print_ratio(rt, "full to empty", high, low)?;
    Ok(low)
}

fn print_row(
    rt: &HostRuntime,
    name: &str,
    sections: Numbering,
    size: usize,
    filling: &str,
    times: Times,
) -> anyhow::Result<()> {
    let count = sections.count;
    let step = sections.step;
    let Times { append, read } = times;
    println!(rt;
        "{name}, sections {count} in steps of {step}, {size} bytes, {filling}: append {append} ns, read {read} ns"
    )?;
    Ok(())
}

fn print_ratio(rt: &HostRuntime, what: &str, a: Times, b: Times) -> anyhow::Result<()> {
    let append = a.append.percent_of(b.append);
    let read = a.read.percent_of(b.read);
    println!(rt; "    {what}: append {append} percent, read {read} percent")?;
    Ok(())
}

fn measure_records<S: Storage>(
    rt: &HostRuntime,
    name: &str,
    storage: &mut S,
    full: Full,
    record: &mut [u8],
) -> anyhow::Result<()> {
    let alone = Numbering { count: 1, step: 1 };
    let one = compare(rt, name, storage, alone, full.one, record)?;
    for step in [1, 3] {
        let sections = Numbering { count: 64, step };
        let many = compare(rt, name, storage, sections, full.many, record)?;
        print_ratio(rt, "64 sections to 1", many, one)?;
    }
    Ok(())
}

fn measure_storage<S: Storage>(
    rt: &HostRuntime,
    name: &str,
    storage: &mut S,
    full: Full,
) -> anyhow::Result<()> {
    measure_records(rt, name, storage, full, &mut [7u8; 5])?;
    measure_records(rt, name, storage, full, &mut [7u8; 200])
}

fn no_memory() -> anyhow::Error {
    anyhow!("there is not enough memory")
}

fn measure_slots(rt: &HostRuntime) -> anyhow::Result<()> {
    let heap = rt.alloc();
    // Not a power of two, so that the slots do not all fall on the same lines of the cache.
    let area = vec![in heap; 0u8; 4_000_000]?;
    let mut slots = Slots::new(heap, area, 64).map_err(|_| no_memory())?;
    // A slot has 62,500 bytes; a batch of 64 records of 200 bytes still fits behind.
    let full = Full {
        one: 49_664,
        many: 62_208,
    };
    measure_storage(rt, "slots", &mut slots, full)
}

fn measure_pages(rt: &HostRuntime) -> anyhow::Result<()> {
    let heap = rt.alloc();
    let area = vec![in heap; 0u8; 1_048_576]?;
    let mut pages = Pages::new(heap, area).map_err(|_| no_memory())?;
    // 4,045 of the 4,096 pages with 1 section, 63 pages in each of 64; a batch takes the rest at most.
    let full = Full {
        one: 1_035_520,
        many: 16_128,
    };
    measure_storage(rt, "pages", &mut pages, full)
}

// One storage after the other, so that they are never both in memory.
pub(crate) fn measure_all(rt: &HostRuntime) -> anyhow::Result<()> {
    measure_slots(rt)?;
    measure_pages(rt)
}
