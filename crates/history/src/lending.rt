// Calls that are lent the front of a work buffer, of any length that a step asks for and the buffer has.
ghost use Rattle.std.specs.Prelude.{◌≡◌, min, length};
ghost use Rattle.history.specs.Turns.{back, lent};
ghost use Rattle.journal.specs.Calls.{append_call, get_call};
ghost use Rattle.journal.specs.Replays.{next_call, nexted, reading};
ghost use Rattle.journal.specs.Stands.{fetched, outcome, stands};
ghost use Rattle.journal.specs.Wholes.{init_at_most_call};
ghost use Rattle.history.specs.Lent.{back_outcome, back_fetched, back_nexted};

use fault::Fault;
use item::Item;
use journal::{Finished, Handed, Journal, Placed, Replay};
use storage::Storage;

// How much of the buffer a call is lent: what the step asks for, or all that there is.
fn lent_len(work: u64, buffer: &[u8]) -> usize
    ensures { result ≡ min work (length buffer.now) }
{
    work.min(buffer.len() as u64) as usize
}

pub(crate) fn init_at_most<V: Item + Drop, S: Storage>(
    storage: S,
    section: u64,
    end: u64,
    work: u64,
    buffer: &mut [u8],
) -> Finished<V, S>
    ensures { outcome result.answer (stands S.Storage.standing result.journal) buffer.new ≡ back_outcome work buffer.old (init_at_most_call V.Item.decoded V.Item.greatest (S.Storage.standing storage) section end (lent work buffer.old)) }
{
    let lent = lent_len(work, buffer);
    Journal::<V, S>::init_at_most(storage, section, end, &mut buffer[..lent])
}

pub(crate) fn append<V: Item + Drop, S: Storage>(
    journal: &mut Journal<V, S>,
    section: u64,
    item: &V,
    work: u64,
    buffer: &mut [u8],
) -> Result<Placed, Fault>
    ensures { outcome result (stands S.Storage.standing journal.new) buffer.new ≡ back_outcome work buffer.old (append_call V.Item.greatest (stands S.Storage.standing journal.old) section (V.Item.bytes item.now) (lent work buffer.old)) }
{
    let lent = lent_len(work, buffer);
    journal.append(section, item, &mut buffer[..lent])
}

pub(crate) fn get<V: Item + Drop, S: Storage>(
    journal: &Journal<V, S>,
    section: u64,
    offset: u64,
    work: u64,
    buffer: &mut [u8],
    item: &mut Option<V>,
) -> Result<usize, Fault>
    ensures { fetched result buffer.new item.new ≡ back_fetched work buffer.old (get_call V.Item.decoded V.Item.greatest (stands S.Storage.standing journal.now) section offset (lent work buffer.old) item.old) }
{
    let lent = lent_len(work, buffer);
    journal.get(section, offset, &mut buffer[..lent], item)
}

pub(crate) fn next<V: Item + Drop, S: Storage>(
    replay: &mut Replay<V, S>,
    work: u64,
    buffer: &mut [u8],
    item: &mut Option<V>,
) -> Result<Option<Handed>, Fault>
    ensures { nexted result (reading S.Storage.standing replay.new) buffer.new item.new ≡ back_nexted work buffer.old (next_call V.Item.decoded V.Item.greatest (reading S.Storage.standing replay.old) (lent work buffer.old) item.old) }
{
    let lent = lent_len(work, buffer);
    replay.next(&mut buffer[..lent], item)
}
