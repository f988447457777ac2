// The shared profile cache: one lent buffer in equal slots, and a lent owner table that says who holds which. The number of
// slots is a parameter. Nothing is written before everything is judged, so a refused call changes nothing.
#![tactic(auto)]

ghost use Rattle.std.specs.Prelude.{◌≡◌, [], ◌∷◌, ◌++◌, ◌+◌, ◌-◌, ◌*◌, ◌/◌, ◌≤◌, length, take, drop, replicate};
ghost use Rattle.encoding.specs.Out.{put};
ghost use Rattle.format.specs.Read.{map_read};
ghost use Rattle.format.specs.Views.{constant_view};
ghost use Rattle.container.specs.Views.{view_of};
ghost use Rattle.decoder.specs.Views.{Accepted};
ghost use Rattle.sheet.specs.Store.{put_words};
ghost use Rattle.cache.specs.Judged.{HeldIn, Judged, SlotFrom};
ghost use Rattle.slots.specs.Meaning.{put_answer, put_lent};
ghost use Rattle.cache.specs.Calls.{OwnSlot, placed_at, Writes, PutPost, FetchPost, DropPost};

use container::View;
use container::sections::Stopped;
use enums::Refusal;
use sheet::{put_word, word_at};

// How many bytes a slot has: it is divided once.
fn slot_size(len: usize, slots: usize) -> usize
    ensures { result ≡ len / slots }
{
    if slots == 0 {
        return 0;
    }
    len / slots
}

// Judges whether a buffer of so many bytes, in slots of `size`, and an owner table stand for a cache, and finds the row that
// an instance has in it.
fn judged(len: usize, size: usize, owners: &[u8], slots: usize, instance: u64) -> Option<usize>
    requires { size ≡ len / slots }
    ensures { Judged len owners.now slots instance result }
{
    if slots == 0 {
        return None;
    }
    if size * slots != len {
        return None;
    }
    if owners.len() % 24 != 0 {
        return None;
    }
    if owners.len() / 24 != slots {
        return None;
    }
    owners::held_row(owners, size as u64, instance)
}

// The slot that a file goes to: the one that its instance holds, else the lowest free one; else the number of slots.
fn slot_for(owners: &[u8], slots: usize, held: usize) -> usize
    requires { length owners.now ≡ slots * 24 }
    ensures { SlotFrom slots held owners.now result }
{
    if held < slots {
        return held;
    }
    owners::free_row(owners)
}

// A slot begins with these bytes, and the rest of it is cleared.
fn fill_slot(cache: &mut [u8], start: usize, size: usize, bytes: &[u8])
    requires { (start + size ≤ length cache.old) × (length bytes.now ≤ size) }
    ensures { cache.new ≡ put cache.old start (bytes.now ++ replicate (size - length bytes.now) 0) }
{
    sheet::put_run(cache, start, bytes);
    encoding::clear(cache, start + bytes.len(), size - bytes.len());
}

// Writes the row of a slot, all of it.
fn put_row(owners: &mut [u8], slot: usize, mark: u64, instance: u64, len: u64)
    requires { slot * 24 + 24 ≤ length owners.old }
    ensures { owners.new ≡ put_words owners.old (3 * slot) (mark ∷ instance ∷ len ∷ []) }
{
    put_word(owners, 3 * slot, mark);
    put_word(owners, 3 * slot + 1, instance);
    put_word(owners, 3 * slot + 2, len);
}

// A file that is accepted is put, if it fits and there is a slot.
fn put_accepted(
    cache: &mut [u8],
    owners: &mut [u8],
    slots: usize,
    size: usize,
    instance: u64,
    held: usize,
    file: &[u8],
) -> Result<usize, Stopped>
    requires { HeldIn slots instance (record { buffer = cache.old; owners = owners.old }) (Some held) × Accepted file.now × (size ≡ length cache.old / slots) }
    ensures { Writes (put_answer slots instance file.now) (put_lent slots instance file.now) (record { buffer = cache.old; owners = owners.old }) (record { buffer = cache.new; owners = owners.new }) result }
{
    if size < file.len() {
        return Err(Stopped::call(Refusal::Full));
    }
    let slot = slot_for(owners, slots, held);
    if slot == slots {
        return Err(Stopped::call(Refusal::NoSlot));
    }
    fill_slot(cache, slot * size, size, file);
    put_row(owners, slot, 1, instance, file.len() as u64);
    Ok(slot)
}

// Puts a file for an instance: the cache is judged first, and then the file.
pub fn put(
    cache: &mut [u8],
    owners: &mut [u8],
    slots: usize,
    instance: u64,
    file: &[u8],
) -> Result<usize, Stopped>
    ensures { PutPost slots instance file.now (record { buffer = cache.old; owners = owners.old }) (record { buffer = cache.new; owners = owners.new }) result }
{
    let size = slot_size(cache.len(), slots);
    let Some(held) = judged(cache.len(), size, owners, slots, instance) else {
        return Err(Stopped::call(Refusal::Sheet));
    };
    decoder::measure(file)?;
    put_accepted(cache, owners, slots, size, instance, held, file)
}

// The slot that an instance holds in a cache, which is judged first.
fn own_slot(
    len: usize,
    size: usize,
    owners: &[u8],
    slots: usize,
    instance: u64,
) -> Result<usize, Stopped>
    requires { size ≡ len / slots }
    ensures { OwnSlot len owners.now slots instance result }
{
    let Some(slot) = judged(len, size, owners, slots, instance) else {
        return Err(Stopped::call(Refusal::Sheet));
    };
    if slot == slots {
        return Err(Stopped::call(Refusal::Absent));
    }
    Ok(slot)
}

// The constant of a file that lies in the buffer, and its place there.
fn constant_in(cache: &[u8], start: usize, len: usize, index: u64) -> Result<View, Stopped>
    requires { start + len ≤ length cache.now }
    ensures { view_of result ≡ map_read (placed_at start) (constant_view (take len (drop start cache.now)) index) }
{
    let end = start + len;
    let view = decoder::constant(&cache[start..end], index)?;
    Ok(View {
        start: start + view.start,
        len: view.len,
    })
}

// The constant of the file that an instance has, and its place in the buffer. The file is judged, and exactly the length
// that was kept.
pub fn fetch(
    cache: &[u8],
    owners: &[u8],
    slots: usize,
    instance: u64,
    index: u64,
) -> Result<View, Stopped>
    ensures { FetchPost slots instance index (record { buffer = cache.now; owners = owners.now }) result }
{
    let size = slot_size(cache.len(), slots);
    let slot = own_slot(cache.len(), size, owners, slots, instance)?;
    let kept = word_at(owners, 3 * slot + 2) as usize;
    constant_in(cache, slot * size, kept, index)
}

// Drops the file of an instance: the slot's bytes and its row become 0.
pub fn drop(
    cache: &mut [u8],
    owners: &mut [u8],
    slots: usize,
    instance: u64,
) -> Result<usize, Stopped>
    ensures { DropPost slots instance (record { buffer = cache.old; owners = owners.old }) (record { buffer = cache.new; owners = owners.new }) result }
{
    let size = slot_size(cache.len(), slots);
    let slot = own_slot(cache.len(), size, owners, slots, instance)?;
    fill_slot(cache, slot * size, size, &[]);
    put_row(owners, slot, 0, 0, 0);
    Ok(slot)
}
