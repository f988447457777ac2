// The Debug section: parse_debug_section of decoder.rs. All starts and ids are found first, then the attributes are read
// one by one, and then the lists.
ghost use Rattle.std.specs.Prelude.{◌≡◌, ℕ, ◌+◌, ◌-◌, ◌*◌, ◌^◌, ◌≤◌, ◌<◌, true, false, List, ◌∷◌, length, take, drop};
ghost use Rattle.exact.specs.Got.{got};
ghost use Rattle.exact.specs.Repeat.{times};
ghost use Rattle.exact.specs.Fixed.{nums};
ghost use Rattle.exact.specs.Tiling.{cuts};
ghost use Rattle.reading.specs.Numbers.{varint_at};
ghost use Rattle.format.specs.Sheet.{attribute_words};
ghost use Rattle.format.specs.DecodeDebug.{attribute_at, debug_at};
ghost use Rattle.sheet.specs.Store.{put_words};
ghost use Rattle.entries.specs.Starts.{Lies, numbers_in};
ghost use Rattle.payloads.specs.Shorts.{shorts};
ghost use Rattle.payloads.specs.TypeRows.{Row, words_of, entries_by};
ghost use Rattle.payloads.specs.DebugRows.{attribute_row, bytes_of, list_rows, DebugFills};

use crate::answers::{Filled, raised};
use crate::entry::Entry;
use crate::fields::{Number, Spot, copy_numbers, put_numbers, put_value};
use crate::part::Part;
use crate::rows::put_row;
use entries::starts::{Starts, Width, first_entry, first_list, next_entry, next_list, parse_array};
use enums::{DebugTag, IdPosition, Refusal};
use reading::{Reader, Refused};

// How many attributes and lists were read, and how far the stores are filled with them.
#[derive(Clone, Copy)]
pub struct DebugFilled {
    pub attributes: usize,
    pub lists: usize,
    pub filled: Filled,
}

// What the reader of Debug answers.
pub type DebugRead = Result<DebugFilled, Refused>;

// An attribute as a row of seven words: its tag, and six fields, 0 for those that it does not have.
fn parse_attribute(entry: &[u8], sheet: &mut [u8], word: usize) -> Result<Spot, Refused>
    requires { word + length «entry».now + 8 ≤ 2 ^ 62 }
    ensures { Row (attribute_row «entry».now) word sheet.old sheet.new result }
{
    let (tag, next) = (Reader { pos: 0 }).read_byte(entry)?;
    if 7 <= tag {
        return Err(Refused {
            refusal: Refusal::DebugTag,
            at: 0,
        });
    }
    let count = DebugTag::field_count(tag as u64);
    let begun = Spot {
        pos: next.pos,
        word,
        value: 0,
    };
    let first = put_value(sheet, tag as u64, begun);
    let last = copy_numbers(entry, Number::Varint, sheet, count, first)?;
    let absent = [0; 6];
    put_row(sheet, last.word, &absent[count as usize..]);
    Ok(Spot {
        pos: entry.len(),
        word: word + 7,
        value: count,
    })
}

// In an attribute of at most so many bytes, the tag and ten more, no number can be too long.
const WINDOW: usize = 11;

// How many of an entry's bytes end a number. At each byte of the window two tests are 0 or 1, whether the entry has it
// and whether it ends a number, and half of their sum is 1 where both are: no branch waits for the bytes.
fn ends_of(window: &[u8], size: u8) -> u8
    requires window_len { length window.now ≡ 11 }
    requires size_nonzero { 0 < size }
    requires size_bound { size ≤ 11 }
    ensures { (n : ℕ) → n < result → (vs : List ℕ) × (j : ℕ) × (times n varint_at (take size window.now) 1 ≡ got vs j) }
{
    let mut ends: u8 = 0;
    let mut left = size + 15;
    for byte in window {
        ends += (left / 16 + (1 - *byte / 128)) / 2;
        left -= 1;
    }
    ends
}

// Whether a short attribute has all of its numbers: it is enough to count the bytes that end one. The tag is one of
// them. No says nothing: the attribute is then read.
fn is_whole(attribute: Entry) -> bool
    ensures { result ≡ true → (ws : List ℕ) × (attribute_row (bytes_of attribute.entry) ≡ got ws (attribute.entry.end - attribute.entry.start)) }
{
    let data = attribute.table;
    let start = attribute.start;
    let size = attribute.end - start;
    if WINDOW < size {
        return false;
    }
    if data.len() - start < WINDOW {
        return false;
    }
    let tag = data[start];
    if 7 <= tag {
        return false;
    }
    let stop = start + WINDOW;
    DebugTag::field_count(tag as u64) < ends_of(&data[start..stop], size as u8) as u64
}

// The fields of an attribute, taken for numbers of one byte or two: where the last of them ends, how many are longer,
// and six words, 0 for a field that the attribute does not have.
#[derive(Clone, Copy)]
pub struct Shorts {
    pub end: usize,
    pub long: u64,
    pub words: [u64; 6],
}

// At each of the six two bytes are looked at, whether they are its own or not: no branch waits for them.
fn short_fields(data: &[u8], from: usize, count: u64) -> Shorts
    requires { from + 12 ≤ length «data».now }
    ensures { result ≡ shorts «data».now from count 6 }
{
    let mut end = from;
    let mut long: u64 = 0;
    let mut words = [0u64; 6];
    for (k, word) in words.iter_mut().enumerate() {
        let first = data[end] as u64;
        let second = data[end + 1] as u64;
        let more = first / 128;
        let high = 128 * more * second;
        let mut value = 0;
        if (k as u64) < count {
            value = first % 128 + high;
            long += high / 16384;
            end += 1 + more as usize;
        }
        *word = value;
    }
    Shorts { end, long, words }
}

// Puts an attribute's row: its tag, and its fields.
fn put_attribute(sheet: &mut [u8], word: usize, tag: u64, fields: [u64; 6])
    requires { word + 8 < 2 ^ 64 }
    ensures { sheet.new ≡ put_words sheet.old word (tag ∷ fields) }
{
    sheet::put_word(sheet, word, tag);
    put_row(sheet, word + 1, &fields);
}

// Puts an attribute whose numbers are all short. No says nothing, and that nothing is put: the attribute is then read.
fn put_short(attribute: Entry, sheet: &mut [u8], word: usize) -> bool
    requires { word + length attribute.table.now + 8 ≤ 2 ^ 62 }
    ensures row { result ≡ true → (ws : List ℕ) × (attribute_row (bytes_of attribute.entry) ≡ got ws (attribute.entry.end - attribute.entry.start)) × (length ws ≡ 7) × (sheet.new ≡ put_words sheet.old word ws) }
    ensures sheet_unchanged { result ≡ false → sheet.new ≡ sheet.old }
{
    let data = attribute.table;
    let start = attribute.start;
    if data.len() - start < 13 {
        return false;
    }
    let tag = data[start];
    if 7 <= tag {
        return false;
    }
    let count = DebugTag::field_count(tag as u64);
    let fields = short_fields(data, start + 1, count);
    if attribute.end < fields.end {
        return false;
    }
    if 0 < fields.long {
        return false;
    }
    put_attribute(sheet, word, tag as u64, fields.words);
    true
}

// An attribute that the sheet has no word for, as in the pass that measures, is only looked at; one of short numbers is
// put at once; any other is read.
fn any_attribute(attribute: Entry, sheet: &mut [u8], word: usize) -> Result<Spot, Refused>
    requires { word + length attribute.table.now + 8 ≤ 2 ^ 62 }
    ensures { Row (attribute_row (bytes_of attribute.entry)) word sheet.old sheet.new result }
{
    let start = attribute.start;
    let end = attribute.end;
    let row = Spot {
        pos: end - start,
        word: word + 7,
        value: 0,
    };
    if sheet.len() / 8 <= word {
        if is_whole(attribute) {
            return Ok(row);
        }
    } else if put_short(attribute, sheet, word) {
        return Ok(row);
    }
    parse_attribute(&attribute.table[start..end], sheet, word)
}

// Attribute by attribute: its bounds are judged, and after them its fields are read. None is empty.
fn fill_attributes(
    payload: &[u8],
    attributes: Starts,
    sheet: &mut [u8],
    word: usize,
) -> Result<Spot, Refused>
    requires attributes_lie { Lies 4 payload.now attributes }
    requires payload_bound { word + 8 * length payload.now ≤ 2 ^ 60 }
    ensures { Row (words_of attribute_words (entries_by 1 attribute_at payload.now attributes)) word sheet.old sheet.new result }
{
    let count = attributes.count;
    let first = attributes.first;
    let base = attributes.data;
    let run = &payload[first..base];
    let data = &payload[base..];
    let mut next = word;
    let mut from = first_entry(run, Width::Four, data.len());
    for _ in 0..count {
        let behind = next_entry(run, Width::Four, data.len(), 1, from)?;
        let start = from.start.0;
        let entry = Entry {
            table: data,
            start,
            end: behind.start.0,
        };
        let row = raised(any_attribute(entry, sheet, next), base + start)?;
        next = row.word;
        from = behind;
    }
    Ok(Spot {
        pos: payload.len(),
        word: next,
        value: 0,
    })
}

// The ids of a list, a word for each. They stand in `ids`, eight bytes each.
fn put_ids(ids: &[u8], sheet: &mut [u8], start: IdPosition, end: IdPosition, at: usize)
    requires start_le_end { (start.0 ≤ end.0) × (end.0 * 8 ≤ length ids.now) }
    requires end_bound { at + end.0 < 2 ^ 63 }
    ensures { sheet.new ≡ put_words sheet.old at (drop start.0 (nums end.0 8 ids.now)) }
{
    let first = start.0 * 8;
    put_numbers(&ids[first..], 8, end.0 - start.0, sheet, at);
}

// List by list: its bounds are judged, and its row is put: how many ids it has, and the ids.
fn fill_lists(
    payload: &[u8],
    lists: Starts,
    ids: Starts,
    sheet: &mut [u8],
    at: Spot,
) -> Result<Spot, Refused>
    requires lists_lie { Lies 4 payload.now lists }
    requires ids_lie { Lies 8 payload.now ids }
    requires payload_bound { at.word + 3 * length payload.now + 8 ≤ 2 ^ 62 }
    ensures { Row (list_rows at.pos (cuts (numbers_in 4 payload.now lists) (numbers_in 8 payload.now ids))) at.word sheet.old sheet.new result }
{
    let rows = lists.count;
    let first = lists.first;
    let base = lists.data;
    let run = &payload[first..base];
    let count = ids.count;
    let first_id = ids.first;
    let last_id = ids.data;
    let numbers = &payload[first_id..last_id];
    let mut word = at.word;
    let mut from = first_list(run, count);
    for _ in 0..rows {
        let behind = next_list(run, count, from)?;
        let start = from.start;
        let end = behind.start;
        let size = end.0 - start.0;
        sheet::put_word(sheet, word, size as u64);
        put_ids(numbers, sheet, start, end, word + 1);
        word += size + 1;
        from = behind;
    }
    Ok(Spot {
        pos: at.pos,
        word,
        value: 0,
    })
}

// All arrays come first. The attributes are judged before the lists.
pub fn parse_debug_section(part: Part, sheet: &mut [u8]) -> DebugRead
    ensures { DebugFills part.entry.at (debug_at part.entry.payload.now 0) sheet.old sheet.new result }
{
    let payload = part.payload;
    let lists = parse_array(payload, Reader { pos: 0 }, Width::Four)?;
    let ids = parse_array(payload, Reader { pos: lists.data }, Width::Eight)?;
    let attributes = parse_array(payload, Reader { pos: ids.data }, Width::Four)?;
    let next = fill_attributes(payload, attributes, sheet, part.at.words)?;
    let last = fill_lists(payload, lists, ids, sheet, next)?;
    Ok(DebugFilled {
        attributes: attributes.count,
        lists: lists.count,
        filled: Filled {
            words: last.word,
            bytes: part.at.bytes,
        },
    })
}
