// Words in a lent byte store, little-endian, whole words only; and runs of bytes in a lent pool. What has no room is not
// stored, so that one function measures on an empty store and fills a large enough one.
#![tactic(auto)]

ghost use Rattle.std.specs.Prelude.{◌≡◌, ◌+◌, ◌≤◌, length, get_or};
ghost use Rattle.encoding.specs.Out.{put};
ghost use Rattle.sheet.specs.Store.{put_word, words_in};

use encoding::EncodingWriter;
use reading::Reader;

// Stores word i where the store has it, and else nothing. It lends the word's own eight bytes: the compiler sees that
// they have room.
pub fn put_word(store: &mut [u8], i: usize, w: u64)
    ensures { store.new ≡ put_word store.old i w }
{
    if i < store.len() / 8 {
        let start = i * 8;
        let end = start + 8;
        let _ = encoding::patch_u64(&mut store[start..end], 0, w);
    }
}

// Word i of the store; 0 where it has none.
pub fn word_at(store: &[u8], i: usize) -> u64
    ensures { result ≡ get_or (words_in store.now) i 0 }
{
    if store.len() / 8 <= i {
        return 0;
    }
    match (Reader { pos: i * 8 }).read_le_u64(store) {
        Err(_) => 0,
        Ok((w, _)) => w,
    }
}

// Stores a run of bytes at a place of the pool where it has room, and else nothing. Where the two do not overlap it is
// one memmove.
pub fn put_run(pool: &mut [u8], at: usize, run: &[u8])
    ensures { pool.new ≡ put pool.old at run.now }
{
    let writer = EncodingWriter {
        at,
        required_alignment: 1,
    };
    let _ = writer.write_bytes(pool, run);
}
