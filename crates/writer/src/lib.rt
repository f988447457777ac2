// The container writer: a handed sheet and its pool are held to their limits (document 01, "Refusal numbers": "1 for
// sheet and pool"), and their image is made.
#![tactic(auto)]

ghost use Rattle.writer.specs.Written.{WritePost, ImagePost};

use enums::Refusal;

// A sheet of more words, or a pool of more bytes, is refused.
pub const MOST_WORDS: usize = 67108864;

pub const MOST_BYTES: usize = 1073741824;

// The length of the image of a handed sheet. Lent no pool, so that word 4 is compared with the row sum only.
pub fn image(sheet: &[u8]) -> Result<usize, Refusal>
    ensures { ImagePost sheet.now result }
{
    if MOST_WORDS < sheet.len() / 8 {
        return Err(Refusal::Limit);
    }
    images::image(sheet)
}

// The image of a handed sheet and its pool. A refused call has written nothing.
pub fn write(sheet: &[u8], pool: &[u8], out: &mut [u8]) -> Result<usize, Refusal>
    ensures { WritePost sheet.now pool.now out.old out.new result }
{
    if MOST_WORDS < sheet.len() / 8 {
        return Err(Refusal::Limit);
    }
    if MOST_BYTES < pool.len() {
        return Err(Refusal::Limit);
    }
    images::write(sheet, pool, out)
}
