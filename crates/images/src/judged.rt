// Writing a judged sheet: every refusal but the judge's is found, and the image is put only if it has room.
#![tactic(auto, using(crate::proofs::LawsJudged::writings))]

ghost use Rattle.images.specs.Written.{ImageTold, JudgedWritten};

use crate::container::put_image;
use crate::source::Source;
use crate::starts::starts_fit;
use enums::Refusal;
use judge::Judged;

// The most bytes of an image, and of a pool whose image can be as short: an image is at least a third of its pool, so
// that one that is longer is told before anything is added up.
const MOST_BYTES: usize = 0x4000_0000;

const MOST_POOL: u64 = 0xC000_0000;

// How long the image of a judged sheet is: 1 where it is over its limit, but 13 where a start does not fit. All starts
// fit in an image within the limit.
pub fn image_length(sheet: &[u8], judged: Judged, pool: &[u8]) -> Result<usize, Refusal>
    ensures { ImageTold sheet.now judged result }
{
    let source = Source {
        sheet,
        pool,
        class: judged.class,
    };
    if judged.pool <= MOST_POOL {
        let size = put_image(&source, &mut []);
        if size <= MOST_BYTES {
            return Ok(size);
        }
    }
    if starts_fit(&source) {
        Err(Refusal::Limit)
    } else {
        Err(Refusal::Start)
    }
}

// Writes the image of a judged sheet and its pool: 11 where the output is smaller.
pub fn write_judged(
    sheet: &[u8],
    judged: Judged,
    pool: &[u8],
    out: &mut [u8],
) -> Result<usize, Refusal>
    ensures { JudgedWritten sheet.now judged pool.now out.old out.new result }
{
    let size = image_length(sheet, judged, pool)?;
    if out.len() < size {
        return Err(Refusal::Full);
    }
    let source = Source {
        sheet,
        pool,
        class: judged.class,
    };
    put_image(&source, out);
    Ok(size)
}
