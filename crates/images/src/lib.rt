// The image of a handed sheet (document 01, "The sheet", the paragraph "Writer"): the sheet is judged, its image measured,
// and put section by section. Limits of what is handed are the crate `writer`'s.
#![tactic(auto)]

mod container;
mod fields;
mod judged;
mod put;
mod rows;
mod sections;
mod source;
mod starts;
mod tables;
mod types;

ghost use Rattle.std.specs.Prelude.{◌≡◌, length};
ghost use Rattle.format.specs.Judge.{with_pool};
ghost use Rattle.format.specs.Write.{imaged, blank};
ghost use Rattle.judge.specs.Judge.{judged_bytes};
ghost use Rattle.images.specs.Written.{image_size, length_of, in_room, with_image};

use enums::Refusal;

// The length of the image of a handed sheet. Lent no pool, so that word 4 is compared with the row sum only.
#[tactic(auto, using(crate::proofs::LawsHanded::handed))]
pub fn image(sheet: &[u8]) -> Result<usize, Refusal>
    ensures { image_size result ≡ length_of (imaged (blank (judged_bytes sheet.now))) }
{
    let judged = judge::judge(sheet).ok_or(Refusal::Sheet)?;
    judged::image_length(sheet, judged, &[])
}

// The image of a handed sheet and its pool. A refused call has written nothing: all is judged and measured before.
pub fn write(sheet: &[u8], pool: &[u8], out: &mut [u8]) -> Result<usize, Refusal>
    ensures result_value { image_size result ≡ in_room (length out.old) (imaged (with_pool pool.now (judged_bytes sheet.now))) }
    ensures out_after { out.new ≡ with_image out.old (imaged (with_pool pool.now (judged_bytes sheet.now))) }
{
    let judged = judge::judge(sheet).ok_or(Refusal::Sheet)?;
    if judged.pool != pool.len() as u64 {
        return Err(Refusal::Sheet);
    }
    judged::write_judged(sheet, judged, pool, out)
}
