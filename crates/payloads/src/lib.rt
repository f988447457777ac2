// decoder.rs: the readers of the payloads that fill stores, and the two calls that pass over a file with them: one
// measures, one fills lent stores. These two calls are what can be called from outside.
#![tactic(auto)]

mod answers;
mod debug;
mod entry;
mod fields;
mod indices;
mod part;
mod pass;
mod rows;
mod source;
mod tables;
mod types;

ghost use Rattle.std.specs.Prelude.{◌≡◌};
ghost use Rattle.format.specs.Decode.{decode};
ghost use Rattle.format.specs.Read.{map_read};
ghost use Rattle.payloads.specs.Whole.{file_read, need_of, Reads};

use container::sections;
use container::sections::Stopped;
use enums::Refusal;
use pass::fill;
use source::Source;

// How many words the sheet of a file has, and how many bytes its pool.
#[derive(Clone, Copy, PartialEq, Eq)]
pub struct Need {
    pub words: usize,
    pub bytes: usize,
}

// How large the stores have to be: a pass over the file that is lent none.
pub fn measure(file: &[u8]) -> Result<Need, Stopped>
    ensures { file_read result ≡ map_read need_of (decode file.now) }
{
    let container = sections::read_container(file)?;
    let source = Source {
        file,
        container: &container,
    };
    fill(source, &mut [], &mut [])
}

// The tables of a file as a sheet and a pool. The first pass measures, on no store, so that a refused call has written
// nothing; the second one fills. Header and sections are read once for both.
pub fn read(file: &[u8], sheet: &mut [u8], pool: &mut [u8]) -> Result<Need, Stopped>
    ensures { Reads file.now sheet.old sheet.new pool.old pool.new result }
{
    let container = sections::read_container(file)?;
    let source = Source {
        file,
        container: &container,
    };
    let need = fill(source, &mut sheet[0..0], &mut pool[0..0])?;
    if sheet.len() / 8 < need.words || pool.len() < need.bytes {
        return Err(Stopped::call(Refusal::Full));
    }
    fill(source, sheet, pool)
}
