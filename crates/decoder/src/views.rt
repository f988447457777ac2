// The view of a row: the whole file is judged first, and then the row is found in the payload of its section.
ghost use Rattle.enums.specs.Numbered.{id_of};
ghost use Rattle.decoder.specs.Views.{rows_of, FindsRow, RowPost};

use crate::measure;
use container::View;
use container::sections::Stopped;
use entries::places::Place;
use enums::{Refusal, Section};
use reading::Refused;

// The view of the row that `find` finds in the payload of a section.
pub fn row<F: FnOnce(&[u8], u64) -> Result<Option<Place>, Refused>>(
    file: &[u8],
    section: Section,
    index: u64,
    find: F,
) -> Result<View, Stopped>
    requires callable { F.IsAlwaysCallable find }
    requires finds { FindsRow (F.post find) section index }
    ensures { RowPost (rows_of section) (id_of section) file.now index result }
{
    measure(file)?;
    let payload = container::section(file, section.id() as u64)?;
    let start = payload.start;
    let end = start + payload.len;
    match find(&file[start..end], index) {
        Ok(Some(row)) => Ok(View {
            start: start + row.start,
            len: row.len,
        }),
        Ok(None) => Err(Stopped::call(Refusal::Absent)),
        // A table of a file that is accepted is not refused.
        Err(_) => unreachable!(),
    }
}
