// decoder.rs: reads a file of Tile IR bytecode.
#![tactic(auto)]

mod views;

ghost use Rattle.enums.specs.Container.{string_id, constant_id, func_id};
ghost use Rattle.format.specs.Views.{strings_in, constants_in, bodies_in};
ghost use Rattle.decoder.specs.File.{MeasurePost, ReadPost};
ghost use Rattle.decoder.specs.Views.{RowPost};

use container::View;
use container::sections::Stopped;
use entries::places::{body_place, constant_place, string_place};
use enums::Section;
pub use payloads::Need;

// How large the stores have to be.
pub fn measure(file: &[u8]) -> Result<Need, Stopped>
    ensures { MeasurePost file.now result }
{
    payloads::measure(file)
}

// The tables of a file as a sheet and a pool.
pub fn read(file: &[u8], sheet: &mut [u8], pool: &mut [u8]) -> Result<Need, Stopped>
    ensures { ReadPost file.now sheet.old sheet.new pool.old pool.new result }
{
    payloads::read(file, sheet, pool)
}

// The view of a string: its bytes in the file.
pub fn string(file: &[u8], index: u64) -> Result<View, Stopped>
    ensures { RowPost strings_in string_id file.now index result }
{
    views::row(file, Section::String, index, string_place)
}

// The view of a constant.
pub fn constant(file: &[u8], index: u64) -> Result<View, Stopped>
    ensures { RowPost constants_in constant_id file.now index result }
{
    views::row(file, Section::Constant, index, constant_place)
}

// The view of a function's body.
pub fn body(file: &[u8], index: u64) -> Result<View, Stopped>
    ensures { RowPost bodies_in func_id file.now index result }
{
    views::row(file, Section::Func, index, body_place)
}
