// What the payload readers answer, and how far the two stores are filled.
ghost use Rattle.std.specs.Prelude.{◌≡◌, ◌+◌, ◌^◌, ◌<◌};
ghost use Rattle.std.specs.Result.{IfErr};
ghost use Rattle.payloads.specs.Answers.{raised_answer, staged_answer};

use container::sections::Stopped;
use enums::Stage;
use reading::Refused;

// The next word of the sheet, and the next byte of the pool.
#[derive(Clone, Copy)]
pub struct Filled {
    pub words: usize,
    pub bytes: usize,
}

// What the reader of a table answers: how many rows it has, and how far the stores are filled with them.
pub type TableRead = Result<(usize, Filled), Refused>;

// The answer of a part that begins at `start`: the place of a refusal counts from the first byte of the whole.
pub fn raised<T>(answer: Result<T, Refused>, start: usize) -> Result<T, Refused>
    requires { IfErr answer (λ x. start + x.at < 2 ^ 64) }
    ensures { result ≡ raised_answer start answer }
{
    answer.map_err(|x| Refused {
        refusal: x.refusal,
        at: start + x.at,
    })
}

// The answer at a stage of the file.
pub fn staged<T>(answer: Result<T, Refused>, stage: Stage) -> Result<T, Stopped>
    ensures { result ≡ staged_answer stage answer }
{
    answer.map_err(|x| Stopped::at_stage(x, stage))
}
