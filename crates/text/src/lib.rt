// Text put into a lent buffer. The pen tells where the next byte is put, or, to measure, how much room is left: what
// fills a buffer also measures, and both stop as soon as the room is used up.
#![tactic(auto)]

pub mod numbers;

ghost use Rattle.std.specs.Prelude.{[], ◌∷◌};
ghost use Rattle.text.specs.Text.{Put};
ghost use Rattle.text.specs.declared.Pen.TheVariants.{At};

// Where the next byte is put; or how much room is left, where nothing is put; `Full` where some text had no room. A
// cursor by value: each method is lent the buffer, and answers the pen behind what it puts. A full pen is handed on like
// the others, and puts nothing, so that a text is one chain.
#[derive(Clone, Copy)]
pub enum Pen {
    At(usize),
    Counting(usize),
    Full,
}

// Puts as much of a text as has room at a place.
fn put_at(out: &mut [u8], at: usize, text: &[u8]) -> Pen
    ensures { Put text.now (At at) out.old out.new result }
{
    let left = out.len().saturating_sub(at);
    if left < text.len() {
        sheet::put_run(out, at, &text[..left]);
        return Pen::Full;
    }
    sheet::put_run(out, at, text);
    Pen::At(at + text.len())
}

impl Pen {
    // Puts a text, as the pen says.
    pub fn put_text(self, out: &mut [u8], text: &[u8]) -> Self
        ensures { Put text.now self out.old out.new result }
    {
        match self {
            Pen::At(at) => put_at(out, at, text),
            Pen::Counting(left) => match left.checked_sub(text.len()) {
                Some(rest) => Pen::Counting(rest),
                None => Pen::Full,
            },
            Pen::Full => Pen::Full,
        }
    }

    // Puts a byte.
    pub fn put_byte(self, out: &mut [u8], b: u8) -> Self
        ensures { Put (b ∷ []) self out.old out.new result }
    {
        self.put_text(out, &[b])
    }
}
