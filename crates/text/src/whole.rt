// A text that is written whole, or not at all.
ghost use Rattle.std.specs.Prelude.{List, ◌≡◌, ◌≤◌, ◌<◌, ◌^◌, ℕ, length, IfOk};
ghost use Rattle.std.specs.Result.{MatchResult};
ghost use Rattle.text.specs.Put.{Put};
ghost use Rattle.text.specs.Whole.{printed, length_of, text_or_refusal};

use crate::writer::Writer;
use refusals::Refusal;

// What has a text of some lines.
pub trait Lines {
    // What the lines are made from is there; the text.
    ghost are_there: { Self → Type 0 };

    ghost text: { Self → List ℕ };

    fn write(&self, writer: &mut Writer<'_>)
        requires { are_there self.now }
        ensures { Put writer.old (text self.now) writer.new };
}

// The line of a refusal stands in place of the lines of a sheet that is refused.
impl<T: Lines> Lines for Result<T, Refusal> {
    ghost are_there = { λ r. IfOk r T.are_there };

    ghost text = { text_or_refusal T.text };

    fn write(&self, writer: &mut Writer<'_>) {
        match self {
            Ok(lines) => lines.write(writer),
            Err(refusal) => writer.refusal(*refusal),
        }
    }
}

// Writes a text at the front of a buffer that it fits, and returns its length. Where this is more than the buffer has, the buffer is left as it
// is, and the length is an error: so it comes first, from the same code with a buffer of no byte.
pub fn write_whole<T: Lines>(lines: &T, out: &mut [u8]) -> Result<usize, usize>
    requires { T.are_there lines.now × (length (T.text lines.now) < 2 ^ 64) }
    ensures text { out.new ≡ printed (T.text lines.now) out.old }
    ensures length { length_of result ≡ length (T.text lines.now) }
    ensures answer { MatchResult result (λ n. n ≤ length out.old) (λ n. length out.old < n) }
{
    let mut none = [0u8; 0];
    let mut counter = Writer::new(&mut none);
    lines.write(&mut counter);
    let length = counter.place();
    if out.len() < length {
        return Err(length);
    }
    let mut writer = Writer::new(out);
    lines.write(&mut writer);
    Ok(length)
}

// The length of a text, whether it was written or did not fit.
pub fn length_of(written: Result<usize, usize>) -> usize
    ensures { result ≡ length_of written }
{
    match written {
        Ok(length) | Err(length) => length,
    }
}
