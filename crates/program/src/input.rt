// What is read of a source.
ghost use Rattle.program.specs.Reads.{Taken, taken-once};

// What was read of a source: the number of the source, and its bytes.
#[derive(Clone, Copy)]
pub struct Input<'a> {
    pub source: usize,
    pub bytes: &'a [u8],
    pub ghost is_taken: { Taken source bytes.now } by { taken-once source bytes.now },
}

// A source could not be read, which has been said on standard error.
#[derive(Clone, Copy, PartialEq, Eq)]
pub struct NotRead;

// A source that was read, or could not be.
pub type Reading<'a> = Result<Input<'a>, NotRead>;
