// The stepping program: reads call lines on standard input to its end, starting from fresh tables, and writes an answer
// line for each. What it holds does not grow with the input: of an unfinished line it keeps only as much as tells that a
// longer line is no frame.
#![tactic(auto)]

ghost use Rattle.std.specs.Prelude.{◌≤◌, T, length, take, OnOk, IfOk};
ghost use Rattle.rules.specs.Layout.{sound_words};
ghost use Rattle.stepping.specs.Answered.{Answered, Turned, AllAnswered, WritesSession};
ghost use Rattle.stepping.specs.Kept.{most_kept, Whole, Moved};

use std::io;
use std::io::{Read, Write};

const LINE_FEED: u8 = 10;

// A frame has 29 bytes, so what follows the first 30 of a line makes no frame of it.
const MOST_KEPT: usize = 30;

// How many bytes the input's buffer and the answers' room have each: enough that a call of the system moves thousands of
// lines.
const BUFFER_LENGTH: usize = 65536;

// The tables that answer, and room for answers on their way to the output.
#[derive(Drop)]
struct Answerer {
    words: [u64; 1410],
    room: [u8; BUFFER_LENGTH],
    ghost sound: { T (sound_words words) },
}

impl Answerer {
    // Answers the lines of a text as often as the room has to be emptied. It stops where the answers cannot be written.
    fn answer<W: Write>(&mut self, output: &mut W, text: &[u8]) -> io::Result<()>
        ensures { OnOk result (Answered self.old.words text.now (W.contents output.old) self.new.words (W.contents output.new)) }
    {
        // No `for`: each run says how many bytes its lines had.
        let mut at = 0;
        while at < text.len() {
            let ran = runs::run(&mut self.words, &text[at..], &mut self.room);
            let filled = 19 * ran.lines;
            output.write_all(&self.room[..filled])?;
            at += ran.used;
        }
        Ok(())
    }
}

// How many bytes the whole lines of a text have: those up to its last line feed.
fn whole_length(text: &[u8]) -> usize
    ensures { Whole text.now result }
{
    text.iter()
        .rposition(|b| *b == LINE_FEED)
        .map_or(0, |i| i + 1)
}

// What is read of the input and not answered yet: an unfinished line, at the buffer's front. An array and a count, and no
// `Vec`: the memory is fixed.
#[derive(Drop)]
struct Unfinished {
    buffer: [u8; BUFFER_LENGTH],
    kept: usize,
    ghost few: { kept ≤ most_kept },
}

impl Unfinished {
    // Moves the bytes of an unfinished line to the front, or its first thirty.
    fn keep(&mut self, from: usize, end: usize)
        requires { (from ≤ end) × (end ≤ length self.old.buffer) }
        ensures { Moved self.old.buffer from end self.new.kept self.new.buffer }
    {
        self.kept = (end - from).min(MOST_KEPT);
        self.buffer.copy_within(from..from + self.kept, 0);
    }

    // Reads once behind what is kept, and has the lines answered that are whole then. An unfinished line at the input's end
    // is a line too. Tells whether the input may go on.
    fn turn<R: Read, W: Write>(
        &mut self,
        input: &mut R,
        output: &mut W,
        answerer: &mut Answerer,
    ) -> io::Result<bool>
        ensures { IfOk result (λ more. Turned more answerer.old.words (take self.old.kept self.old.buffer)
            (R.remaining input.old) (W.contents output.old) answerer.new.words
            (take self.new.kept self.new.buffer) (R.remaining input.new) (W.contents output.new)) }
    {
        let more = input.read(&mut self.buffer[self.kept..])?;
        if more == 0 {
            answerer.answer(output, &self.buffer[..self.kept])?;
            return Ok(false);
        }
        let end = self.kept + more;
        let whole = whole_length(&self.buffer[..end]);
        answerer.answer(output, &self.buffer[..whole])?;
        self.keep(whole, end);
        Ok(true)
    }
}

// Takes turns to the input's end. A proved loop has to end, and nothing says that an input does: so it counts its turns
// up to a number that no run reaches.
fn serve<R: Read, W: Write>(
    input: &mut R,
    output: &mut W,
    answerer: &mut Answerer,
    unfinished: &mut Unfinished,
) -> io::Result<()>
    ensures { OnOk result (AllAnswered answerer.old.words (take unfinished.old.kept unfinished.old.buffer)
        (R.remaining input.old) (W.contents output.old) answerer.new.words
        (W.contents output.new)) }
{
    for _ in 0..u64::MAX {
        if !unfinished.turn(input, output, answerer)? {
            return Ok(());
        }
    }
    Ok(())
}

// Writes the session of its input: from fresh tables, with nothing kept.
fn session<R: Read, W: Write>(input: &mut R, output: &mut W) -> io::Result<()>
    ensures { OnOk result (WritesSession (R.remaining input.old) (W.contents output.old) (W.contents output.new)) }
{
    let mut words = [0u64; 1410];
    ends::fresh(&mut words);
    let mut answerer = Answerer {
        words,
        room: [0; BUFFER_LENGTH],
    };
    let mut unfinished = Unfinished {
        buffer: [0; BUFFER_LENGTH],
        kept: 0,
    };
    serve(input, output, &mut answerer, &mut unfinished)
}

fn main(rt: HostRuntime) -> io::Result<()> {
    session(&mut rt.stdin(), &mut rt.stdout())
}
