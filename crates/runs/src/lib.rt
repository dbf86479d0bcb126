// A text of many lines on sound words: each line is answered in turn, as long as the answers' room has a line left. That a text
// is not empty is a clause: no slice has a type for it.
#![tactic(auto)]

ghost use Rattle.std.specs.Prelude.{◌≡◌, ◌≤◌, ◌<◌, T, length, position};
ghost use Rattle.rules.specs.Layout.{sound_words};
ghost use Rattle.runs.specs.Cut.{FirstLine, is_line_feed};
ghost use Rattle.runs.specs.First.{BadFrame, FirstActed};
ghost use Rattle.runs.specs.Ran.{RanLines};
ghost use Rattle.runs.specs.Stepped.{Stepped};

use calls::{Answer, Refusal};
use frames::Digits;

const LINE_FEED: u8 = 10;

// How many bytes a frame has, its line feed among them.
const FRAME: usize = 29;

// How many bytes an answer's line has.
const ANSWER: usize = 19;

// How many lines were answered, and how many bytes of the text they were.
#[derive(Clone, Copy)]
pub struct Ran {
    pub lines: usize,
    pub used: usize,
}

// The answer to the first line of a text, and how many bytes the line has.
#[derive(Clone, Copy)]
struct Answered {
    answer: Answer,
    length: usize,
}

// The place of the first line feed of a text.
fn line_end(text: &[u8]) -> Option<usize>
    ensures { result ≡ position is_line_feed text.now }
{
    text.iter().position(|byte| *byte == LINE_FEED)
}

// How many bytes the first line of a text has, its line feed among them.
fn line_length(text: &[u8]) -> usize
    requires { 0 < length text.now }
    ensures { FirstLine text.now result }
{
    match line_end(text) {
        Some(last) => last + 1,
        None => text.len(),
    }
}

// What the first line of a text is given where it is no frame.
fn bad(text: &[u8]) -> Answered
    requires { 0 < length text.now }
    ensures { BadFrame text.now result }
{
    Answered {
        answer: Answer::refused(Refusal::BadFrame, 0),
        length: line_length(text),
    }
}

// Answers the first line of a text. Where the text begins with a frame, that is the line, and nothing looks for its end.
// What is read is asked at once: to hand it on from a function of its own costs as much as to read it.
fn first(digits: &Digits, words: &mut [u64], text: &[u8]) -> Answered
    requires { T (sound_words words.old) × (0 < length text.now) }
    ensures { FirstActed words.old text.now result words.new }
{
    let short = text.len() < FRAME;
    if short {
        return bad(text);
    }
    match digits.read(&text[..FRAME]) {
        Some(c) => Answered {
            answer: acts::call(words, c),
            length: FRAME,
        },
        None => bad(text),
    }
}

// Answers the first line of a text at the front of the room, and gives how many bytes the line has.
fn step(digits: &Digits, words: &mut [u64], text: &[u8], room: &mut [u8]) -> usize
    requires { T (sound_words words.old) × (0 < length text.now) × (19 ≤ length room.old) }
    ensures { Stepped words.old text.now room.old result words.new room.new }
{
    let line = first(digits, words, text);
    frames::write(room, line.answer);
    line.length
}

// Answers the lines of a text one after the other while the room has 19 bytes left.
pub fn run(words: &mut [u64], calls: &[u8], answers: &mut [u8]) -> Ran
    requires { T (sound_words words.old) }
    ensures { RanLines words.old calls.now answers.old result words.new answers.new }
{
    let digits = Digits::new();
    let mut lines = 0;
    let mut used = 0;
    // No `for`: each line says how many bytes it had.
    while used < calls.len() {
        let at = ANSWER * lines;
        if answers.len() < at + ANSWER {
            return Ran { lines, used };
        }
        used += step(&digits, words, &calls[used..], &mut answers[at..]);
        lines += 1;
    }
    Ran { lines, used }
}
