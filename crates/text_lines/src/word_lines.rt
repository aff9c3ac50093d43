//! Lines that are made of words and numbers.

ghost use Rattle.std.specs.Prelude.{◌≡◌, ◌≤◌, ◌+◌, ◌++◌, length};
ghost use Rattle.text_lines.specs.Spelling.{spaced, ended};

use crate::line::Line;

/// Puts the word before a line.
#[inline(always)]
pub fn put_word(line: &mut Line, word: &[u8])
    requires { length line.old + length word.now ≤ 128 }
    ensures { line.new ≡ word.now ++ line.old }
{
    line.word(word);
}

/// The line of this one word, which has its LF.
pub fn word_line(word: &[u8]) -> Line
    requires { length word.now ≤ 128 }
    ensures { result ≡ word.now }
{
    let mut line = Line::new();
    put_word(&mut line, word);
    line
}

/// The line of a word and a number.
pub fn with_number(word: &[u8], number: u64) -> Line
    requires { length word.now ≤ 32 }
    ensures { result ≡ word.now ++ ended number }
{
    let mut line = Line::new();
    line.byte(b'\n');
    line.number(number);
    put_word(&mut line, word);
    line
}

/// The line of a word and two numbers.
pub fn with_numbers(word: &[u8], first: u64, second: u64) -> Line
    requires { length word.now ≤ 32 }
    ensures { result ≡ word.now ++ (spaced first ++ ended second) }
{
    let mut line = Line::new();
    line.byte(b'\n');
    line.number(second);
    line.byte(b' ');
    line.number(first);
    put_word(&mut line, word);
    line
}
