//! Tables of cases. A line has the words of a case, a colon, and what it is given; a line without a colon is a heading.
ghost use Rattle.std.specs.Prelude.{◌<◌, ◌≤◌};

use std::io;

/// The cases of a table: the words of each, and behind them what a task tells of what it is given.
pub fn table<F: Fn(&str) -> io::Result<()>>(rt: &impl Print, lines: &str, task: F) -> io::Result<()>
    requires { F.IsAlwaysCallable task }
{
    for line in lines.lines() {
        match line.rsplit_once(':') {
            Some((case, given)) => {
                print!(rt; "  {case}: ")?;
                task(given)?;
            }
            None => print!(rt; "{line}")?,
        }
        println!(rt;)?;
    }
    Ok(())
}

// ---- what a case is given

/// A digit in hex.
fn digit(c: u8) -> u8
    ensures { result < 16 }
{
    match c {
        b'a'..=b'f' => c - b'a' + 10,
        _ => c % 16,
    }
}

/// A file of at most 300 bytes, and how many digits of it are there.
#[derive(Clone, Copy)]
pub struct File {
    bytes: [u8; 300],
    digits: usize,
    ghost inside: { digits ≤ 600 },
}

impl File {
    /// The file that is given in hex, z for eight bytes of 0 and y for seven.
    pub fn of(hex: &str) -> File {
        let mut file = File {
            bytes: [0; 300],
            digits: 0,
        };
        for c in hex.bytes() {
            match c {
                b' ' => {}
                b'z' => file.pass(16),
                b'y' => file.pass(14),
                _ => file.put(digit(c)),
            }
        }
        file
    }

    /// So many digits more, all 0.
    fn pass(&mut self, n: usize)
        requires { n ≤ 16 }
    {
        self.digits = (self.digits + n).min(600);
    }

    /// One digit more.
    fn put(&mut self, digit: u8)
        requires { digit < 16 }
    {
        if self.digits < 600 {
            let at = self.digits / 2;
            self.bytes[at] = self.bytes[at] % 16 * 16 + digit;
            self.digits += 1;
        }
    }

    pub fn bytes(&self) -> &[u8] {
        &self.bytes[..self.digits / 2]
    }
}

/// A list of at most 15 words.
#[derive(Clone, Copy)]
pub struct List {
    words: [u64; 15],
    len: usize,
    ghost inside: { len ≤ 15 },
}

impl List {
    /// The list whose words are given in hex, with a comma behind a record.
    pub fn of(given: &str) -> List {
        let mut list = List {
            words: [0; 15],
            len: 0,
        };
        for word in given.split_ascii_whitespace() {
            list.push(u64::from_str_radix(word.trim_end_matches(','), 16).unwrap_or(0));
        }
        list
    }

    fn push(&mut self, word: u64) {
        if self.len < 15 {
            self.words[self.len] = word;
            self.len += 1;
        }
    }

    pub fn words(&self) -> &[u64] {
        &self.words[..self.len]
    }
}
