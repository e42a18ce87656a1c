//! What a run is given.

use crate::escapes::add_unescaped;
use std::alloc::{AllocError, Global};

/// The words of a run, its one file, its conversations and its moments, and which calls, counted
/// from 1, fail.
pub struct Row {
    pub words: Vec<String>,
    /// The name of the file.
    pub file: String,
    /// The bytes of the file.
    pub bytes: Vec<u8>,
    /// What the conversations before the last one send.
    pub earlier: Vec<Vec<u8>>,
    /// What the last conversation sends.
    pub stream: Vec<u8>,
    /// The moments that the clock gives, of which the last repeats.
    pub moments: Vec<u64>,
    /// The most bytes that a read or a write takes, at least 1.
    pub piece: usize,
    /// Whether a conversation ends after one reply.
    pub one: bool,
    /// Whether the rows that the keeper visits are counted.
    pub counts_visits: bool,
    /// Whether what the keeper is asked about rows is written down.
    pub writes_asked: bool,
    /// The name of a table without columns that the keeper has been shaped by, or nothing.
    pub kept: String,
    /// The last number that this table gave, 0 at first.
    pub last: u32,
    pub file_fails: Vec<u64>,
    pub sink_fails: Vec<u64>,
    pub door_fails: Vec<u64>,
    pub keeper_fails: Vec<u64>,
}

// By hand, so that it is called: what is derived is opened wherever a value may end, which costs
// proofs seconds each time.
impl Drop for Row {
    fn drop(self) {
        let Row {
            words: _,
            file: _,
            bytes: _,
            earlier: _,
            stream: _,
            moments: _,
            piece: _,
            one: _,
            counts_visits: _,
            writes_asked: _,
            kept: _,
            last: _,
            file_fails: _,
            sink_fails: _,
            door_fails: _,
            keeper_fails: _,
        } = self;
    }
}

impl Row {
    /// No words, an empty file without a name, one empty conversation, a clock that gives 0, and a
    /// keeper without a schema. Nothing fails.
    pub fn new(alloc: Global) -> Row {
        Row {
            words: Vec::new(alloc),
            file: String::new(alloc),
            bytes: Vec::new(alloc),
            earlier: Vec::new(alloc),
            stream: Vec::new(alloc),
            moments: Vec::new(alloc),
            piece: 4096,
            one: false,
            counts_visits: false,
            writes_asked: false,
            kept: String::new(alloc),
            last: 0,
            file_fails: Vec::new(alloc),
            sink_fails: Vec::new(alloc),
            door_fails: Vec::new(alloc),
            keeper_fails: Vec::new(alloc),
        }
    }

    /// Sets what a line says, and answers whether it says anything. `bytes` and `stream` add to
    /// what is there, and with `*N` behind them N times; `next` begins another conversation.
    pub fn set(&mut self, alloc: Global, key: &str, text: &str) -> Result<bool, AllocError> {
        let (key, count) = key_and_count(key);
        match key {
            "words" => self.words = words(alloc, text)?,
            "file" => self.begin_file(alloc, text)?,
            "bytes" => add_times(alloc, &mut self.bytes, text, count)?,
            "stream" => add_times(alloc, &mut self.stream, text, count)?,
            "next" => self.begin_next(alloc)?,
            "moments" => self.moments = numbers(alloc, text)?,
            "piece" => self.piece = text.parse::<usize>().unwrap_or(1).max(1),
            "one" => self.one = true,
            "visits" => self.counts_visits = true,
            "asked" => self.writes_asked = true,
            "file_fails" => self.file_fails = numbers(alloc, text)?,
            "sink_fails" => self.sink_fails = numbers(alloc, text)?,
            "door_fails" => self.door_fails = numbers(alloc, text)?,
            "keeper_fails" => self.keeper_fails = numbers(alloc, text)?,
            "kept" => self.kept = String::from_str(alloc, text)?,
            "last" => self.last = text.parse::<u32>().unwrap_or(0),
            _ => return Ok(false),
        }
        Ok(true)
    }

    /// Names the file, which has no bytes yet.
    fn begin_file(&mut self, alloc: Global, name: &str) -> Result<(), AllocError> {
        self.file = String::from_str(alloc, name)?;
        self.bytes.clear();
        Ok(())
    }

    /// Begins another conversation.
    fn begin_next(&mut self, alloc: Global) -> Result<(), AllocError> {
        self.earlier.push(Vec::from_slice(alloc, &self.stream)?)?;
        self.stream.clear();
        Ok(())
    }
}

/// A key and how often it counts: `bytes*65`, and `bytes` once.
fn key_and_count(key: &str) -> (&str, usize) {
    match key.split_once('*') {
        Some((key, count)) => (key, count.parse::<usize>().unwrap_or(0)),
        None => (key, 1),
    }
}

fn words(alloc: Global, text: &str) -> Result<Vec<String>, AllocError> {
    let mut words = Vec::new(alloc);
    for word in text.split_whitespace() {
        words.push(String::from_str(alloc, word)?)?;
    }
    Ok(words)
}

fn numbers(alloc: Global, text: &str) -> Result<Vec<u64>, AllocError> {
    let mut numbers = Vec::new(alloc);
    for word in text.split_whitespace() {
        numbers.push(word.parse::<u64>().unwrap_or(0))?;
    }
    Ok(numbers)
}

/// Adds the text so often, in which `\#` is each time's number, from 1.
fn add_times(
    alloc: Global,
    bytes: &mut Vec<u8>,
    text: &str,
    count: usize,
) -> Result<(), AllocError> {
    for number in 0..count {
        add_unescaped(alloc, bytes, text, number + 1)?;
    }
    Ok(())
}
