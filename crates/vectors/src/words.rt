// The words of a line.
ghost use Rattle.std.specs.Prelude.{length};
ghost use Rattle.std.specs.Iterator.{at_most};
ghost use Rattle.std.specs.Str.Iter.{split_whitespace_steps, split_whitespace_rest};

use crate::hex_text::{bytes_of, source};
use anyhow::Context;
use std::alloc::Global;
use std::error::Error;
use std::fmt::Display;
use std::str::{FromStr, SplitWhitespace};

// The words of a line that are to come, and the memory for what is made of them.
#[derive(Drop)]
pub struct Words<'a> {
    pub heap: Global,
    words: SplitWhitespace<'a>,
}

impl<'a> Words<'a> {
    pub fn of(heap: Global, line: &'a str) -> Words<'a> {
        let words = line.split_whitespace();
        Words { heap, words }
    }

    pub fn word(&mut self) -> anyhow::Result<&'a str> {
        self.next().context("a word is missing")
    }

    // Two hex digits.
    pub fn byte(&mut self) -> anyhow::Result<u8> {
        Ok(u8::from_str_radix(self.word()?, 16)?)
    }

    // Hex digits, as many as a DOUBLE's bits have.
    pub fn bits(&mut self) -> anyhow::Result<u64> {
        Ok(u64::from_str_radix(self.word()?, 16)?)
    }

    // A decimal number.
    pub fn number<N: FromStr>(&mut self) -> anyhow::Result<N>
    where
        N::Err: Error,
    {
        Ok(self.word()?.parse::<N>()?)
    }

    // A word of bytes in hex digits, `-` for none.
    pub fn bytes(&mut self) -> anyhow::Result<Vec<u8>> {
        bytes_of(self.heap, self.word()?)
    }

    // The same, or rule:N.
    pub fn source(&mut self) -> anyhow::Result<Vec<u8>> {
        source(self.heap, self.word()?)
    }

    // What is made of the words, as text.
    pub fn text<T: Display + Drop>(&self, made: T) -> anyhow::Result<String> {
        Ok(made.to_string(self.heap)?)
    }
}

impl<'a> Iterator for Words<'a> {
    type Item = &'a str;

    ghost next_gives = { λ s r t. split_whitespace_steps s.words r t.words };

    ghost remaining = { λ s. at_most (length (split_whitespace_rest s.words)) };

    fn next(&mut self) -> Option<&'a str> {
        self.words.next()
    }
}

// Whether a line says nothing: it is empty, or a remark. (Each file of cases has its own loop over the lines that say
// something: one function for all, given what to do as a closure, would be public with a `requires`.)
pub fn is_remark(line: &str) -> bool {
    line.is_empty() || line.starts_with('#')
}

// A line in its two halves: what is asked, and what is to come.
pub fn halves(line: &str) -> anyhow::Result<(&str, &str)> {
    line.split_once(" => ").context("a line has no =>")
}
