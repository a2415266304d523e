// The words of a line, one space between two.
ghost use Rattle.std.specs.Prelude.{◌≡◌, ◌↔◌, ◌==◌, ◌<◌, [], IfSome, IsSome, length, drop};
ghost use Rattle.std.specs.List.{position};
ghost use Rattle.std.specs.Option.{option_copied, option_map, option_and_then};
ghost use Rattle.cells.specs.Cells.{read_as};
ghost use Rattle.script.specs.Numbers.{count_of, size_of, cell_of, name_of};
ghost use Rattle.script.specs.Words.{words, left, next};

use crate::numbers;
use cells::cell::Record;
use layouts::side::Side;
use std::alloc::{AllocError, Global};

fn space(line: &[u8]) -> Option<usize>
    ensures place { result ≡ position (λ b. b == 32) line.now }
    ensures within { IfSome result (λ at. at < length line.now) }
{
    line.iter().position(|b| *b == b' ')
}

// What is left of a line: none once its last word was taken.
#[derive(Clone, Copy)]
pub struct Words<'a> {
    rest: Option<&'a [u8]>,
}

impl<'a> Words<'a> {
    pub fn of(line: &'a [u8]) -> Words<'a>
        ensures { left result ≡ words line.now }
    {
        Words { rest: Some(line) }
    }

    // The next word. Where two spaces stand together, or one at an end of the line, it is empty, and no word of the format is.
    pub fn word(&mut self) -> Option<&'a [u8]>
        ensures word { option_copied result ≡ next self.old }
        ensures others { left self.new ≡ drop 1 (left self.old) }
    {
        let rest = self.rest?;
        match space(rest) {
            Some(at) => {
                self.rest = Some(&rest[at + 1..]);
                Some(&rest[..at])
            }
            None => {
                self.rest = None;
                Some(rest)
            }
        }
    }

    pub fn count(&mut self) -> Option<usize>
        ensures count { result ≡ option_and_then count_of (next self.old) }
        ensures others { left self.new ≡ drop 1 (left self.old) }
    {
        numbers::count(self.word()?)
    }

    pub fn size(&mut self) -> Option<i64>
        ensures size { result ≡ option_and_then size_of (next self.old) }
        ensures others { left self.new ≡ drop 1 (left self.old) }
    {
        numbers::size(self.word()?)
    }

    pub fn cell(&mut self) -> Option<Record>
        ensures cell { option_map read_as result ≡ option_and_then cell_of (next self.old) }
        ensures others { left self.new ≡ drop 1 (left self.old) }
    {
        numbers::cell(self.word()?)
    }

    pub fn name(&mut self) -> Option<&'a [u8]>
        ensures name { option_copied result ≡ option_and_then name_of (next self.old) }
        ensures others { left self.new ≡ drop 1 (left self.old) }
    {
        let word = self.word()?;
        if numbers::is_name(word) {
            Some(word)
        } else {
            None
        }
    }

    pub fn side(&mut self) -> Option<Side>
        ensures { left self.new ≡ drop 1 (left self.old) }
    {
        match self.word()? {
            b"lower" => Some(Side::Lower),
            b"upper" => Some(Side::Upper),
            _ => None,
        }
    }

    // All words that are left, if each of them is a cell.
    pub fn cells(&mut self) -> Option<Words<'a>>
        ensures all { IfSome result (λ w. left w ≡ left self.old) }
        ensures others { left self.new ≡ [] }
    {
        let words = *self;
        if let Some(rest) = self.rest.take() {
            for word in rest.split(|b| *b == b' ') {
                numbers::cell(word)?;
            }
        }
        Some(words)
    }

    // All words that are left, if each of them is a count.
    pub fn counts(&mut self) -> Option<Words<'a>>
        ensures all { IfSome result (λ w. left w ≡ left self.old) }
        ensures others { left self.new ≡ [] }
    {
        let words = *self;
        if let Some(rest) = self.rest.take() {
            for word in rest.split(|b| *b == b' ') {
                numbers::count(word)?;
            }
        }
        Some(words)
    }

    // The cells of words that are cells.
    pub fn to_cells(self, heap: Global) -> Result<Vec<Record>, AllocError> {
        let mut cells = Vec::new(heap);
        if let Some(rest) = self.rest {
            for word in rest.split(|b| *b == b' ') {
                if let Some(cell) = numbers::cell(word) {
                    cells.push(cell)?;
                }
            }
        }
        Ok(cells)
    }

    // The counts of words that are counts.
    pub fn to_counts(self, heap: Global) -> Result<Vec<usize>, AllocError> {
        let mut counts = Vec::new(heap);
        if let Some(rest) = self.rest {
            for word in rest.split(|b| *b == b' ') {
                if let Some(count) = numbers::count(word) {
                    counts.push(count)?;
                }
            }
        }
        Ok(counts)
    }

    // That no word is left.
    pub fn end(self) -> Option<()>
        ensures { IsSome result ↔ (left self.entry ≡ []) }
    {
        match self.rest {
            None => Some(()),
            Some(_) => None,
        }
    }
}
