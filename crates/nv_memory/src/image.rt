ghost use Rattle.std.specs.Prelude.{◌≡◌, ◌<◌, ◌≤◌, IfOk, length, slice_index};
ghost use Rattle.nv_memory.specs.Blank.{blank, blank_words, header_words};
ghost use Rattle.nv_memory.specs.Seats.{IsMemory, IsSized, size, written};
ghost use Rattle.nv_memory.specs.State.{state};

use crate::header;
use crate::layout::Layout;
use crate::write::Write;
use coati_word::{Mode, OutOfMemory};
use std::alloc::{AllocError, Global};
use std::marker::Model;

/// Nonvolatile memory. A contract sees the list of its words, and how many are variables and
/// entries; what stands in them is its state.
#[derive(Drop)]
pub struct Image {
    layout: Layout,
    words: Vec<u16>,
}

impl Model for Image {
    ghost use Rattle.nv_memory.specs.Seats.{IsMemory, Memory};

    ghost Value = { Memory };

    ghost view = { λ i. record { n = i.layout.n; k = i.layout.k; words = i.words.items } };

    ghost invariant = { λ i. IsMemory (record {
      n = i.layout.n;
      k = i.layout.k;
      words = i.words.items;
    }) };
}

impl Image {
    /// Memory with these variables before the first step, for `k` postings.
    pub fn blank(alloc: Global, opening: &[u16], k: u16, mode: Mode) -> Result<Image, OutOfMemory>
        requires some { 1 ≤ length opening.now }
        requires few { length opening.now ≤ 256 }
        requires some_entries { 1 ≤ k }
        requires few_entries { k ≤ 32 }
        ensures { IfOk result (λ image. state image ≡ blank opening.now k mode) }
    {
        let layout = Layout {
            n: opening.len() as u16,
            k,
        };
        let words = blank_words(alloc, layout, opening, mode)?;
        Ok(Image { layout, words })
    }

    /// The word at an address.
    pub fn get(&self, at: u16) -> u16
        requires { at < size self.now.n self.now.k }
        ensures { result ≡ slice_index self.now.words at }
    {
        self.words[at as usize]
    }

    /// Writes one word.
    pub fn put(&mut self, write: Write)
        requires { write.at < size self.old.n self.old.k }
        ensures { self.new ≡ written self.old write }
    {
        self.words[write.at as usize] = write.word;
    }

    /// How many words there are.
    pub fn size(&self) -> u16
        ensures { result ≡ size self.now.n self.now.k }
    {
        self.words.len() as u16
    }

    /// Where the words lie.
    pub fn layout(&self) -> Layout
        ensures layout { result ≡ record { n = self.now.n; k = self.now.k } }
        ensures memory { IsMemory self.now }
    {
        let _words = &self.words;
        self.layout
    }
}

fn blank_words(
    alloc: Global,
    layout: Layout,
    opening: &[u16],
    mode: Mode,
) -> Result<Vec<u16>, AllocError>
    requires sizes { IsSized layout.n layout.k }
    requires count { layout.n ≡ length opening.now }
    ensures { IfOk result (λ v. v.items ≡ blank_words layout.k opening.now mode) }
{
    let size = layout.size() as usize;
    let mut words = Vec::with_capacity(alloc, size)?;
    words.extend_from_slice(&header_words(mode))?;
    words.extend_from_slice(opening)?;
    words.resize(size, 0)?;
    Ok(words)
}

fn header_words(mode: Mode) -> [u16; 12]
    ensures { result ≡ header_words mode }
{
    let mut words = [0; 12];
    words[header::MODE as usize] = match mode {
        Mode::Split => 0,
        Mode::Buffi => 1,
    };
    words
}
