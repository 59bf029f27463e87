use crate::scratch::Scratch;
use coati_word::Message;
use word_cpu::Cpu;

/// Where a handler is.
#[derive(Drop)]
pub enum Hand {
    /// In the top half, which has these words for the variables.
    Top(Cpu, Scratch),
    /// At a part of the posting with this message, counted from 0.
    Fill(Message, u16),
    /// In the bottom half, in mode `buffi`.
    Bottom(Cpu),
    /// At the write that accepts the posting.
    Accept,
    /// Behind it.
    Over,
}
