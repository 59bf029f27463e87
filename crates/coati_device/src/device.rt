use crate::cursor::Cursor;
use crate::readings::Readings;
use crate::waiting::Waiting;
use nv_memory::Image;
use serial_log::History;
use word_cpu::Cpu;

/// What the executor is about. A cut of power makes it `Choose`.
#[derive(Drop)]
pub enum Phase {
    /// Memory alone tells what is next.
    Choose,
    /// The machine runs a body, and makes so many steps at most before the one that ends it.
    Run(Cpu, u32),
    /// The body of the task to run has ended, and the program goes on at this place.
    End(u16),
    /// The bottom half of the oldest held posting has ended.
    EndBottom,
}

/// A device. Its memory outlives cuts of power, its phase doesn't; all else is the observer's.
#[derive(Drop)]
pub struct Device {
    pub image: Image,
    pub phase: Phase,
    /// Machine steps made.
    pub clock: u32,
    /// Those of the executor.
    pub steps: u32,
    /// How many boots there were.
    pub boots: u32,
    /// The machine steps left of the present power period; 0 where the power stays.
    pub until: u32,
    pub history: History,
    /// How many postings were accepted.
    pub accepted: u32,
    /// Where each device is in the script.
    pub cursors: [Cursor; 8],
    /// What the attempt under way has read.
    pub attempt: Readings,
    /// What the finished tasks of the open transaction have read.
    pub unit: Readings,
    /// What the events of the held postings have read, in mode `buffi`.
    pub waiting: Waiting,
    /// How many tasks of the open transaction are finished.
    pub finished: u32,
    /// The machine steps that there is room for.
    pub spare: u32,
}
