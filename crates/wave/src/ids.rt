// The ids of a file and its chunks, as numbers of four bytes: `RIFF`, `WAVE`, `fmt `, `fact` and `data`.

pub const RIFF: u32 = 0x4646_4952;

pub const WAVE: u32 = 0x4556_4157;

pub const FORMAT: u32 = 0x2074_6d66;

pub const FACT: u32 = 0x7463_6166;

pub const DATA: u32 = 0x6174_6164;
