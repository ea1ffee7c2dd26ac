// A case: 32 bytes of header, then the bytes of two blocks. All numbers are little-endian.
//
//   0  u32  the function
//   4  u32  the first block's length (a file, a source, bytes)
//   8  u32  the second block's length (a name, rows)
//  12  u32  the seed of what the lent buffers hold
//  16  u64  x (a row, a place, flags)
//  24  u64  y (a buffer's length, a number)
ghost use Rattle.std.specs.Prelude.{◌≡◌};
ghost use Rattle.vectors.specs.Frames.{frame_of, both_of};

#[derive(Clone, Copy)]
pub struct Frame {
    pub function: u32,
    pub first: u32,
    pub second: u32,
    pub seed: u32,
    pub x: u64,
    pub y: u64,
}

pub fn parse(header: &[u8]) -> Frame
    ensures { result ≡ frame_of header.now }
{
    Frame {
        function: le::read(header, 0),
        first: le::read(header, 4),
        second: le::read(header, 8),
        seed: le::read(header, 12),
        x: le::read(header, 16),
        y: le::read(header, 24),
    }
}

// How many bytes the blocks have.
pub fn both(f: Frame) -> usize
    ensures { result ≡ both_of f }
{
    f.first as usize + f.second as usize
}
