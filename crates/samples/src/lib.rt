// The samples of a frame as bytes: numbers of 16 bits, two bytes each, the low byte first.
#![tactic(auto)]

ghost use Rattle.std.specs.Prelude.{◌≡◌, length};
ghost use Rattle.samples.specs.Samples as meaning;
ghost use Rattle.samples.specs.Beside as beside;

// The samples of a frame, and its bytes.
pub const FRAME_SAMPLES: usize = 160;

pub const FRAME_BYTES: usize = 320;

// What is read of a frame: how many samples are there, and the samples, with zeros after the last.
// There is no heap, so the buffer is fixed and the count stands beside it.
#[derive(Clone, Copy)]
pub struct Samples {
    pub count: usize,
    pub sof: [i16; FRAME_SAMPLES],
}

// What is read of the bytes of one frame. A loop that never leaves is done many samples at a time; it stores by index, since a proof learns nothing of what is
// written through an iterator.
pub fn read(bytes: &[u8]) -> Samples
    ensures { result ≡ meaning.read_of bytes.now }
{
    let (pairs, _) = bytes.as_chunks::<2>();
    let count = pairs.len().min(FRAME_SAMPLES);
    let mut sof = [0i16; FRAME_SAMPLES];
    for (k, pair) in pairs[..count].iter().enumerate() {
        sof[k] = i16::from_le_bytes(*pair);
    }
    Samples { count, sof }
}

// Where the frame ends that begins at `from`: 320 bytes on, or at the end of the samples.
#[tactic(auto, unfolding(crate::specs::Beside::end_of))]
pub fn frame_end(samples: &[u8], from: usize) -> usize
    ensures { result ≡ beside.end_of from (length samples.now) }
{
    from + FRAME_BYTES.min(samples.len().saturating_sub(from))
}
