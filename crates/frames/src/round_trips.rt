// The round trips as code: what these promise speaks of the frame, or of the bytes, alone.
ghost use Rattle.std.specs.Prelude.{◌≡◌};
ghost use Rattle.frames.specs.Writing.{outcome};
ghost use Rattle.frames.specs.RoundTrips.{with_key, key_back, copying};

use crate::layouts::KEYED_BYTES;
use crate::reader::read;
use crate::writer::write;
use crate::{Frame, ReadFrame};
use figures::limits::KEY_BYTES;
use figures::replies::Refusal;

// The longest frame fits the buffer, so the refusal is never reached.
pub fn written_and_read(frame: Frame, key: [u8; KEY_BYTES]) -> ReadFrame
    ensures { result ≡ with_key frame (key_back frame key) }
{
    let mut buffer = [0; KEYED_BYTES];
    match write(frame, key, &mut buffer) {
        Ok(count) => read(&buffer[..count]),
        Err(refusal) => ReadFrame {
            frame: Err(refusal),
            key: [0; KEY_BYTES],
        },
    }
}

// A string that reads as a frame is written again as it stood.
pub fn read_and_written(bytes: &[u8], buffer: &mut [u8]) -> Result<usize, Refusal>
    ensures { outcome result buffer.new ≡ copying bytes.now buffer.old }
{
    let seen = read(bytes);
    write(seen.frame?, seen.key, buffer)
}
