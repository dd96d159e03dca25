//! The frame of a stop, which is made without memory.
ghost use Rattle.std.specs.Prelude.{◌≡◌, ◌+◌, ◌≤◌, ◌++◌, length};
ghost use Rattle.mk_frame.specs.Frames.{frame_of};
ghost use Rattle.mk_message.specs.Written.{call_text};
ghost use Rattle.mk_plan.specs.declared.Call.TheVariants.{Stop};
ghost use Rattle.mk_run_laws.specs.Payloads.{IsFramed};

use arrayvec::ArrayVec;
use byteorder::{BigEndian, ByteOrder};
use itoa::Buffer;

fn put(frame: &mut ArrayVec<u8, 64>, bytes: &[u8])
    requires { length frame.old.items + length bytes.now ≤ 64 }
    ensures { frame.new.items ≡ frame.old.items ++ bytes.now }
{
    match frame.try_extend_from_slice(bytes) {
        Ok(()) => {}
        Err(_) => unreachable!(),
    }
}

// The frame of a stop with this id.
pub fn stop_frame(id: u64) -> ArrayVec<u8, 64>
    ensures frame { result.items ≡ frame_of (call_text id Stop) }
    ensures framed { IsFramed (call_text id Stop) }
{
    let mut buffer = Buffer::new();
    let digits = buffer.format(id).as_bytes();
    let mut header = [0u8; 4];
    BigEndian::write_u32(&mut header, (19 + digits.len()) as u32);
    let mut frame = ArrayVec::new();
    put(&mut frame, &header);
    put(&mut frame, b"[0,");
    put(&mut frame, digits);
    put(&mut frame, b",[\"stop\",[],{}]]");
    frame
}
