//! Images of memory, of which the bytes of an up-buffer are decoded. A row is the words and the steps that make the image, and the status and the lines.
use crate::decode::put_recording;
use crate::rows::{Kind, each_block};
use crate::sessions::Stage;
use rtt_ring::{PlainRing, UpEnd};
use std::alloc::Global;
use std::sync::Wait;
use std::test::Fail;
use std::thread::Threads;
use test_rows::{bytes_of, image_of, is_same, parted};

// What waits, and all; bare images, core files and the image of a ring; other bases; bytes with faults.
const IMAGES: &str = "\
defmtl dump --table hi.elf
image
=
status 0 fine
INFO  hello

defmtl dump --table hi.elf --old
image|58 00 01 7e 00
=
status 0 fine
INFO  hello
INFO  hello

defmtl dump --table hi.elf
image|40 02
=
status 0 fine

defmtl dump --table hi.elf --base 0x12345678 --up 0
image|core 32
=
status 0 fine
INFO  hello

defmtl dump --table hi.elf
image|core 64
=
status 0 fine
INFO  hello

defmtl dump --table hi.elf
ring 00 01 7e 00
=
status 0 fine
INFO  hello

defmtl dump --table hi.elf --base 0x1ffffff8
zeros 8|image
=
status 0 fine
INFO  hello

defmtl dump --table hi.elf --only warn
image|36 01
=
status 9 events with faults 1
-- tail 2

defmtl dump --only warn --table hi.elf
image
=
status 0 fine

defmtl dump --table hi.elf
image|62 07
=
status 9 events with faults 1
-- front 3

defmtl dump --table hi.elf
image|36 01
=
status 9 events with faults 1
-- tail 2";

// Those that are refused, and what is told before them.
const REFUSED: &str = "\
defmtl dump --table hi.elf
zeros 64
=
status 10 control cause 1 place 0

defmtl dump --table hi.elf
image|cut 0
=
status 10 control cause 1 place 0

defmtl dump --table hi.elf --base 0x1fffffc0
image
=
status 10 control cause 2 place 0

defmtl dump --table hi.elf --old
image|40 10
=
status 10 control cause 3 place 0

defmtl dump --table hi.elf
image|48 53 45 47 47 45 52 20 52 54 54 00 00 00 00 00 00
=
status 10 control cause 5 place 0

defmtl dump --table hi.elf --up 1
image
=
status 10 control cause 6 place 1

defmtl dump --table hi.elf
image|core 32|5 02
=
status 10 control cause 7 place 2

defmtl dump --table hi.elf --base 0xffffffc1
image
=
status 10 control cause 8 place 0

defmtl dump --table no.elf
zeros 64
=
status 6 table elf cause 1 place 0

defmtl dump --table other.elf
zeros 64
=
status 7 shelf";

// The image of a plain ring of 16 bytes in which these wait.
fn ring_image(alloc: Global, digits: &str) -> Result<Vec<u8>, Fail> {
    let Ok(ring) = PlainRing::split(alloc, 16) else {
        return Err(Fail::new("no ring"));
    };
    let mut ring = ring;
    let bytes = bytes_of(alloc, digits)?;
    let room = UpEnd::look(&mut ring);
    let count = bytes.len().min(room as usize);
    ring.put(&bytes[..count]);
    ring.publish();
    let mut image = Vec::new(alloc);
    image.extend_from_slice(ring.image())?;
    Ok(image)
}

// The image of a ring, or that of these steps.
fn given_image(alloc: Global, steps: &str) -> Result<Vec<u8>, Fail> {
    let (what, rest) = parted(steps, ' ');
    if is_same(what, "ring") {
        ring_image(alloc, rest)
    } else {
        image_of(alloc, steps)
    }
}

// Puts what is told of the decoding of an image: its words and the steps that make the image.
pub(crate) fn put_dumped<R: Threads + Wait + Sync>(
    rt: &R,
    alloc: Global,
    row: &str,
    stage: &mut Stage,
    out: &mut String,
) -> Result<(), Fail> {
    let (line, steps) = parted(row, '\n');
    let image = given_image(alloc, steps)?;
    put_recording(rt, alloc, line, &image, stage, out)
}

#[test]
fn an_up_buffer_of_an_image_is_decoded_unless_the_image_is_refused(
    rt: HostRuntime,
) -> Result<(), Fail> {
    each_block(&rt, rt.alloc(), IMAGES, 11, &Kind::Dumped)?;
    each_block(&rt, rt.alloc(), REFUSED, 10, &Kind::Dumped)
}
