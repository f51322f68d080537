//! Images of memory by the steps that make them, bare and in core files.
use std::alloc::Global;
use std::test::Fail;

// A control block with one up-descriptor, and its buffer of 16 bytes in which four wait.
const IMAGE: &str = "\
53 45 47 47 45 52 20 52 54 54 00 00 00 00 00 00 01 00 00 00 00 00 00 00 \
00 00 00 00 30 00 00 20 10 00 00 00 02 00 00 00 0e 00 00 00 02 00 00 00 \
7e 00 00 00 00 00 00 00 00 00 00 00 00 00 00 01";

// The headers of core files of 64 bytes at the address 20000000: of 32 bits with a note of the same bytes, and of 64 bits.
const CORE_32: &str = "\
7f 45 4c 46 01 01 01 00 00 00 00 00 00 00 00 00 04 00 28 00 01 00 00 00 00 00 00 00 34 00 00 00 \
00 00 00 00 00 00 00 00 34 00 20 00 02 00 00 00 00 00 00 00 \
04 00 00 00 74 00 00 00 00 00 00 20 00 00 00 00 40 00 00 00 00 00 00 00 00 00 00 00 00 00 00 00 \
01 00 00 00 74 00 00 00 00 00 00 20 00 00 00 00 40 00 00 00 40 00 00 00 06 00 00 00 01 00 00 00";

const CORE_64: &str = "\
7f 45 4c 46 02 01 01 00 00 00 00 00 00 00 00 00 04 00 f3 00 01 00 00 00 00 00 00 00 00 00 00 00 \
40 00 00 00 00 00 00 00 00 00 00 00 00 00 00 00 00 00 00 00 40 00 38 00 01 00 00 00 00 00 00 00 \
01 00 00 00 06 00 00 00 78 00 00 00 00 00 00 00 00 00 00 20 00 00 00 00 00 00 00 00 00 00 00 00 \
40 00 00 00 00 00 00 00 40 00 00 00 00 00 00 00 01 00 00 00 00 00 00 00";

fn put_at(image: &mut Vec<u8>, at: usize, digits: &str) -> Result<(), Fail> {
    for (k, pair) in digits.split_whitespace().enumerate() {
        match image.get_mut(at.wrapping_add(k)) {
            Some(place) => *place = u8::from_str_radix(pair, 16)?,
            None => return Err(Fail::new("no such place")),
        }
    }
    Ok(())
}

fn append(image: &mut Vec<u8>, digits: &str) -> Result<(), Fail> {
    for pair in digits.split_whitespace() {
        image.push(u8::from_str_radix(pair, 16)?)?;
    }
    Ok(())
}

// Puts what an image has so far behind the headers of a core file.
fn wrap(alloc: Global, image: &mut Vec<u8>, headers: &str) -> Result<(), Fail> {
    let mut core = Vec::new(alloc);
    append(&mut core, headers)?;
    core.extend_from_slice(image)?;
    *image = core;
    Ok(())
}

// Puts bytes or zeros behind an image, cuts its end, or puts bytes at a place.
fn put_step(image: &mut Vec<u8>, step: &str) -> Result<(), Fail> {
    let Some((what, rest)) = step.split_once(' ') else {
        return Err(Fail::new(step));
    };
    match what {
        "bytes" => append(image, rest)?,
        "zeros" => image.resize(rest.parse::<u8>()? as usize, 0)?,
        "cut" => image.truncate(rest.parse::<usize>()?),
        _ => put_at(image, what.parse::<usize>()?, rest)?,
    }
    Ok(())
}

fn change(alloc: Global, image: &mut Vec<u8>, step: &str) -> Result<(), Fail> {
    match step {
        "image" => append(image, IMAGE),
        "core 32" => wrap(alloc, image, CORE_32),
        "core 64" => wrap(alloc, image, CORE_64),
        _ => put_step(image, step),
    }
}

/// The image of these steps, with `|` between them: the control block above, zeros or bytes, the
/// headers of a core file in front, the cut of the end, or bytes at a place.
pub fn image_of(alloc: Global, steps: &str) -> Result<Vec<u8>, Fail> {
    let mut image = Vec::new(alloc);
    for step in steps.split('|') {
        change(alloc, &mut image, step)?;
    }
    if image.len() > 1000 {
        return Err(Fail::new("the image is too long"));
    }
    Ok(image)
}
