//! Worked examples: frames of a guest of 4 pages of 16 bytes, with 5 writes.

use super::fixtures::{DATA_FRAME, ZEROS_FRAME, shape};
use page_message::{
    Body, Frame, FrameError, FrameView, append_frame, decode_frame, encode_frame, frame_of,
    view_frame,
};
use std::alloc::Global;
use std::process::Abort;

/// Returns the bytes with one of them changed, and cut to a length.
fn changed(rt: &(impl Abort + AllocGlobal), place: usize, byte: u8, len: usize) -> Vec<u8> {
    let mut bytes = Vec::from_slice(rt.alloc(), &DATA_FRAME).expect(rt, "memory");
    if place < bytes.len() {
        bytes[place] = byte;
    }
    bytes.truncate(len);
    bytes
}

fn refusal(rt: &impl AllocGlobal, bytes: &[u8]) -> Option<FrameError> {
    decode_frame(rt.alloc(), &shape(), bytes).err()
}

/// Returns the encodings of both frames, one after the other.
fn both_appended(rt: &(impl Abort + AllocGlobal)) -> Vec<u8> {
    let shape = shape();
    let mut stream = Vec::new(rt.alloc());
    append_frame(&mut stream, &shape, 2, 0, &[0; 16]).expect(rt, "a frame");
    append_frame(&mut stream, &shape, 3, 4, &DATA_FRAME[9..]).expect(rt, "a frame");
    stream
}

#[test]
fn frames_are_appended(rt: HostRuntime) {
    let stream = both_appended(&rt);
    assert!(rt; stream.len() == 34);
    assert!(rt; &stream[..9] == ZEROS_FRAME.as_slice() && &stream[9..] == DATA_FRAME.as_slice());
}

/// Returns a frame's page and stamp, and its bytes if they are not zeros.
fn parts_of(frame: &Frame) -> (u32, u32, Option<&[u8]>) {
    let bytes = match &frame.body {
        Body::Zero => None,
        Body::Data(bytes) => Some(bytes.as_slice()),
    };
    (frame.page, frame.stamp, bytes)
}

#[test]
fn zeros_are_sent_without_their_bytes(rt: HostRuntime) {
    let shape = shape();
    let bytes = vec![in rt.alloc(); 0u8; shape.page_size()].expect(&rt, "memory");
    let frame = frame_of(&shape, 2, 0, bytes);
    let is_short = matches!(&frame.body, Body::Zero) && frame.fits(&shape);
    let buffer = encode_frame(rt.alloc(), &shape, &frame).expect(&rt, "a frame");
    assert!(rt; is_short && buffer.as_slice() == ZEROS_FRAME.as_slice());
}

#[test]
fn zeros_come_back(rt: HostRuntime) {
    let (read, size) = decode_frame(rt.alloc(), &shape(), &ZEROS_FRAME).expect(&rt, "a frame");
    assert!(rt; (parts_of(&read), size) == ((2, 0, None), 9));
}

#[test]
fn bytes_of_a_page_come_back(rt: HostRuntime) {
    let shape = shape();
    let (frame, size) = decode_frame(rt.alloc(), &shape, &DATA_FRAME).expect(&rt, "a frame");
    let is_read = (frame.page, frame.stamp, size) == (3, 4, 25) && frame.fits(&shape);
    let buffer = encode_frame(rt.alloc(), &shape, &frame).expect(&rt, "a frame");
    assert!(rt; is_read && buffer.as_slice() == DATA_FRAME.as_slice());
}

#[test]
fn frames_are_viewed_where_they_stand(rt: HostRuntime) {
    let rows: [(&[u8], (u32, u32, Option<&[u8]>), usize); 2] = [
        (&ZEROS_FRAME, (2, 0, None), 9),
        (&DATA_FRAME, (3, 4, Some(&DATA_FRAME[9..])), 25),
    ];
    for &(bytes, wanted, wanted_size) in &rows {
        let (view, size) = view_frame(&shape(), bytes).expect(&rt, "a frame");
        assert!(rt; ((view.page, view.stamp, view.body), size) == (wanted, wanted_size));
    }
}

/// Makes the frame equal to the viewed one. Returns whether it then has this page, this stamp and these bytes.
fn becomes(
    alloc: Global,
    frame: &mut Frame,
    view: &FrameView<'_>,
    wanted: (u32, u32, Option<&[u8]>),
) -> bool {
    frame.copy_from(alloc, view).is_ok() && parts_of(frame) == wanted
}

#[test]
fn frames_are_overwritten(rt: HostRuntime) {
    let shape = shape();
    let mut changed = DATA_FRAME;
    changed[10] = 8;
    let (zeros, _) = view_frame(&shape, &ZEROS_FRAME).expect(&rt, "a frame");
    let (data, _) = view_frame(&shape, &DATA_FRAME).expect(&rt, "a frame");
    let (other, _) = view_frame(&shape, &changed).expect(&rt, "a frame");
    let mut frame = zeros.to_frame(rt.alloc()).expect(&rt, "memory");
    let steps = [
        becomes(
            rt.alloc(),
            &mut frame,
            &data,
            (3, 4, Some(&DATA_FRAME[9..])),
        ),
        becomes(rt.alloc(), &mut frame, &other, (3, 4, Some(&changed[9..]))),
        becomes(rt.alloc(), &mut frame, &zeros, (2, 0, None)),
    ];
    assert!(rt; steps == [true; 3]);
}

#[test]
fn first_cause_is_answered(rt: HostRuntime) {
    const ROWS: [(usize, u8, usize, FrameError); 6] = [
        (0, 4, 25, FrameError::Page),
        (4, 6, 25, FrameError::Stamp),
        (8, 2, 25, FrameError::Kind),
        (8, 1, 24, FrameError::Short),
        (8, 0, 8, FrameError::Short),
        (0, 4, 10, FrameError::Page),
    ];
    for &(place, byte, len, cause) in &ROWS {
        let bytes = changed(&rt, place, byte, len);
        assert!(rt;
            refusal(&rt, &bytes) == Some(cause),
            "{len} bytes, {byte} at {place}"
        );
    }
    let mut zeros = changed(&rt, 8, 1, 11);
    zeros.resize(25, 0).expect(&rt, "memory");
    assert!(rt; refusal(&rt, &zeros) == Some(FrameError::ZeroData));
}

#[test]
fn refusals_have_their_names(rt: HostRuntime) {
    const NAMES: [(FrameError, &str); 6] = [
        (FrameError::Short, "F1"),
        (FrameError::Page, "F2"),
        (FrameError::Stamp, "F3"),
        (FrameError::Kind, "F4"),
        (FrameError::ZeroData, "F5"),
        (FrameError::Memory, "F6"),
    ];
    for &(error, name) in &NAMES {
        let text = format!(in rt.alloc(); "{error}").expect(&rt, "memory");
        assert!(rt; text.as_str() == name);
    }
}

#[test]
fn frames_fit_their_shape(rt: HostRuntime) {
    let frame = Frame {
        page: 3,
        stamp: 5,
        body: Body::Zero,
    };
    assert!(rt; frame.fits(&shape()));
    let high = Frame { stamp: 6, ..frame };
    assert!(rt; !high.fits(&shape()));
}
