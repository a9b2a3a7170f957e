//! Words, and parts of what the program writes to them.
#![tactic(auto)]

use crate::tests::{WELL, answer};
use std::process::Abort;
use std::test::Fail;

/// Words, the stream in hexadecimal digits, parts of what is written, and the status.
pub struct Asking {
    pub words: &'static [&'static str],
    pub stream: &'static str,
    pub out: &'static [&'static str],
    pub err: &'static str,
    pub status: u8,
}

/// One picture of one macroblock.
pub const ONE: &str = "000000016742c00ada710000000168ce388000000165888493c0";

/// That picture, and one whose frame_num is 2.
pub const GAP: &str = "000000016742c00ada710000000168ce388000000165888493c0000001619a42a0";

/// That picture, and one whose frame_num is 1: its macroblock is skipped.
pub const TWO: &str = "000000016742c00ada710000000168ce388000000165888493c0000001619a22a0";

/// The first picture with a sequence parameter set whose aspect_ratio_idc is reserved.
pub const RESERVED_RATIO: &str = "000000016742c00ada7b1100800000000168ce388000000165888493c0";

/// A text of these bytes. Samples are no text: a question mark stands for each byte that is not ASCII.
pub fn text_of(mut bytes: Vec<u8>) -> Result<String, Fail> {
    for byte in bytes.iter_mut() {
        if !byte.is_ascii() {
            *byte = b'?';
        }
    }
    Ok(String::from_utf8(bytes)?)
}

/// That these texts are what is to be written: that each part stands in `out`, and `out` is empty, where there are none.
fn check_texts(rt: &impl Abort, asking: &Asking, out: &str, err: &str) {
    assert!(rt; err.starts_with(asking.err), "{err}");
    assert!(rt; !asking.out.is_empty() || out.is_empty(), "{out}");
    for part in asking.out.iter() {
        assert!(rt; out.contains(part), "{part} in {out}");
    }
}

/// That this is written and answered.
fn check_asking(rt: &(impl Abort + AllocGlobal), asking: &Asking) -> Result<(), Fail> {
    let stream = hex::decode(rt.alloc(), asking.stream)?;
    let all = answer(rt.alloc(), asking.words, stream.as_slice(), WELL)?;
    assert_eq!(rt; all.status, asking.status);
    let out = text_of(all.out)?;
    let err = text_of(all.err)?;
    check_texts(rt, asking, out.as_str(), err.as_str());
    Ok(())
}

/// That each of these is.
pub fn check_all(rt: &(impl Abort + AllocGlobal), askings: &[Asking]) -> Result<(), Fail> {
    for asking in askings.iter() {
        check_asking(rt, asking)?;
    }
    Ok(())
}
