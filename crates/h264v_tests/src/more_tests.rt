//! What the commands write with options, for several files, and as texts of their own: the examples of docs/OUTPUT.md.
#![tactic(auto)]

use crate::asking::{Asking, GAP, ONE, RESERVED_RATIO, TWO, check_all, text_of};
use crate::tests::{WELL, answer};
use std::process::Abort;
use std::test::Fail;

/// The first picture, and after it one of two macroblocks beside one another, with a sequence parameter set of its own.
const SIZES: &str =
    "000000016742c00ada710000000168ce388000000165888493c0000000016742c00ada2c400000000168ce38800000000165888224e4f0";

/// Listings, in lines and in JSON.
const LISTINGS: [Asking; 7] = [
    Asking {
        words: &["h264v", "units", "--json", "stream"],
        stream: ONE,
        out: &[
            "{\"file\":\"stream\",\"kind\":\"unit\",\"byte\":4,\"nal_unit_type\":7,\"nal_ref_idc\":3,\"bytes\":6}\n",
        ],
        err: "",
        status: 0,
    },
    Asking {
        words: &["h264v", "headers", "--json", "stream"],
        stream: TWO,
        out: &[
            "{\"file\":\"stream\",\"kind\":\"slice\",\"byte\":29,\"first_mb_in_slice\":0,\"slice_type\":\"P\",\"frame_num\":1,\"count\":2}\n",
        ],
        err: "",
        status: 0,
    },
    // The digest is that of 256 + 64 + 64 bytes of 128.
    Asking {
        words: &["h264v", "frames", "--json", "stream"],
        stream: ONE,
        out: &[
            "{\"file\":\"stream\",\"kind\":\"frame\",\"index\":0,\"count\":0,\"width\":16,\"height\":16,\"md5\":\"02b5d5d5ba2a5de00017b31c40c527bc\"}\n",
        ],
        err: "",
        status: 0,
    },
    Asking {
        words: &["h264v", "elements", "--picture", "1", "stream"],
        stream: TWO,
        out: &[
            "unit 29 type 1 ref 3 bytes 4\nelement first_mb_in_slice bit 240 value 0\nelement slice_type bit 241 value 5\n",
            "slice 29 mb 0 type P frame 1 count 2\nelement mb_skip_run bit 255 value 1\nyes: units 4 pictures 2 frames 2\n",
        ],
        err: "",
        status: 0,
    },
    Asking {
        words: &["h264v", "elements", "--mb", "0", "--json", "stream"],
        stream: TWO,
        out: &[
            "{\"file\":\"stream\",\"kind\":\"element\",\"name\":\"mb_skip_run\",\"bit\":255,\"value\":1}\n",
        ],
        err: "",
        status: 0,
    },
    Asking {
        words: &["h264v", "info", "stream"],
        stream: TWO,
        out: &[
            "info set 0 profile 66 (Constrained Baseline) level 1\ninfo size 16x16 coded 16x16 macroblocks 1x1\ninfo reference frames 1\n\
info pictures 2 idr 1 i 0 p 1\ninfo bytes 9 a picture 4 largest 5\ninfo macroblocks i4x4 0 i16x16 1 pcm 0 p16x16 0 p16x8 0 p8x16 0 p8x8 0 skip 1\n\
yes: units 4 pictures 2 frames 2\n",
        ],
        err: "",
        status: 0,
    },
    Asking {
        words: &["h264v", "info", "--json", "stream"],
        stream: TWO,
        out: &[
            "\"pictures\":2,\"idr\":1,\"i\":0,\"p\":1,\"bytes\":9,\"largest\":5,\"macroblocks\":{\"i4x4\":0,\"i16x16\":1,",
        ],
        err: "",
        status: 0,
    },
];

/// Several files, frames, pages, and words that are refused.
const REST: [Asking; 22] = [
    Asking {
        words: &["h264v", "units", "none"],
        stream: ONE,
        out: &["read failed\n"],
        err: "h264v: none: ",
        status: 4,
    },
    Asking {
        words: &["h264v", "check", "stream", "stream2", "none"],
        stream: ONE,
        out: &[
            "stream: yes: units 3 pictures 1 frames 1\nstream2: yes: units 3 pictures 1 frames 1\nnone: read failed\n\
total: files 3 yes 2 no 0 outside 0 memory 0 failed 1\n",
        ],
        err: "h264v: none: ",
        status: 4,
    },
    Asking {
        words: &["h264v", "check", "--json", "stream", "stream2"],
        stream: ONE,
        out: &[
            "{\"kind\":\"total\",\"files\":2,\"yes\":2,\"no\":0,\"outside\":0,\"memory\":0,\"failed\":0}\n",
        ],
        err: "",
        status: 0,
    },
    Asking {
        words: &["h264v", "decode", "--y4m", "stream"],
        stream: ONE,
        out: &["YUV4MPEG2 W16 H16 F25:1 Ip C420\nFRAME\n????"],
        err: "yes: units 3 pictures 1 frames 1\n",
        status: 0,
    },
    Asking {
        words: &["h264v", "report", "stream"],
        stream: GAP,
        out: &[
            "<!DOCTYPE html>",
            "no: bit 247: FrameNum (clause 7.4.3)",
            "explain picture 1 frame 2 slice 0",
            "</html>\n",
        ],
        err: "no: bit 247: FrameNum (clause 7.4.3)\n",
        status: 1,
    },
    Asking {
        words: &["h264v", "report", "stream"],
        stream: ONE,
        out: &[
            "by frames of missing numbers: at most 0.</p>",
            "data:image/bmp;base64,Qk0",
        ],
        err: "yes: units 3 pictures 1 frames 1\n",
        status: 0,
    },
    Asking {
        words: &["h264v", "report", "--strict", "stream"],
        stream: RESERVED_RATIO,
        out: &[
            "<h2>Further rules</h2><pre>strict: bit 80: AspectRatio (clause E.2.1), 1 places\nstrict: not judged: Sei (",
        ],
        err: "strict: bit 80: AspectRatio (clause E.2.1), 1 places\nstrict: not judged: Sei (",
        status: 1,
    },
    Asking {
        words: &["h264v", "explain", "VectorRange"],
        stream: "",
        out: &["VectorRange (clause A.3)\nbreaks: "],
        err: "",
        status: 0,
    },
    Asking {
        words: &["h264v", "explain", "--json", "VectorRange"],
        stream: "",
        out: &["{\"kind\":\"rule\",\"label\":\"VectorRange\",\"clause\":\"A.3\",\"breaks\":\""],
        err: "",
        status: 0,
    },
    Asking {
        words: &["h264v", "explain", "--json", "Level6"],
        stream: "",
        out: &["{\"kind\":\"feature\",\"label\":\"Level6\",\"stands\":\""],
        err: "",
        status: 0,
    },
    Asking {
        words: &["h264v", "explain", "AspectRatio"],
        stream: "",
        out: &[
            "AspectRatio (--strict, clause E.2.1)\nbreaks: ",
            "\nexample: aspect_ratio_idc 17\n",
        ],
        err: "",
        status: 0,
    },
    Asking {
        words: &["h264v", "explain", "--json", "AspectRatio"],
        stream: "",
        out: &[
            "{\"kind\":\"strict rule\",\"label\":\"AspectRatio\",\"clause\":\"E.2.1\",\"breaks\":\"",
            "\"cause\":\"",
            "\"example\":\"aspect_ratio_idc 17\"}\n",
        ],
        err: "",
        status: 0,
    },
    Asking {
        words: &["h264v", "explain", "--target", "baseline", "VectorRange"],
        stream: "",
        out: &[],
        err: "h264v: explain takes no option but --json\n",
        status: 64,
    },
    Asking {
        words: &["h264v", "explain", "VectorRange", "Vector"],
        stream: "",
        out: &[],
        err: "h264v: no rule has the label Vector; the nearest is VectorRange, and h264v explain --all lists all\n",
        status: 64,
    },
    Asking {
        words: &["h264v", "check", "--y4m", "stream"],
        stream: ONE,
        out: &[],
        err: "h264v: --y4m belongs to decode\n",
        status: 64,
    },
    Asking {
        words: &["h264v", "check", "--quiet", "--json", "stream"],
        stream: ONE,
        out: &[],
        err: "h264v: --quiet and --json exclude one another\n",
        status: 64,
    },
    Asking {
        words: &["h264v", "decode", "-o", "stream", "stream"],
        stream: ONE,
        out: &[],
        err: "h264v: the output is the input\n",
        status: 64,
    },
    Asking {
        words: &["h264v", "decode", "-o", "full", "stream"],
        stream: ONE,
        out: &[],
        err: "h264v: full: ",
        status: 4,
    },
    // No output is made where the input can't be opened.
    Asking {
        words: &["h264v", "decode", "-o", "full", "none"],
        stream: ONE,
        out: &[],
        err: "read failed\nh264v: none: ",
        status: 4,
    },
    Asking {
        words: &["h264v", "decode", "--y4m", "stream"],
        stream: SIZES,
        out: &["YUV4MPEG2 W16 H16 F25:1 Ip C420\nFRAME\n????"],
        err: "h264v: stream: frame 1 is 32x16, and those before it are 16x16: YUV4MPEG2 has one size\n",
        status: 4,
    },
    Asking {
        words: &["h264v", "decode", "--y4m", "--json", "stream"],
        stream: SIZES,
        out: &["YUV4MPEG2 W16 H16 F25:1 Ip C420\nFRAME\n????"],
        err: "{\"file\":\"stream\",\"kind\":\"verdict\",\"verdict\":\"size changes\",\"status\":4,\"frame\":1,\"width\":32,\"height\":16,\
\"width_before\":16,\"height_before\":16}\n",
        status: 4,
    },
    Asking {
        words: &["h264v", "elements", "--picture", "x", "stream"],
        stream: ONE,
        out: &[],
        err: "h264v: --picture wants the number of a picture, from 0\n",
        status: 64,
    },
];

/// What the words say of themselves: no command, no FILE, an unknown word, and help.
const FAULTS: [Asking; 12] = [
    Asking {
        words: &["h264v"],
        stream: ONE,
        out: &[],
        err: "Judges H.264 streams of the Constrained Baseline profile, and decodes them\n",
        status: 64,
    },
    Asking {
        words: &["h264v", "units"],
        stream: ONE,
        out: &[],
        err: "error: the following required arguments were not provided:\n  <FILE>...\n\nUsage: h264v units <FILE>...\n",
        status: 64,
    },
    Asking {
        words: &["h264v", "check"],
        stream: ONE,
        out: &[],
        err: "error: the following required arguments were not provided:\n  <FILE>...\n\nUsage: h264v check <FILE>...\n",
        status: 64,
    },
    Asking {
        words: &["h264v", "unit", "stream"],
        stream: ONE,
        out: &[],
        err: "error: unrecognized subcommand 'unit'\n\n  tip: a similar subcommand exists: 'units'\n\nUsage: h264v <COMMAND>\n",
        status: 64,
    },
    Asking {
        words: &["h264v", "units", "--none", "stream"],
        stream: ONE,
        out: &[],
        err: "error: unexpected argument '--none' found\n\n  tip: to pass '--none' as a value, use '-- --none'\n\nUsage: h264v units [OPTIONS] [FILE]...\n",
        status: 64,
    },
    Asking {
        words: &["h264v", "--version"],
        stream: ONE,
        out: &[],
        err: "h264v 0.1.0\n",
        status: 64,
    },
    Asking {
        words: &["h264v", "--help"],
        stream: ONE,
        out: &[],
        err: "Judges H.264 streams of the Constrained Baseline profile, and decodes them\n\nUsage: h264v <COMMAND>\n",
        status: 64,
    },
    Asking {
        words: &["h264v", "check", "--help"],
        stream: ONE,
        out: &[],
        err: "Says whether a stream is legal: yes, no with the first rule that it breaks and the bit where, or outside\n\n\
Usage: h264v check [OPTIONS] [FILE]...\n\nArguments:\n  [FILE]...  An H.264 byte stream (Annex B), as cameras and encoders \
write it with the ending .264 or .h264; - for standard input\n",
        status: 64,
    },
    Asking {
        words: &["h264v", "units", "--help"],
        stream: ONE,
        out: &[],
        err: "Prints a line for each unit, and judges byte stream, units and parameter sets\n\nUsage: h264v units [OPTIONS] [FILE]...\n",
        status: 64,
    },
    Asking {
        words: &["h264v", "headers", "--help"],
        stream: ONE,
        out: &[],
        err: "Prints a line for each slice, and judges slice headers too\n\nUsage: h264v headers [OPTIONS] [FILE]...\n",
        status: 64,
    },
    Asking {
        words: &["h264v", "frames", "--help"],
        stream: ONE,
        out: &[],
        err: "Prints a line for each frame in output order, with its size and the MD5 of its samples\n\nUsage: h264v frames [OPTIONS] [FILE]...\n",
        status: 64,
    },
    Asking {
        words: &["h264v", "decode", "--help"],
        stream: ONE,
        out: &[],
        err: "Writes each frame in output order as planar YUV 4:2:0, and its verdict to standard error\n\nUsage: h264v decode [OPTIONS] [FILE]...\n",
        status: 64,
    },
];

/// Words with `--output`, a stream, the frames that the output has where it was finished, what is said, and the status.
struct Outputting {
    name: &'static str,
    stream: &'static str,
    frames: Option<usize>,
    err: &'static str,
    status: u8,
}

/// The samples of a frame of one macroblock, in bytes.
const FRAME_BYTES: usize = 384;

/// An output gets its name with a verdict alone. At a no a frame may still wait that is not written.
const OUTPUTS: [Outputting; 3] = [
    Outputting {
        name: "made",
        stream: TWO,
        frames: Some(2),
        err: "yes: units 4 pictures 2 frames 2\n",
        status: 0,
    },
    Outputting {
        name: "made",
        stream: GAP,
        frames: Some(0),
        err: "no: bit 247: FrameNum (clause 7.4.3)\n",
        status: 1,
    },
    Outputting {
        name: "kept",
        stream: ONE,
        frames: None,
        err: "yes: units 3 pictures 1 frames 1\nh264v: kept: ",
        status: 4,
    },
];

/// That an output has these frames, where it was finished, and that this is said and answered.
fn check_output(rt: &(impl Abort + AllocGlobal), outputting: &Outputting) -> Result<(), Fail> {
    let stream = hex::decode(rt.alloc(), outputting.stream)?;
    let words = ["h264v", "decode", "-o", outputting.name, "stream"];
    let all = answer(rt.alloc(), &words, stream.as_slice(), WELL)?;
    assert_eq!(rt; all.status, outputting.status);
    assert!(rt; all.out.is_empty());
    let frames = all.finished.map(|text| text.len() / FRAME_BYTES);
    assert_eq!(rt; frames, outputting.frames);
    let err = text_of(all.err)?;
    assert!(rt; err.as_str().starts_with(outputting.err), "{err}");
    Ok(())
}

#[test]
fn outputs(rt: HostRuntime) -> Result<(), Fail> {
    for outputting in OUTPUTS.iter() {
        check_output(&rt, outputting)?;
    }
    Ok(())
}

#[test]
fn options(rt: HostRuntime) -> Result<(), Fail> {
    check_all(&rt, &LISTINGS)?;
    check_all(&rt, &REST)?;
    check_all(&rt, &FAULTS)
}
