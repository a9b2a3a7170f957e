//! Names of files, and lists of files and labels.
#![tactic(auto)]

use crate::asking::{Asking, GAP, ONE, TWO, check_all};
use std::test::Fail;

/// The shape of a sample in YUV4MPEG2, and names of files and other words with control characters.
const NAMES: [Asking; 7] = [
    // aspect_ratio_idc is 2.
    Asking {
        words: &["h264v", "decode", "--y4m", "stream"],
        stream: "000000016742c00ada7b0200800000000168ce388000000165888493c0",
        out: &["YUV4MPEG2 W16 H16 F25:1 Ip A12:11 C420\nFRAME\n????"],
        err: "yes: units 3 pictures 1 frames 1\n",
        status: 0,
    },
    // aspect_ratio_idc is 255, with sar_width 64 and sar_height 45.
    Asking {
        words: &["h264v", "decode", "--y4m", "stream"],
        stream: "000000016742c00ada7bff0040002d00800000000168ce388000000165888493c0",
        out: &["YUV4MPEG2 W16 H16 F25:1 Ip A64:45 C420\nFRAME\n????"],
        err: "yes: units 3 pictures 1 frames 1\n",
        status: 0,
    },
    Asking {
        words: &["h264v", "check", "stream\nyes: \x1B[2J", "stream\\n"],
        stream: ONE,
        out: &[
            "stream\\nyes: \\x1b[2J: yes: units 3 pictures 1 frames 1\nstream\\\\n: yes: units 3 pictures 1 frames 1\ntotal: files 2 ",
        ],
        err: "",
        status: 0,
    },
    Asking {
        words: &["h264v", "check", "none\n"],
        stream: ONE,
        out: &["read failed\n"],
        err: "h264v: none\\n: ",
        status: 4,
    },
    Asking {
        words: &["h264v", "explain", "Vector\u{9B}"],
        stream: "",
        out: &[],
        err: "h264v: no rule has the label Vector\\xc2\\x9b; the nearest is VectorRange, and h264v explain --all lists all\n",
        status: 64,
    },
    Asking {
        words: &["h264v", "units\n", "stream"],
        stream: ONE,
        out: &[],
        err: "error: unrecognized subcommand 'units\\n'\n",
        status: 64,
    },
    Asking {
        words: &["h264v", "decode", "-o", "-", "--y4m", "stream\n"],
        stream: ONE,
        out: &["YUV4MPEG2 W16 H16 F25:1 Ip C420\nFRAME\n????"],
        err: "yes: units 3 pictures 1 frames 1\n",
        status: 0,
    },
];

/// Lists of files, labels and choices.
const LISTS: [Asking; 13] = [
    Asking {
        words: &[
            "h264v",
            "check",
            "--files0-from",
            "list",
            "stream0",
            "-r",
            "folder",
            "--glob",
            "*.264",
        ],
        stream: ONE,
        out: &[
            "stream0: yes: units 3 pictures 1 frames 1\nstream: yes: units 3 pictures 1 frames 1\n./-: read failed\n\
stream/1.264: yes: units 3 pictures 1 frames 1\nstream/3.264: yes: units 3 pictures 1 frames 1\n\
total: files 5 yes 4 no 0 outside 0 memory 0 failed 1\n",
        ],
        err: "h264v: stream/socket: it is no file, and is left out\nh264v: ./-: ",
        status: 4,
    },
    Asking {
        words: &["h264v", "check", "-r", "none"],
        stream: ONE,
        out: &[],
        err: "h264v: none: ",
        status: 4,
    },
    Asking {
        words: &["h264v", "check", "-r", "folder", "--glob", "*.mp4"],
        stream: ONE,
        out: &[],
        err: "h264v: stream/socket: it is no file, and is left out\nh264v: the lists name no file\n",
        status: 64,
    },
    Asking {
        words: &["h264v", "check", "--glob", "*.mp4", "stream"],
        stream: ONE,
        out: &[],
        err: "h264v: --glob belongs to --recursive\n",
        status: 64,
    },
    Asking {
        words: &["h264v", "check", "--name", "camera", "stream"],
        stream: ONE,
        out: &[],
        err: "h264v: --name names standard input, which is given by one -\n",
        status: 64,
    },
    Asking {
        words: &["h264v", "check", "--json", "--name", "stream 7", "-"],
        stream: ONE,
        out: &["{\"file\":\"stream 7\",\"kind\":\"verdict\",\"verdict\":\"yes\""],
        err: "",
        status: 0,
    },
    Asking {
        words: &["h264v", "explain", "--all"],
        stream: "",
        out: &[
            "ByteStream (clause B.1)\nbreaks: ",
            "InputTooLong (outside)\n",
            "RemovalRate (--strict, clause ",
        ],
        err: "",
        status: 0,
    },
    Asking {
        words: &["h264v", "explain", "vectorRANGE"],
        stream: "",
        out: &["VectorRange (clause A.3)\nbreaks: "],
        err: "",
        status: 0,
    },
    Asking {
        words: &["h264v", "elements", "--picture", "2", "stream"],
        stream: TWO,
        out: &["yes: units 4 pictures 2 frames 2\n"],
        err: "h264v: stream: there is no picture 2: 2 pictures were read\n",
        status: 0,
    },
    Asking {
        words: &["h264v", "check", "--brief", "stream", "stream2"],
        stream: GAP,
        out: &[
            "stream: no: bit 247: FrameNum (clause 7.4.3)\nstream2: no: bit 247: FrameNum (clause 7.4.3)\ntotal: ",
        ],
        err: "",
        status: 1,
    },
    Asking {
        words: &["h264v", "units", "--brief", "stream"],
        stream: ONE,
        out: &[],
        err: "h264v: --brief belongs to check\n",
        status: 64,
    },
    Asking {
        words: &["h264v", "decode", "-r", "folder"],
        stream: ONE,
        out: &[],
        err: "error: unexpected argument '-r' found\n",
        status: 64,
    },
    Asking {
        words: &["h264v", "units", "--files0-from", "none"],
        stream: ONE,
        out: &[],
        err: "h264v: none: ",
        status: 4,
    },
];

#[test]
fn names_and_lists(rt: HostRuntime) -> Result<(), Fail> {
    check_all(&rt, &NAMES)?;
    check_all(&rt, &LISTS)
}
