//! Texts on files that hold no stream for the program: what they are, what to do about it, and what `info` and `report` have of them.
#![tactic(auto)]

use crate::asking::{Asking, check_all, text_of};
use crate::tests::{Devices, WELL, answer};
use std::process::Abort;
use std::test::Fail;

/// The first bytes of an MP4 file: a box of type ftyp.
const MP4: &str = "000000186674797069736f6d";

/// The first bytes of a Matroska file.
const MKV: &str = "1a45dfa3";

/// The first bytes of an AVI file: RIFF, a length and AVI.
const AVI: &str = "524946460000000041564920";

/// The first bytes of an FLV file.
const FLV: &str = "464c5601";

/// Two bytes 47, 188 bytes apart: the beginnings of packets of a transport stream.
const TS: &str =
    "47000000000000000000000000000000000000000000000000000000000000000000000000000000000000000000000000000000000000000000000000000000000000000000\
00000000000000000000000000000000000000000000000000000000000000000000000000000000000000000000000000000000000000000000000000000000000000000000\
00000000000000000000000000000000000000000000000000000000000000000000000000000000000000000000000047";

/// The sets of a stream of the High profile at level 4: 120 macroblocks across and 68 down, of which eight rows of samples are cut off, and CABAC.
const HIGH: &str = "0000000167640028acb403c0113f2a0000000168ee3880";

/// The sets of a stream of the Main profile at level 3: 45 macroblocks across and 36 down in fields, and CAVLC.
const FIELDS: &str = "00000001674d401eda02d091200000000168ce3880";

/// The sets of a stream of the Main profile at level 3: 22 macroblocks across and 18 down, and CAVLC.
const MAIN: &str = "00000001674d401eda0582590000000168ce3880";

/// Those sets, with CABAC.
const MAIN_CABAC: &str = "00000001674d401eda0582590000000168ee3880";

/// The sets of a stream of the Constrained Baseline profile with CABAC.
const CABAC: &str = "000000016742c00ada710000000168ee3880";

/// A delimiter of HEVC.
const HEVC: &str = "0000000140010c01";

/// What is to be done about each kind of file, with its name as a shell takes it.
const REMEDIES: [Asking; 15] = [
    Asking {
        words: &["h264v", "check", "--explain", "stream"],
        stream: MP4,
        out: &[
            "explain cause The input is an MP4 or MOV file, which holds streams among other data. h264v judges an H.264 stream once it has been extracted.\n\
explain reason container mp4\nexplain remedy ffmpeg -i stream -c copy -bsf:v h264_mp4toannexb -f h264 OUT.264\nno: bit 24: ByteStream (clause B.1)\n",
        ],
        err: "",
        status: 1,
    },
    // A blank, and a quotation mark.
    Asking {
        words: &["h264v", "check", "--explain", "stream of Ann's.mkv"],
        stream: MKV,
        out: &[
            "explain cause The input is a Matroska or WebM file, which holds ",
            "explain reason container mkv\nexplain remedy ffmpeg -i 'stream of Ann'\\''s.mkv' -c copy -bsf:v h264_mp4toannexb -f h264 OUT.264\nno: bit 0: ",
        ],
        err: "",
        status: 1,
    },
    Asking {
        words: &["h264v", "check", "--explain", "stream.ts"],
        stream: TS,
        out: &[
            "explain cause The input is an MPEG-2 transport stream, which holds ",
            "explain reason container ts\nexplain remedy ffmpeg -i stream.ts -c copy -bsf:v h264_mp4toannexb -f h264 OUT.264\nno: bit 0: ",
        ],
        err: "",
        status: 1,
    },
    // What a shell would take for a sign of its own.
    Asking {
        words: &["h264v", "check", "--explain", "stream$(1)&.avi"],
        stream: AVI,
        out: &[
            "explain cause The input is an AVI file, which holds ",
            "explain reason container avi\nexplain remedy ffmpeg -i 'stream$(1)&.avi' -c copy -bsf:v h264_mp4toannexb -f h264 OUT.264\nno: bit 0: ",
        ],
        err: "",
        status: 1,
    },
    // What ffmpeg would take for a protocol.
    Asking {
        words: &["h264v", "check", "--explain", "stream:1.flv"],
        stream: FLV,
        out: &[
            "explain cause The input is an FLV file, which holds ",
            "explain reason container flv\nexplain remedy ffmpeg -i file:'stream:1.flv' -c copy -bsf:v h264_mp4toannexb -f h264 OUT.264\nno: bit 0: ",
        ],
        err: "",
        status: 1,
    },
    // A line end, and a backslash: a line can't have such names as they are.
    Asking {
        words: &["h264v", "check", "--explain", "stream\n.mp4"],
        stream: MP4,
        out: &["explain remedy ffmpeg -i FILE -c copy "],
        err: "",
        status: 1,
    },
    Asking {
        words: &["h264v", "check", "--explain", "stream\\n.mp4"],
        stream: MP4,
        out: &["explain remedy ffmpeg -i FILE -c copy "],
        err: "",
        status: 1,
    },
    Asking {
        words: &["h264v", "check", "--json", "stream of Ann's.mp4"],
        stream: MP4,
        out: &[
            "\"reason\":\"container\",\"container\":\"mp4\",\
\"remedy\":\"ffmpeg -i 'stream of Ann'\\\\''s.mp4' -c copy -bsf:v h264_mp4toannexb -f h264 OUT.264\"",
        ],
        err: "",
        status: 1,
    },
    // Of the others a sentence says what they are.
    Asking {
        words: &["h264v", "check", "--explain", "stream"],
        stream: HEVC,
        out: &[
            "explain cause The input is an H.265 (HEVC) stream. h264v judges H.264 only.\nexplain reason hevc\n",
        ],
        err: "",
        status: 1,
    },
    Asking {
        words: &["h264v", "check", "--explain", "stream"],
        stream: HIGH,
        out: &[
            "explain cause The input is an H.264 stream: High profile, level 4, 1920x1080, CABAC. h264v does not judge this profile.\n\
explain reason other-profile High\nno: bit 40: Profile (clause A.2)\n",
        ],
        err: "",
        status: 1,
    },
    Asking {
        words: &["h264v", "check", "--explain", "stream"],
        stream: MAIN_CABAC,
        out: &[
            "explain cause The input is an H.264 stream: Main profile, level 3, 352x288, CABAC. h264v does not judge CABAC.\n\
explain reason other-profile Main\nno: bit 40: Profile (clause A.2)\n",
        ],
        err: "",
        status: 1,
    },
    // profile_idc 99 has no name.
    Asking {
        words: &["h264v", "check", "--explain", "stream"],
        stream: "000000016763000ada71",
        out: &[
            "explain cause The input is an H.264 stream: profile_idc 99, level 1, 16x16. h264v does not judge this profile.\n",
        ],
        err: "",
        status: 1,
    },
    // level_idc 11 with constraint_set3_flag is level 1b in Main, and level 1.1 in High 10.
    Asking {
        words: &["h264v", "check", "--json", "stream"],
        stream: "00000001674d100bda71",
        out: &[
            "\"cause\":\"The input is an H.264 stream: Main profile, level 1b, 16x16. The target baseline does not judge this profile.\"",
        ],
        err: "",
        status: 1,
    },
    Asking {
        words: &["h264v", "check", "--json", "stream"],
        stream: "00000001676e100bacb4e2",
        out: &[
            "\"cause\":\"The input is an H.264 stream: High 10 profile, level 1.1, 16x16. h264v does not judge this profile.\"",
        ],
        err: "",
        status: 1,
    },
    Asking {
        words: &["h264v", "check", "--explain", "stream"],
        stream: CABAC,
        out: &[
            "explain cause The input is an H.264 stream that is coded with CABAC. h264v does not judge CABAC.\nexplain reason cabac\n",
        ],
        err: "",
        status: 1,
    },
];

/// What `info` has of files without pictures.
const INFOS: [Asking; 9] = [
    Asking {
        words: &["h264v", "info", "stream"],
        stream: HIGH,
        out: &[
            "info last set profile 100 (High) level 4 size 1920x1080\n\
info no pictures: The input is an H.264 stream: High profile, level 4, 1920x1080, CABAC. h264v does not judge this profile.\n\
no: bit 40: Profile (clause A.2)\n",
        ],
        err: "",
        status: 1,
    },
    Asking {
        words: &["h264v", "info", "--json", "stream"],
        stream: HIGH,
        out: &[
            "{\"file\":\"stream\",\"kind\":\"info\",\"sets\":[],\
\"last_set\":{\"profile_idc\":100,\"profile\":\"High\",\"level_idc\":40,\"width\":1920,\"height\":1080},\"pictures\":0}\n",
        ],
        err: "",
        status: 1,
    },
    Asking {
        words: &["h264v", "info", "stream"],
        stream: FIELDS,
        out: &[
            "info last set profile 77 (Main) level 3 size 720x576\n\
info no pictures: The input is an H.264 stream: Main profile, level 3, 720x576, CAVLC. h264v does not judge fields.\n\
no: bit 40: Profile (clause A.2)\n",
        ],
        err: "",
        status: 1,
    },
    Asking {
        words: &["h264v", "info", "stream"],
        stream: MAIN,
        out: &[
            "info last set profile 77 (Main) level 3 size 352x288\n\
info no pictures: The input is an H.264 stream: Main profile, level 3, 352x288, CAVLC. The target baseline does not judge this profile. \
--target main-ip judges it, unless it has B slices.\nno: bit 40: Profile (clause A.2)\n",
        ],
        err: "",
        status: 1,
    },
    // The set of the profile is read, and the one after it has CABAC.
    Asking {
        words: &["h264v", "info", "stream"],
        stream: CABAC,
        out: &[
            "info set 0 profile 66 (Constrained Baseline) level 1\ninfo size 16x16 coded 16x16 macroblocks 1x1\ninfo reference frames 1\n\
info no pictures: The input is an H.264 stream that is coded with CABAC. h264v does not judge CABAC.\nno: bit 122: Tool (clause A.2)\n",
        ],
        err: "",
        status: 1,
    },
    // frame_mbs_only_flag is 0, and a macroblock of the height is one of two fields.
    Asking {
        words: &["h264v", "info", "stream"],
        stream: "000000016742c00ada6080",
        out: &[
            "info last set profile 66 (Constrained Baseline) level 1 size 16x32\ninfo no pictures: check --explain says why\n\
no: bit 75: Tool (clause A.2)\n",
        ],
        err: "",
        status: 1,
    },
    Asking {
        words: &["h264v", "info", "stream"],
        stream: MP4,
        out: &[
            "info no pictures: The input is an MP4 or MOV file, which holds streams among other data. \
h264v judges an H.264 stream once it has been extracted.\nno: bit 24: ByteStream (clause B.1)\n",
        ],
        err: "",
        status: 1,
    },
    Asking {
        words: &["h264v", "info", "stream"],
        stream: "",
        out: &["info no pictures: check --explain says why\nno: bit 0: NoPicture (clause 7.4.1)\n"],
        err: "",
        status: 1,
    },
    Asking {
        words: &["h264v", "info", "none"],
        stream: "",
        out: &["read failed\n"],
        err: "h264v: none: ",
        status: 4,
    },
];

/// A page on a file without pictures ends with one paragraph, which follows the answer and what explains it.
const REPORTS: [Asking; 3] = [
    Asking {
        words: &["h264v", "report", "stream <1>.mp4"],
        stream: MP4,
        out: &[
            "<h1>stream &lt;1&gt;.mp4</h1><p class=\"no\"><strong>no: bit 24: ByteStream (clause B.1)</strong></p><pre>explain bit 24 byte 3\n\
explain rule A byte other than 00 stands between two units, outside the start codes 00 00 01.\n\
explain cause The input is an MP4 or MOV file, which holds streams among other data. h264v judges an H.264 stream once it has been extracted.\n\
explain reason container mp4\nexplain remedy ffmpeg -i 'stream &lt;1&gt;.mp4' -c copy -bsf:v h264_mp4toannexb -f h264 OUT.264\n</pre>\
<p>The input is an MP4 or MOV file, which holds streams among other data. h264v judges an H.264 stream once it has been extracted. \
<code>ffmpeg -i 'stream &lt;1&gt;.mp4' -c copy -bsf:v h264_mp4toannexb -f h264 OUT.264</code></p></body></html>\n",
        ],
        err: "no: bit 24: ByteStream (clause B.1)\n",
        status: 1,
    },
    Asking {
        words: &["h264v", "report", "stream"],
        stream: HIGH,
        out: &[
            "explain reason other-profile High\n</pre><p>The input is an H.264 stream: High profile, level 4, 1920x1080, CABAC. \
h264v does not judge this profile.</p></body></html>\n",
        ],
        err: "no: bit 40: Profile (clause A.2)\n",
        status: 1,
    },
    // A text: hello.
    Asking {
        words: &["h264v", "report", "stream"],
        stream: "68656c6c6f",
        out: &["</pre><p>No picture was read.</p></body></html>\n"],
        err: "no: bit 0: ByteStream (clause B.1)\n",
        status: 1,
    },
];

/// A part of a stream.
#[derive(Clone, Copy)]
enum Part {
    /// These bytes, in hexadecimal digits.
    Bytes(&'static str),
    /// A unit of supplemental enhancement information with so many bytes ff after its header.
    Sei(usize),
}

/// Words, the parts of a stream that they ask for, and what is written of it.
#[derive(Clone, Copy)]
struct Far<'a> {
    words: &'a [&'a str],
    parts: &'a [Part],
    out: &'a str,
}

/// The picture parameter set of the streams below, with CABAC.
const PICTURE_SET: Part = Part::Bytes("0000000168ee3880");

/// A set of the High profile at level 1.3, with 13 macroblocks across and 8 down, of which eight columns and eight rows of samples are cut off. Of its scaling
/// lists 0, 2, 3, 6 and 7 are there: 16 entries, none, two, 64 that pass over 256, and none.
const LISTS: Part = Part::Bytes(
    "000000016764000dad8408421084210842108422118404029203f807f00fe492492492492492492492492492492492492492492492508f41a23cb2a0",
);

/// A set of the High 4:4:4 Predictive profile with lists 6 and 11 of twelve. Four columns and four rows are cut off.
const LISTS_444: Part = Part::Bytes(
    "0000000167f4000d91a0420db6db6db6dffffffffffffc203f807887fa0d11e595",
);

/// A set of the High profile with eight lists, each delta_scale -128: they take 477 bytes.
const LONGEST_LISTS: Part = Part::Bytes(
    "000000016764000dad80404020201010080804040202010100808040402020101008080404020201010080c02020101008080404020201010080804040202010100808040402\
02010100808040601010080804040202010100808040402020101008080404020201010080804040203008080404020201010080804040202010100808040402020101008080\
4040202010180404020201010080804040202010100808040402020101008080404020201010080c020201010080804040202010100808040402020101008080404020201010\
08080406010100808040402020101008080404020201010080804040202010100808040402020101008080404020201010080804040202010100808040402020101008080404\
02020101008080404020201010080804040202010100808040402020101008080404020201010080804040202010100808040402020101008080404020201010080804040203\
00808040402020101008080404020201010080804040202010100808040402020101008080404020201010080804040202010100808040402020101008080404020201010080\
804040202010100808040402020101008080404020201010080804040202010100808040402020101008080404020201010080804040202010100808040402020101e8344796\
54",
);

/// A set of the High profile whose offsets of a count cycle have emulation prevention bytes.
const EMULATED: Part = Part::Bytes(
    "000000016764000daca000000302000003000003000040000028000004000003020d11e595",
);

/// A set that ends after its level.
const CUT: Part = Part::Bytes("0000000167640028ac");

/// What is said of sets behind other units, of long ones, and of one that is cut off. The elements of the sets are those that ffmpeg's filter trace_headers
/// names.
const FAR_SETS: [Far<'static>; 8] = [
    Far {
        words: &["h264v", "check", "--explain", "stream"],
        parts: &[Part::Sei(700), Part::Bytes(HIGH)],
        out: "explain cause The input is an H.264 stream: High profile, level 4, 1920x1080, CABAC. h264v does not judge this profile.\n",
    },
    Far {
        words: &["h264v", "info", "stream"],
        parts: &[Part::Sei(700), Part::Bytes(HIGH)],
        out: "info last set profile 100 (High) level 4 size 1920x1080\n",
    },
    Far {
        words: &["h264v", "info", "--json", "stream"],
        parts: &[Part::Sei(700), Part::Bytes(HIGH)],
        out: "\"last_set\":{\"profile_idc\":100,\"profile\":\"High\",\"level_idc\":40,\"width\":1920,\"height\":1080}",
    },
    Far {
        words: &["h264v", "check", "--json", "stream"],
        parts: &[CUT, Part::Sei(2000), PICTURE_SET],
        out: "\"cause\":\"The input is an H.264 stream: High profile, level 4, CABAC. h264v does not judge this profile.\"",
    },
    Far {
        words: &["h264v", "check", "--json", "stream"],
        parts: &[Part::Sei(700), LISTS, Part::Sei(700), PICTURE_SET],
        out: "\"cause\":\"The input is an H.264 stream: High profile, level 1.3, 200x120, CABAC. ",
    },
    Far {
        words: &["h264v", "check", "--json", "stream"],
        parts: &[LISTS_444, PICTURE_SET],
        out: "\"cause\":\"The input is an H.264 stream: High 4:4:4 Predictive profile, level 1.3, 204x124, CABAC. ",
    },
    Far {
        words: &["h264v", "check", "--json", "stream"],
        parts: &[LONGEST_LISTS, PICTURE_SET],
        out: "\"cause\":\"The input is an H.264 stream: High profile, level 1.3, 200x120, CABAC. ",
    },
    Far {
        words: &["h264v", "check", "--json", "stream"],
        parts: &[EMULATED, PICTURE_SET],
        out: "\"cause\":\"The input is an H.264 stream: High profile, level 1.3, 200x120, CABAC. ",
    },
];

/// A stream of these parts.
fn stream_of(rt: &impl AllocGlobal, parts: &[Part]) -> Result<Vec<u8>, Fail> {
    let mut stream = Vec::new(rt.alloc());
    for part in parts.iter() {
        match part {
            Part::Bytes(digits) => {
                stream.extend_from_slice(hex::decode(rt.alloc(), digits)?.as_slice())?
            }
            Part::Sei(length) => {
                stream.extend_from_slice(&[0, 0, 0, 1, 6])?;
                for _ in 0..*length {
                    stream.push(0xff)?;
                }
            }
        }
    }
    Ok(stream)
}

/// That this is written of a stream that these devices read.
fn check_far(rt: &(impl Abort + AllocGlobal), far: &Far<'_>, devices: Devices) -> Result<(), Fail> {
    let stream = stream_of(rt, far.parts)?;
    let all = answer(rt.alloc(), far.words, stream.as_slice(), devices)?;
    let out = text_of(all.out)?;
    assert!(rt; out.contains(far.out), "{} in {out}", far.out);
    Ok(())
}

/// Sets behind so many bytes that a read of 4096 bytes ends in the start code of the first, or within it.
fn sets_between_reads(rt: &(impl Abort + AllocGlobal)) -> Result<(), Fail> {
    for length in 4075..4092 {
        let far = Far {
            words: &["h264v", "info", "stream"],
            parts: &[Part::Sei(length), Part::Bytes(HIGH)],
            out: "info last set profile 100 (High) level 4 size 1920x1080\n",
        };
        check_far(rt, &far, WELL)?;
    }
    Ok(())
}

/// Sets that are read byte by byte. The picture parameter set comes first, since no byte is read after the other one's end.
const BY_BYTES: Far<'static> = Far {
    words: &["h264v", "check", "--explain", "stream"],
    parts: &[Part::Bytes("0000000168ce3880"), Part::Bytes(MAIN)],
    out: "explain cause The input is an H.264 stream: Main profile, level 3, 352x288, CAVLC. ",
};

#[test]
fn far_sets(rt: HostRuntime) -> Result<(), Fail> {
    for far in FAR_SETS.iter() {
        check_far(&rt, far, WELL)?;
    }
    sets_between_reads(&rt)?;
    check_far(
        &rt,
        &BY_BYTES,
        Devices {
            read_size: 1,
            ..WELL
        },
    )
}

#[test]
fn other_files(rt: HostRuntime) -> Result<(), Fail> {
    check_all(&rt, &REMEDIES)?;
    check_all(&rt, &INFOS)?;
    check_all(&rt, &REPORTS)
}
