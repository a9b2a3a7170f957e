//! Verdicts with what explains them, and further rules: the examples of docs/OUTPUT.md.
#![tactic(auto)]

use crate::asking::{Asking, GAP, ONE, RESERVED_RATIO, check_all};
use std::test::Fail;

/// A picture of one macroblock, and SEI before it with messages of all types that are judged.
const MESSAGES: &str =
    "000000016742c00ada710000000168ce388000000001060201e0020c004024739ce739ce000400180302ffff03000402b5010403ff0001051000112233445566778899aabbcc\
ddeeff060500008000740901400902882409038838980a07008000004000020a02fcd00b0950000004d8000003026c0c0c4e000003000b80000004b8ac560c024cc00d040002\
000c0e000f030096c01005280004000211012c1401c01401781501f815017c2d01542d0781810000030001202d0580410001202d0582811001202d078201c000000301202f01\
c02f030009a989180102030405060708090a0b0c0d0e0f101112131415161718900401020304930112c801771201770001c00100800000000165888493c0";

/// The picture, and SEI before it with wrong messages: each type, and each range.
const WRONG_MESSAGES: &str =
    "000000016742c00ada710000000168ce3880000000010602030080e00201890202a92c0302fffe0401b50402ff00050f00112233445566778899aabbccddee060500008000f4\
06019c060284800902881109038828880a030080c20a0580004000420b0550000004d80c024c500d04000200140e01800f001005280004000611022c01140460004002150278\
802d015c2d0784010000030001202d0780010000030001202d0582c10001202d0781830000030001202d0783018000000301202d0781814000000301202d0781811000000301\
202d0781810000030005202d0a8181000003000003000800482f030009ab2f070009a00040024089170102030405060708090a0b0c0d0e0f1011121314151617900501020304\
059301039301130601c82f01e0000150010180800000000165888493c0";

/// The picture, with a set that has NAL HRD parameters and pic_struct_present_flag, and SEI with its times.
const TIMES: &str =
    "000000016742c00ada72100000030010000003032d000a007d00a007d17394a50000000168ce38800000000106000d8000028000000300000303800000c0000d912a88000003\
00044aa200000300c001030308100111030a201013beee983004260c013dfbdd30010c030920c0120930600906093001030309c8010303098401030308c88000000001658884\
93c0";

/// That set, and wrong times: each range.
const WRONG_TIMES: &str =
    "000000016742c00ada72100000030010000003032d000a007d00a007d17394a50000000168ce38800000000106000d400000a000000300000300e0000030000d800000030000\
030000030003800000c0000d800002800000030000030000030000c0000a800002800000030000030380000d912a888000000300000303800000c0000d800002800000044aa2\
800000c00103030a4401080308201013c08698010803082010101f06980108030820101010b098010803083810101086980108030820f0101086980107030820c013e1300108\
030820c0120fc2600108030820c0120c1e130102030a01040308d001800000000165888493c0";

/// The pictures of `GAP`, and then filler data of bytes FE, whose end no byte shows.
const GAP_AND_FILLER: &str =
    "000000016742c00ada710000000168ce388000000165888493c000000001619a42a00000010cfefe80";

/// Verdicts with what explains them, in lines and in JSON.
const VERDICTS: [Asking; 18] = [
    Asking {
        words: &["h264v", "check", "--explain", "stream"],
        stream: GAP,
        out: &[
            "explain bit 247 byte 30 unit 29 type 1\nexplain picture 1 frame 2 slice 0\nexplain found frame_num bit 247 value 2\n\
explain allowed 1, which follows PrevRefFrameNum 0 modulo MaxFrameNum 16; 0 in an IDR picture; 0 in a picture that is no reference; gaps are not allowed\n",
            "explain end the input ends in this unit\nno: bit 247: FrameNum (clause 7.4.3)\n",
        ],
        err: "",
        status: 1,
    },
    Asking {
        words: &["h264v", "check", "--explain", "stream"],
        stream: ONE,
        out: &["yes: units 3 pictures 1 frames 1\n"],
        err: "",
        status: 0,
    },
    Asking {
        words: &["h264v", "check", "--json", "stream"],
        stream: GAP,
        out: &[
            "{\"file\":\"stream\",\"kind\":\"verdict\",\"verdict\":\"no\",\"status\":1,\"rule\":\"FrameNum\",\"clause\":\"7.4.3\",\"bit\":247,\"byte\":30,\
\"unit\":29,\"nal_unit_type\":1,\"picture\":1,\"frame_num\":2,\"slice\":0,\"element\":\"frame_num\",\"value\":2,\"ends_in_unit\":true,\"allowed\":\"1, which",
        ],
        err: "",
        status: 1,
    },
    Asking {
        words: &["h264v", "check", "--json", "stream"],
        stream: ONE,
        out: &[
            "{\"file\":\"stream\",\"kind\":\"verdict\",\"verdict\":\"yes\",\"status\":0,\"units\":3,\"pictures\":1,\"frames\":1}\n",
        ],
        err: "",
        status: 0,
    },
    // The vector is 64 rows down, and what begins at the bit is the macroblock.
    Asking {
        words: &["h264v", "check", "--explain", "stream"],
        stream: "000000016742c00ada710000000168ce388000000165888493c0000001619a23c01006",
        out: &[
            "explain bit 256 byte 32 unit 29 type 1\nexplain picture 1 frame 1 slice 0\nexplain macroblock 0 column 0 row 0\n\
explain found mb_type bit 256 value 0\nexplain allowed vectors of -8192 to 8191 across and -256 to 255 down, in quarter samples, at level 1\n",
            "no: bit 256: VectorRange (clause A.3)\n",
        ],
        err: "",
        status: 1,
    },
    // profile_idc 77 without its flag.
    Asking {
        words: &["h264v", "check", "--explain", "stream"],
        stream: "00000001674d000ada71",
        out: &[
            "explain found profile_idc bit 40 value 77\nexplain allowed profile_idc 66; or 77 or 88 with constraint_set0_flag 1; \
the target main-ip takes 77 with any flags\n",
            "explain reason other-profile Main\n",
        ],
        err: "",
        status: 1,
    },
    // The first bytes of an MP4 file.
    Asking {
        words: &["h264v", "check", "--json", "stream"],
        stream: "0000001866747970",
        out: &["\"reason\":\"container\",\"container\":\"mp4\""],
        err: "",
        status: 1,
    },
    // The first bytes of a stream of HEVC.
    Asking {
        words: &["h264v", "check", "--json", "stream"],
        stream: "0000000140010c01",
        out: &["\"reason\":\"hevc\""],
        err: "",
        status: 1,
    },
    // aspect_ratio_idc is 17, which is reserved.
    Asking {
        words: &["h264v", "check", "--strict", "stream"],
        stream: RESERVED_RATIO,
        out: &[
            "strict: bit 80: AspectRatio (clause E.2.1), 1 places\nstrict: not judged: Sei (",
            "yes: units 3 pictures 1 frames 1\n",
        ],
        err: "",
        status: 1,
    },
    Asking {
        words: &["h264v", "check", "--strict", "--json", "stream"],
        stream: RESERVED_RATIO,
        out: &[
            "{\"file\":\"stream\",\"kind\":\"strict\",\"rule\":\"AspectRatio\",\"clause\":\"E.2.1\",\"bit\":80,\"places\":1}\n\
{\"file\":\"stream\",\"kind\":\"not judged\",\"rule\":\"Sei\",\"why\":\"",
        ],
        err: "",
        status: 1,
    },
    // A delimiter that promises SI slices alone, a picture parameter set after 00 00 01, and an I slice.
    Asking {
        words: &["h264v", "check", "--strict", "stream"],
        stream: "000000010970000000016742c00ada7100000168ce38800000000165888493c0",
        out: &[
            "strict: bit 152: ZeroByte (clause B.1.2), 1 places\nstrict: bit 216: DelimiterType (clause 7.4.2.4), 1 places\nstrict: not judged: Sei (",
            "yes: units 4 pictures 1 frames 1\n",
        ],
        err: "",
        status: 1,
    },
    // 39 messages of SEI that are as their syntax says, or whose type is not judged.
    Asking {
        words: &["h264v", "check", "--strict", "stream"],
        stream: MESSAGES,
        out: &[
            "strict: not judged: Sei (",
            "strict: not judged: Buffer (no HRD parameters are known with times beside them)\n",
            "yes: units 4 pictures 1 frames 1\n",
        ],
        err: "",
        status: 0,
    },
    // 43 messages of SEI, each of which is wrong in one place.
    Asking {
        words: &["h264v", "check", "--strict", "stream"],
        stream: WRONG_MESSAGES,
        out: &["strict: bit 184: SeiContent (clause D.1), 43 places\nstrict: not judged: Sei ("],
        err: "",
        status: 1,
    },
    // 8 messages of times that are as their syntax says.
    Asking {
        words: &["h264v", "check", "--strict", "stream"],
        stream: TIMES,
        out: &[
            "strict: not judged: Sei (",
            "yes: units 4 pictures 1 frames 1\n",
        ],
        err: "",
        status: 0,
    },
    // 17 messages of times, each of which is wrong in one place.
    Asking {
        words: &["h264v", "check", "--strict", "stream"],
        stream: WRONG_TIMES,
        out: &["SeiContent (clause D.1), 17 places\nstrict: not judged: Sei ("],
        err: "",
        status: 1,
    },
    // No is said before the end is read. So the last unit may go on, and nothing is told of it.
    Asking {
        words: &["h264v", "check", "--explain", "--strict", "stream"],
        stream: GAP_AND_FILLER,
        out: &[
            "or did not raise it after a reference picture.\nstrict: not judged: Sei (",
            "strict: not judged: Units (the bytes were not read to their end)\nno: bit 255: FrameNum (clause 7.4.3)\n",
        ],
        err: "",
        status: 1,
    },
    // A byte 05 after the 00 bytes that close a unit.
    Asking {
        words: &["h264v", "check", "--strict", "stream"],
        stream: "000000016742c00ada710000000168ce388000000165888493c000000005",
        out: &[
            "strict: not judged: Units (from some place on the bytes are no byte stream, or more than is judged)\nno: bit 232: ByteStream (",
        ],
        err: "",
        status: 1,
    },
    Asking {
        words: &["h264v", "check", "--quiet", "stream"],
        stream: GAP,
        out: &[],
        err: "",
        status: 1,
    },
];

#[test]
fn verdicts(rt: HostRuntime) -> Result<(), Fail> {
    check_all(&rt, &VERDICTS)
}
