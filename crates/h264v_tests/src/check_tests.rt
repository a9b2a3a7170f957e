//! What `check` answers. The expected bits are counted from the lengths of the elements before.
#![tactic(auto)]

use crate::tests::Case;

/// Slice data, and the ends of pictures.
pub const SLICE_DATA: [Case; 18] = [
    // No slice at all.
    Case {
        name: "no picture",
        stream: "",
        text: "no: bit 0: NoPicture (clause 7.4.1)\n",
        status: 1,
    },
    // A picture of one macroblock.
    Case {
        name: "one picture",
        stream: "000000016742c00ada710000000168ce388000000165888493c0",
        text: "yes: units 3 pictures 1 frames 1\n",
        status: 0,
    },
    // The stop bit is read as mb_qp_delta, and no coeff_token follows.
    Case {
        name: "picture cut",
        stream: "000000016742c00ada710000000168ce388000000165888493",
        text: "no: bit 200: ResidualWord (clause 9.2)\n",
        status: 1,
    },
    // level_prefix 16.
    Case {
        name: "level prefix 16",
        stream: "000000016742c00ada710000000168ce38800000016588849314000380",
        text: "no: bit 206: ResidualWord (clause 9.2)\n",
        status: 1,
    },
    // level_prefix 15, which is allowed.
    Case {
        name: "level prefix 15",
        stream: "000000016742c00ada710000000168ce3880000001658884931400040030",
        text: "yes: units 3 pictures 1 frames 1\n",
        status: 0,
    },
    // QP 51 and mb_qp_delta 1.
    Case {
        name: "qp wraps",
        stream: "000000016742c00ada710000000168ce38800000016588840644a140004003",
        text: "yes: units 3 pictures 1 frames 1\n",
        status: 0,
    },
    // total_coeff 16 in a block of 15.
    Case {
        name: "total 16 of 15",
        stream: "000000016742c00ada710000000168ce388000000165888484380024",
        text: "no: bit 205: BlockSize (clause 9.2)\n",
        status: 1,
    },
    // A second slice begins at macroblock 0 again.
    Case {
        name: "slice again",
        stream: "000000016742c00ada710000000168ce388000000165888493c000000165888493c0",
        text: "no: bit 240: FirstMb (clause 7.4.3)\n",
        status: 1,
    },
    // A delimiter ends the first picture, and the next has its idr_pic_id.
    Case {
        name: "picture again",
        stream: "000000016742c00ada710000000168ce388000000165888493c0000001091000000165888493c0",
        text: "no: bit 293: IdrPicId (clause 7.4.3)\n",
        status: 1,
    },
    // A picture that wants a macroblock.
    Case {
        name: "one macroblock of two",
        stream: "000000016742c00ada2c400000000168ce388000000165888493c0",
        text: "no: bit 216: Incomplete (clause 7.4.1)\n",
        status: 1,
    },
    // A picture of two macroblocks.
    Case {
        name: "two macroblocks",
        stream: "000000016742c00ada2c400000000168ce388000000165888493931438",
        text: "yes: units 3 pictures 1 frames 1\n",
        status: 0,
    },
    // A macroblock too many.
    Case {
        name: "two macroblocks of one",
        stream: "000000016742c00ada710000000168ce388000000165888493931438",
        text: "no: bit 201: MbPast (clause 7.3.4)\n",
        status: 1,
    },
    // Trailing bits after the header.
    Case {
        name: "empty slice",
        stream: "000000016742c00ada710000000168ce3880000001658884c0",
        text: "no: bit 193: SliceEmpty (clause 7.3.4)\n",
        status: 1,
    },
    // Intra_16x16_Vertical at the top of the picture.
    Case {
        name: "whole mode without a side",
        stream: "000000016742c00ada710000000168ce3880000001658884af",
        text: "no: bit 193: IntraMode (clause 8.3)\n",
        status: 1,
    },
    // Intra_4x4_Vertical there.
    Case {
        name: "mode without a side",
        stream: "000000016742c00ada710000000168ce3880000001658884c3fffc90",
        text: "no: bit 194: IntraMode (clause 8.3)\n",
        status: 1,
    },
    // A level of 2064 at a QP of 51.
    Case {
        name: "transform out of range",
        stream: "000000016742c00ada710000000168ce38800000016588840644c50001ffec",
        text: "no: bit 203: TransformRange (clause 8.5)\n",
        status: 1,
    },
    // ref_idx_l0 is 1, and one frame is held.
    Case {
        name: "reference without picture",
        stream: "000000016742c00ada710000000168ce388000000165888493c0000001619a347780",
        text: "no: bit 260: NoReference (clause 8.4.2)\n",
        status: 1,
    },
    // The bytes of a unit are judged before the unit ends the picture.
    Case {
        name: "unit after a picture broken",
        stream: "000000016742c00ada710000000168ce388000000165888493c000000106050000030480",
        text: "no: bit 272: Emulation (clause 7.4.1)\n",
        status: 1,
    },
];

/// Samples, a large picture, and the elements before a no.
pub const SAMPLES: [Case; 4] = [
    // An I_PCM macroblock.
    Case {
        name: "samples",
        stream: "000000016742c00ada710000000168ce388000000165888486800102030405060708090a0b0c0d0e0f101112131415161718191a1b1c1d1e1f2021222324252627\
            28292a2b2c2d2e2f303132333435363738393a3b3c3d3e3f404142434445464748494a4b4c4d4e4f505152535455565758595a5b5c5d5e5f606162636465666768696a6b6c6d\
            6e6f707172737475767778797a7b7c7d7e7f808182838485868788898a8b8c8d8e8f909192939495969798999a9b9c9d9e9fa0a1a2a3a4a5a6a7a8a9aaabacadaeafb0b1b2b3\
            b4b5b6b7b8b9babbbcbdbebfc0c1c2c3c4c5c6c7c8c9cacbcccdcecfd0d1d2d3d4d5d6d7d8d9dadbdcdddedfe0e1e2e3e4e5e6e7e8e9eaebecedeeeff0f1f2f3f4f5f6f7f8f9\
            fafbfcfdfeff0102030405060708090a0b0c0d0e0f101112131415161718191a1b1c1d1e1f202122232425262728292a2b2c2d2e2f303132333435363738393a3b3c3d3e3f40\
            4142434445464748494a4b4c4d4e4f505152535455565758595a5b5c5d5e5f606162636465666768696a6b6c6d6e6f707172737475767778797a7b7c7d7e7f808180",
        text: "yes: units 3 pictures 1 frames 1\n",
        status: 0,
    },
    Case {
        name: "samples cut",
        stream: "000000016742c00ada710000000168ce388000000165888486800102030405060708090a0b0c0d0e0f101112131415161718191a1b1c1d1e1f2021222324252627\
            28292a2b2c2d2e2f303132333435363738393a3b3c3d3e3f404142434445464748494a4b4c4d4e4f505152535455565758595a5b5c5d5e5f606162636465666768696a6b6c6d\
            6e6f707172737475767778797a7b7c7d7e7f808182838485868788898a8b8c8d8e8f909192939495969798999a9b9c9d9e9fa0a1a2a3a4a5a6a7a8a9aaabacadaeafb0b1b2b3\
            b4b5b6b7b8b9babbbcbdbebfc0c1c2c3c4c5c6c7c8c9cacbcccdcecfd0d1d2d3d4d5d6d7d8d9dadbdcdddedfe0e1e2e3e4e5e6e7e8e9eaebecedeeeff0f1f2f3f4f5f6f7f8f9\
            fafbfcfdfeff0102030405060708090a0b0c0d0e0f101112131415161718191a1b1c1d1e1f202122232425262728292a2b2c2d2e2f303132333435363738393a3b3c3d3e3f40\
            4142434445464748494a4b4c4d4e4f505152535455565758595a5b5c5d5e5f606162636465666768696a6b6c6d6e6f707172737475767778797a7b7c7d7e7f80",
        text: "no: bit 3272: CodeWord (clause 9.1)\n",
        status: 1,
    },
    // A picture of 256 times 144 macroblocks, of which nearly all is wanting.
    Case {
        name: "large picture",
        stream: "000000016742c033da0040004848078c19500000000168ce388000000165888493c0",
        text: "no: bit 272: Incomplete (clause 7.4.1)\n",
        status: 1,
    },
    // The last 16 elements stand before a no, the oldest first.
    Case {
        name: "last elements",
        stream: "000000016742c00ada710000000168ce388000000165888493",
        text: "element pic_init_qs_minus26 bit 131 value 0\nelement chroma_qp_index_offset bit 132 value 0\n\
            element deblocking_filter_control_present_flag bit 133 value 0\nelement constrained_intra_pred_flag bit 134 value 0\n\
            element redundant_pic_cnt_present_flag bit 135 value 0\nelement first_mb_in_slice bit 176 value 0\n\
            element slice_type bit 177 value 7\nelement pic_parameter_set_id bit 184 value 0\nelement frame_num bit 185 value 0\n\
            element idr_pic_id bit 189 value 0\nelement no_output_of_prior_pics_flag bit 190 value 0\n\
            element long_term_reference_flag bit 191 value 0\nelement slice_qp_delta bit 192 value 0\nelement mb_type bit 193 value 3\n\
            element intra_chroma_pred_mode bit 198 value 0\nelement mb_qp_delta bit 199 value 0\nno: bit 200: ResidualWord (clause 9.2)\n",
        status: 1,
    },
];

/// Rules that units, headers and their order break, and vectors.
pub const RULES: [Case; 12] = [
    Case {
        name: "gap that is not allowed",
        stream: "000000016742c00ada710000000168ce388000000165888493c0000001619a42a0",
        text: "no: bit 247: FrameNum (clause 7.4.3)\n",
        status: 1,
    },
    Case {
        name: "number of the picture before",
        stream: "000000016742c00ada710000000168ce388000000165888493c0000001619a02a0",
        text: "no: bit 247: FrameNum (clause 7.4.3)\n",
        status: 1,
    },
    Case {
        name: "frame too large",
        stream: "000000016742c00ada0c1310",
        text: "no: bit 80: FrameSize (clause A.3)\n",
        status: 1,
    },
    Case {
        name: "set without a picture",
        stream: "000000016742c00ada0b1310",
        text: "no: bit 96: NoPicture (clause 7.4.1)\n",
        status: 1,
    },
    // No IDR picture comes before.
    Case {
        name: "first picture",
        stream: "000000016742c00ada710000000168ce3880000001619a22a0",
        text: "no: bit 168: FirstPicture (clause 7.4.1)\n",
        status: 1,
    },
    Case {
        name: "absent frame marked",
        stream: "000000016742c00ada710000000168ce388000000165888493c0000001619a252d40",
        text: "no: bit 254: MarkCommand (clause 8.2.5)\n",
        status: 1,
    },
    // 1, 2 and 3 are missing, and the IDR picture is let go.
    Case {
        name: "missing frames alone",
        stream: "000000016742c00adbf10000000168ce388000000165888493c0000001619a82a0",
        text: "no: bit 255: NoReference (clause 8.4.2)\n",
        status: 1,
    },
    // ref_idx_l0 is 0.
    Case {
        name: "missing frame referred to",
        stream: "000000016742c00adbf10000000168ce388000000165888493c0000001619a547f80",
        text: "no: bit 260: NoReference (clause 8.4.2)\n",
        status: 1,
    },
    Case {
        name: "level 6",
        stream: "000000016742c03cda71",
        text: "outside: bit 56: Level6\n",
        status: 2,
    },
    Case {
        name: "buffer below the references",
        stream: "000000016742c00ada7201e306700000000168ce388000000165888493c0",
        text: "no: bit 106: Vui (clause E.2)\n",
        status: 1,
    },
    // 256 quarter samples down at level 1.
    Case {
        name: "vector too long",
        stream: "000000016742c00ada710000000168ce388000000165888493c0000001619a23c01006",
        text: "no: bit 256: VectorRange (clause A.3)\n",
        status: 1,
    },
    Case {
        name: "absent frame in a list",
        stream: "000000016742c00ada710000000168ce388000000165888493c0000001619a2d1150",
        text: "no: bit 253: ListCommand (clause 8.2.4)\n",
        status: 1,
    },
];
