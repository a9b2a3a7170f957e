//! What `frames` prints.
#![tactic(auto)]

use crate::tests::Case;

/// Streams whose samples are all 128, with their frames in the order of output.
pub const FRAMES: [Case; 6] = [
    // No slice at all.
    Case {
        name: "no picture",
        stream: "",
        text: "no: bit 0: NoPicture (clause 7.4.1)\n",
        status: 1,
    },
    // One macroblock, whose samples are all 128.
    Case {
        name: "one frame",
        stream: "000000016742c00ada710000000168ce388000000165888493c0",
        text: "frame 0 count 0 16x16 md5 02b5d5d5ba2a5de00017b31c40c527bc\nyes: units 3 pictures 1 frames 1\n",
        status: 0,
    },
    // That picture, and one of a skipped macroblock.
    Case {
        name: "two frames",
        stream: "000000016742c00ada710000000168ce388000000165888493c0000001619a22a0",
        text: "frame 0 count 0 16x16 md5 02b5d5d5ba2a5de00017b31c40c527bc\nframe 1 count 2 16x16 md5 02b5d5d5ba2a5de00017b31c40c527bc\n\
            yes: units 4 pictures 2 frames 2\n",
        status: 0,
    },
    // A frame that waits as a rule is broken is not written.
    Case {
        name: "frame that waits before a no",
        stream: "000000016742c00ada710000000168ce388000000165888493c0000001091000000165888493c0",
        text: "no: bit 293: IdrPicId (clause 7.4.3)\n",
        status: 1,
    },
    // The second IDR picture has written the first, once a delimiter has ended it.
    Case {
        name: "frame before a no",
        stream: "000000016742c00ada710000000168ce388000000165888493c000000165888224f0000001091000000165888224f0",
        text: "frame 0 count 0 16x16 md5 02b5d5d5ba2a5de00017b31c40c527bc\nno: bit 357: IdrPicId (clause 7.4.3)\n",
        status: 1,
    },
    // no_output_of_prior_pics_flag of the second IDR picture is 1.
    Case {
        name: "no output of prior pictures",
        stream: "000000016742c00ada710000000168ce388000000165888493c0000001658882a4f0",
        text: "frame 0 count 0 16x16 md5 02b5d5d5ba2a5de00017b31c40c527bc\nyes: units 4 pictures 2 frames 1\n",
        status: 0,
    },
];

/// Streams whose frames are known sample by sample, from the equations of prediction and of the filter.
pub const COMPUTED: [Case; 21] = [
    // disable_deblocking_filter_idc is 1: sixteen columns of 128 and sixteen of 131, with the edge between them as it was constructed.
    Case {
        name: "filter off",
        stream: "000000016742c00ada2c400000000168ce3c80000001658884a2726287",
        text: "frame 0 count 0 32x16 md5 85d5b1cb0d928dd2f6258ff9a7ef3e9f\nyes: units 3 pictures 1 frames 1\n",
        status: 0,
    },
    // The inner edge at column 20 changes what the edge at 16 wrote.
    Case {
        name: "wide frame",
        stream: "000000016742c00ada2c400000000168ce388000000165888493931438",
        text: "frame 0 count 0 32x16 md5 9d66341b49e6f1d7c1d7bfff806aa2f1\nyes: units 3 pictures 1 frames 1\n",
        status: 0,
    },
    // A vector of 64 quarter samples, and a skipped macroblock with the vector before it.
    Case {
        name: "wide frames",
        stream: "000000016742c00ada2c400000000168ce388000000165888493931438000001619a238080d4",
        text: "frame 0 count 0 32x16 md5 9d66341b49e6f1d7c1d7bfff806aa2f1\nframe 1 count 2 32x16 md5 fcc4379b95970020e6550b2d99f350e7\n\
            yes: units 4 pictures 2 frames 2\n",
        status: 0,
    },
    // Two active references, of which one is held; ref_idx_l0 is 0.
    Case {
        name: "second of two references",
        stream: "000000016742c00ada710000000168ce388000000165888493c0000001619a347f80",
        text: "frame 0 count 0 16x16 md5 02b5d5d5ba2a5de00017b31c40c527bc\nframe 1 count 2 16x16 md5 02b5d5d5ba2a5de00017b31c40c527bc\n\
            yes: units 4 pictures 2 frames 2\n",
        status: 0,
    },
    // Operation 1 on the IDR picture.
    Case {
        name: "held frame marked unused",
        stream: "000000016742c00ada710000000168ce388000000165888493c0000001619a2575",
        text: "frame 0 count 0 16x16 md5 02b5d5d5ba2a5de00017b31c40c527bc\nframe 1 count 2 16x16 md5 02b5d5d5ba2a5de00017b31c40c527bc\n\
            yes: units 4 pictures 2 frames 2\n",
        status: 0,
    },
    // A long-term frame is made, and let go.
    Case {
        name: "operations 4, 3, 2",
        stream: "000000016742c00ada710000000168ce388000000165888493c0000001619a24a89bea",
        text: "frame 0 count 0 16x16 md5 02b5d5d5ba2a5de00017b31c40c527bc\nframe 1 count 2 16x16 md5 02b5d5d5ba2a5de00017b31c40c527bc\n\
            yes: units 4 pictures 2 frames 2\n",
        status: 0,
    },
    // Counts 0, 8, 4 in decoding order.
    Case {
        name: "buffer of one frame",
        stream: "000000016742c00af4e403f4a00000000168ce3880000001658884093c000001019a3054000001019a2854",
        text: "frame 0 count 0 16x16 md5 02b5d5d5ba2a5de00017b31c40c527bc\nframe 1 count 8 16x16 md5 02b5d5d5ba2a5de00017b31c40c527bc\n\
            frame 2 count 4 16x16 md5 02b5d5d5ba2a5de00017b31c40c527bc\nyes: units 5 pictures 3 frames 3\n",
        status: 0,
    },
    // These pictures, with one frame more in the buffer.
    Case {
        name: "buffer of two frames",
        stream: "000000016742c00af4e403f4e00000000168ce3880000001658884093c000001019a3054000001019a2854",
        text: "frame 0 count 0 16x16 md5 02b5d5d5ba2a5de00017b31c40c527bc\nframe 1 count 4 16x16 md5 02b5d5d5ba2a5de00017b31c40c527bc\n\
            frame 2 count 8 16x16 md5 02b5d5d5ba2a5de00017b31c40c527bc\nyes: units 5 pictures 3 frames 3\n",
        status: 0,
    },
    Case {
        name: "intra pictures, buffer of one frame",
        stream: "000000016742c00af4e403f4a00000000168ce3880000001658884093c00000101888c49e000000101888a49e0",
        text: "frame 0 count 0 16x16 md5 02b5d5d5ba2a5de00017b31c40c527bc\nframe 1 count 8 16x16 md5 02b5d5d5ba2a5de00017b31c40c527bc\n\
            frame 2 count 4 16x16 md5 02b5d5d5ba2a5de00017b31c40c527bc\nyes: units 5 pictures 3 frames 3\n",
        status: 0,
    },
    Case {
        name: "intra pictures, buffer of two frames",
        stream: "000000016742c00af4e403f4e00000000168ce3880000001658884093c00000101888c49e000000101888a49e0",
        text: "frame 0 count 0 16x16 md5 02b5d5d5ba2a5de00017b31c40c527bc\nframe 1 count 4 16x16 md5 02b5d5d5ba2a5de00017b31c40c527bc\n\
            frame 2 count 8 16x16 md5 02b5d5d5ba2a5de00017b31c40c527bc\nyes: units 5 pictures 3 frames 3\n",
        status: 0,
    },
    // 1 is missing, and ref_idx_l0 is 1.
    Case {
        name: "reference after a gap",
        stream: "000000016742c00adbf10000000168ce388000000165888493c0000001619a547780",
        text: "frame 0 count 0 16x16 md5 02b5d5d5ba2a5de00017b31c40c527bc\nframe 1 count 4 16x16 md5 02b5d5d5ba2a5de00017b31c40c527bc\n\
            yes: units 4 pictures 2 frames 2\n",
        status: 0,
    },
    // 1, 2 and 3 are missing.
    Case {
        name: "intra picture after a gap",
        stream: "000000016742c00adbf10000000168ce388000000165888493c00000016188a24f",
        text: "frame 0 count 0 16x16 md5 02b5d5d5ba2a5de00017b31c40c527bc\nframe 1 count 8 16x16 md5 02b5d5d5ba2a5de00017b31c40c527bc\n\
            yes: units 4 pictures 2 frames 2\n",
        status: 0,
    },
    // 1 is missing once.
    Case {
        name: "pictures of one number after a gap",
        stream: "000000016742c00adbf10000000168ce388000000165888493c00000010188949e0000016188924f",
        text: "frame 0 count 0 16x16 md5 02b5d5d5ba2a5de00017b31c40c527bc\nframe 1 count 3 16x16 md5 02b5d5d5ba2a5de00017b31c40c527bc\n\
            frame 2 count 4 16x16 md5 02b5d5d5ba2a5de00017b31c40c527bc\nyes: units 5 pictures 3 frames 3\n",
        status: 0,
    },
    Case {
        name: "operation 5",
        stream: "000000016742c00ada710000000168ce388000000165888493c000000161888cd93c",
        text: "frame 0 count 0 16x16 md5 02b5d5d5ba2a5de00017b31c40c527bc\nframe 1 count 0 16x16 md5 02b5d5d5ba2a5de00017b31c40c527bc\n\
            yes: units 4 pictures 2 frames 2\n",
        status: 0,
    },
    // level_prefix 15.
    Case {
        name: "level 17",
        stream: "000000016742c00ada710000000168ce3880000001658884931400040030",
        text: "frame 0 count 0 16x16 md5 ac42e7a621a04cff332affb2dfdf370d\nyes: units 3 pictures 1 frames 1\n",
        status: 0,
    },
    // 51 and 1 are 0.
    Case {
        name: "quantiser that wraps",
        stream: "000000016742c00ada710000000168ce38800000016588840644a140004003",
        text: "frame 0 count 0 16x16 md5 f92ecfd618a814ecb77996a783377282\nyes: units 3 pictures 1 frames 1\n",
        status: 0,
    },
    Case {
        name: "two idr pictures",
        stream: "000000016742c00ada710000000168ce388000000165888493c000000165888224f0",
        text: "frame 0 count 0 16x16 md5 02b5d5d5ba2a5de00017b31c40c527bc\nframe 1 count 0 16x16 md5 02b5d5d5ba2a5de00017b31c40c527bc\n\
            yes: units 4 pictures 2 frames 2\n",
        status: 0,
    },
    Case {
        name: "buffer of the vui",
        stream: "000000016742c00ada7201e306540000000168ce388000000165888493c0",
        text: "frame 0 count 0 16x16 md5 02b5d5d5ba2a5de00017b31c40c527bc\nyes: units 3 pictures 1 frames 1\n",
        status: 0,
    },
    // 255 quarter samples down at level 1.
    Case {
        name: "longest vector",
        stream: "000000016742c00ada710000000168ce388000000165888493c0000001619a23c03fd8",
        text: "frame 0 count 0 16x16 md5 02b5d5d5ba2a5de00017b31c40c527bc\nframe 1 count 2 16x16 md5 02b5d5d5ba2a5de00017b31c40c527bc\n\
            yes: units 4 pictures 2 frames 2\n",
        status: 0,
    },
    Case {
        name: "cropped at the right and below",
        stream: "000000016742c00ada2daa400000000168ce388000000165888493931438",
        text: "frame 0 count 0 30x14 md5 1e038756176c1fe5deb88d67ed7158b7\nyes: units 3 pictures 1 frames 1\n",
        status: 0,
    },
    Case {
        name: "cropped on the left and above",
        stream: "000000016742c00ada2d55400000000168ce388000000165888493931438",
        text: "frame 0 count 0 30x14 md5 ac43a633c153ee8923aeb3f0caa44ad3\nyes: units 3 pictures 1 frames 1\n",
        status: 0,
    },
];

/// Samples as they stand, and streams with cropped frames, whose digests other decoders computed.
pub const CROPPED: [Case; 3] = [
    // An I_PCM macroblock, with the digest of its samples.
    Case {
        name: "samples",
        stream: "000000016742c00ada710000000168ce388000000165888486800102030405060708090a0b0c0d0e0f101112131415161718191a1b1c1d1e1f2021222324252627\
            28292a2b2c2d2e2f303132333435363738393a3b3c3d3e3f404142434445464748494a4b4c4d4e4f505152535455565758595a5b5c5d5e5f606162636465666768696a6b6c6d\
            6e6f707172737475767778797a7b7c7d7e7f808182838485868788898a8b8c8d8e8f909192939495969798999a9b9c9d9e9fa0a1a2a3a4a5a6a7a8a9aaabacadaeafb0b1b2b3\
            b4b5b6b7b8b9babbbcbdbebfc0c1c2c3c4c5c6c7c8c9cacbcccdcecfd0d1d2d3d4d5d6d7d8d9dadbdcdddedfe0e1e2e3e4e5e6e7e8e9eaebecedeeeff0f1f2f3f4f5f6f7f8f9\
            fafbfcfdfeff0102030405060708090a0b0c0d0e0f101112131415161718191a1b1c1d1e1f202122232425262728292a2b2c2d2e2f303132333435363738393a3b3c3d3e3f40\
            4142434445464748494a4b4c4d4e4f505152535455565758595a5b5c5d5e5f606162636465666768696a6b6c6d6e6f707172737475767778797a7b7c7d7e7f808180",
        text: "frame 0 count 0 16x16 md5 096bdbb51cdde493bddd3e76ae8e3210\nyes: units 3 pictures 1 frames 1\n",
        status: 0,
    },
    // Cropped frames, with missing frame numbers before the second.
    Case {
        name: "cropped frames",
        stream: "0000014758ce16aa26e9a16a00000168ca61832c80000000012801852a083ba00000016801e12900d820c80000000145b01e004142ac61c986a819c548c8d3608ac30c4212d8\
            5000000101b01e051828673fbf92b40a526206c4cd6f2b204300d0c36e101a004183c90017d02f1c0889bf263c582070b112eda6001a800f2ca1d73f60a4da3898df70210094\
            1a1511301d87d0f15f15718c08fa10185935bb3521465a440000000121c07814b638976db29107200740a9f1213947ed6006e4e920ef3e7306c6088000adb326f4e88d8e7404\
            7d6c2c306a97ec4142d07a13fd0ea1fe00712a426d51e1897ee70fe0d1ac83cc58f2380bcbc1fe38b30019929b5f041017a5e0fd6926582f4e",
        text: "frame 0 count 1 6x6 md5 2147d40ca5a400a3d2be9c800b3a338e\nframe 1 count 3 6x6 md5 2cb73876234044c849fccf0965e8b7c2\n\
            frame 2 count 5 6x6 md5 84784e40ec0fc1bf5a6f6124e4a642df\nyes: units 7 pictures 3 frames 3\n",
        status: 0,
    },
    // The second picture is written first.
    Case {
        name: "other order of output",
        stream: "000001274da60b97644a51034c800000000168de02a0bf200000014807d360111320000001258807c008207f30bde4f8d482ef8302c09e02181400b801006821323c142d2634\
            403e321b00151d45011b586a5854003713051c164b506c1080057c681802f1eb660060157c8e605ac67400edc0f81c402f107a82f1e016760035b4161ac1cc98f1040407b87c\
            155c081400b86eea0a11d5e87e06238b0633026f070c636cb0d00059b8444389f634984bb34641d9c56042042c80f488c5c1fa9d857054a65c0781002189bb8642523c26ed8e\
            4606b0a40121078805050eb8002804205b4eed01d7648790500365e3374200ee082016984c50401ae781a85a660474143016511c0fe380be02142e2882eb0a845442e74c866f\
            d083a8fef02515907691210f067c4aba405800401c8e7a4905281048130cdb0030b88e42b838d40f058585f0a03000d530ba06f2b1ec83562e8c20b46f287502dd721020c2d0\
            0e4ac005d0050062964a2d4d25095121620c154f6100e0480118f3e2fe161fb851c15a1438030d9d883020297bf0f4880853d00390623e51407844f2def039f2182ee0205153\
            c5985c8023452e043387e9b00b1e06004028ad848320c00000000101888091c126204605e68ac430004b5c00000001014e02470688905a2c20a7d00a0691828a93203411c83b\
            8315040e98c100a06e6312848e9e7cc59e0c218b04762bc13ce5e3044515fae40e41f7a20ee2c852fa0e2f4108e2248187bc5d8385738c2b942c342d5fa2f31c03433e000800\
            da94f49f86446a96d397178b30e0d8af0059df3e3551112b00000001419a028c02444184a02074a3b2c0",
        text: "frame 0 count -1 10x30 md5 e9c08eb5ac6c4493a7d26bd1ea5e97de\nframe 1 count 0 10x30 md5 b92f074754fd0cb0d4df77bb716a5462\n\
            frame 2 count 3 10x30 md5 56bf8357ea8daba958145db3b485bcf5\nyes: units 7 pictures 3 frames 3\n",
        status: 0,
    },
];
