//! Streams judged for each target: the profile, the elements of weighted prediction in a picture parameter set, and tables of weights.
#![tactic(auto)]

use crate::tests::Case;

/// What is answered for Constrained Baseline.
pub const FOR_BASELINE: [Case; 9] = [
    Case {
        name: "one frame",
        stream: "000000016742c00ada710000000168ce388000000165888493c0",
        text: "yes: units 3 pictures 1 frames 1\n",
        status: 0,
    },
    Case {
        name: "Main, with weights",
        stream: "00000001674d400ada710000000168cf388000000165888493c0000001619a22cc52a0",
        text: "no: bit 40: Profile (clause A.2)\n",
        status: 1,
    },
    Case {
        name: "weights",
        stream: "000000016742c00ada710000000168cf388000000165888493c0000001619a22cc52a0",
        text: "no: bit 127: Tool (clause A.2)\n",
        status: 1,
    },
    Case {
        name: "Extended alone",
        stream: "000000016758400ada710000000168ce388000000165888493c0",
        text: "no: bit 40: Profile (clause A.2)\n",
        status: 1,
    },
    Case {
        name: "weighted_bipred_idc 2",
        stream: "000000016742c00ada710000000168ceb88000000165888493c0",
        text: "no: bit 128: Tool (clause A.2)\n",
        status: 1,
    },
    Case {
        name: "weighted_bipred_idc 3",
        stream: "000000016742c00ada710000000168cef88000000165888493c0",
        text: "no: bit 128: Tool (clause A.2)\n",
        status: 1,
    },
    Case {
        name: "luma_weight_l0 127",
        stream: "000000016742c00ada710000000168cf388000000165888493c0000001619a22c07f4a80",
        text: "no: bit 127: Tool (clause A.2)\n",
        status: 1,
    },
    Case {
        name: "luma_weight_l0 -128",
        stream: "000000016742c00ada710000000168cf388000000165888493c0000001619a22c02032a0",
        text: "no: bit 127: Tool (clause A.2)\n",
        status: 1,
    },
    Case {
        name: "luma_weight_l0 128",
        stream: "000000016742c00ada710000000168cf388000000165888493c0000001619a22c0201f",
        text: "no: bit 127: Tool (clause A.2)\n",
        status: 1,
    },
];

/// What is answered for Main's progressive streams.
pub const FOR_MAIN_IP: [Case; 9] = [
    Case {
        name: "one frame",
        stream: "000000016742c00ada710000000168ce388000000165888493c0",
        text: "yes: units 3 pictures 1 frames 1\n",
        status: 0,
    },
    Case {
        name: "Main, with weights",
        stream: "00000001674d400ada710000000168cf388000000165888493c0000001619a22cc52a0",
        text: "yes: units 4 pictures 2 frames 2\n",
        status: 0,
    },
    Case {
        name: "weights",
        stream: "000000016742c00ada710000000168cf388000000165888493c0000001619a22cc52a0",
        text: "yes: units 4 pictures 2 frames 2\n",
        status: 0,
    },
    Case {
        name: "Extended alone",
        stream: "000000016758400ada710000000168ce388000000165888493c0",
        text: "no: bit 40: Profile (clause A.2)\n",
        status: 1,
    },
    Case {
        name: "weighted_bipred_idc 2",
        stream: "000000016742c00ada710000000168ceb88000000165888493c0",
        text: "yes: units 3 pictures 1 frames 1\n",
        status: 0,
    },
    Case {
        name: "weighted_bipred_idc 3",
        stream: "000000016742c00ada710000000168cef88000000165888493c0",
        text: "no: bit 128: Range (clause 7.4)\n",
        status: 1,
    },
    Case {
        name: "luma_weight_l0 127",
        stream: "000000016742c00ada710000000168cf388000000165888493c0000001619a22c07f4a80",
        text: "yes: units 4 pictures 2 frames 2\n",
        status: 0,
    },
    Case {
        name: "luma_weight_l0 -128",
        stream: "000000016742c00ada710000000168cf388000000165888493c0000001619a22c02032a0",
        text: "yes: units 4 pictures 2 frames 2\n",
        status: 0,
    },
    Case {
        name: "luma_weight_l0 128",
        stream: "000000016742c00ada710000000168cf388000000165888493c0000001619a22c0201f",
        text: "no: bit 258: Range (clause 7.4)\n",
        status: 1,
    },
];
