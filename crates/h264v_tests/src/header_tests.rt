//! What `headers` answers. The expected bits are counted from the lengths
//! of the elements before.
#![tactic(auto)]

use crate::tests::Case;

/// Where pictures begin, their sets and their slices.
pub const PICTURES: [Case; 14] = [
    // A stream without a picture.
    Case {
        name: "no picture",
        stream: "",
        text: "no: bit 0: NoPicture (clause 7.4.1)\n",
        status: 1,
    },
    // Parameter sets alone are no picture.
    Case {
        name: "no picture after sets",
        stream: "000000016742c00ada710000000168ce3880",
        text: "no: bit 144: NoPicture (clause 7.4.1)\n",
        status: 1,
    },
    // One IDR picture.
    Case {
        name: "one picture",
        stream: "000000016742c00ada710000000168ce388000000165888493c0",
        text: "slice 21 mb 0 type I frame 0 count 0\nyes: units 3 pictures 1\n",
        status: 0,
    },
    // Two IDR pictures with different idr_pic_id.
    Case {
        name: "two idr pictures",
        stream: "000000016742c00ada710000000168ce388000000165888493c000000165888224f0",
        text: "slice 21 mb 0 type I frame 0 count 0\nslice 29 mb 0 type I frame 0 count 0\nyes: units 4 pictures 2\n",
        status: 0,
    },
    // A header that comes again is a second slice of the picture.
    Case {
        name: "two slices of a picture",
        stream: "000000016742c00ada710000000168ce388000000165888493c000000165888493c0",
        text: "slice 21 mb 0 type I frame 0 count 0\nslice 29 mb 0 type I frame 0 count 0\nyes: units 4 pictures 1\n",
        status: 0,
    },
    // A delimiter ends the picture, and the next IDR picture has its idr_pic_id.
    Case {
        name: "same idr pic id",
        stream: "000000016742c00ada710000000168ce388000000165888493c0000001091000000165888493c0",
        text: "slice 21 mb 0 type I frame 0 count 0\nno: bit 293: IdrPicId (clause 7.4.3)\n",
        status: 1,
    },
    // A second slice with another no_output_of_prior_pics_flag.
    Case {
        name: "other marking",
        stream: "000000016742c00ada710000000168ce388000000165888493c000000165888693c0",
        text: "slice 21 mb 0 type I frame 0 count 0\nno: bit 254: MarkDiffers (clause 7.4.3)\n",
        status: 1,
    },
    // A P slice of an IDR picture.
    Case {
        name: "p slice of an idr picture",
        stream: "000000016742c00ada710000000168ce388000000165e10c",
        text: "no: bit 177: SliceType (clause 7.4.3)\n",
        status: 1,
    },
    // frame_num 1 of an IDR picture.
    Case {
        name: "frame num of an idr picture",
        stream: "000000016742c00ada710000000168ce388000000165888c93c0",
        text: "no: bit 185: FrameNum (clause 7.4.3)\n",
        status: 1,
    },
    // slice_qp_delta 26 leads to a QP of 52.
    Case {
        name: "qp 52",
        stream: "000000016742c00ada710000000168ce38800000016588840690",
        text: "no: bit 192: Qp (clause 7.4.3)\n",
        status: 1,
    },
    // A slice before its picture parameter set.
    Case {
        name: "no set",
        stream: "000000016742c00ada7100000165888493c0",
        text: "no: bit 120: NoSet (clause 7.4.1)\n",
        status: 1,
    },
    // pic_parameter_set_id 256, which no set has.
    Case {
        name: "no set of id 256",
        stream: "000000016742c00ada710000000168ce388000000165880080c0",
        text: "no: bit 184: NoSet (clause 7.4.1)\n",
        status: 1,
    },
    // A P picture after the IDR picture.
    Case {
        name: "p picture",
        stream: "000000016742c00ada710000000168ce388000000165888493c0000001619a22a0",
        text: "slice 21 mb 0 type I frame 0 count 0\nslice 29 mb 0 type P frame 1 count 2\nyes: units 4 pictures 2\n",
        status: 0,
    },
    // A P picture comes first.
    Case {
        name: "first picture is no idr picture",
        stream: "000000016742c00ada710000000168ce3880000001619a22a0",
        text: "no: bit 168: FirstPicture (clause 7.4.1)\n",
        status: 1,
    },
];

/// Numbers of frames, gaps, markings and lists.
pub const MARKINGS: [Case; 13] = [
    // Operation 5: the count of the header is told, before it is set back.
    Case {
        name: "operation 5",
        stream: "000000016742c00ada710000000168ce388000000165888493c000000161888cd93c",
        text: "slice 21 mb 0 type I frame 0 count 0\nslice 29 mb 0 type I frame 1 count 2\nyes: units 4 pictures 2\n",
        status: 0,
    },
    // frame_num 2 after 0, where no gap is allowed.
    Case {
        name: "gap not allowed",
        stream: "000000016742c00ada710000000168ce388000000165888493c0000001619a42a0",
        text: "slice 21 mb 0 type I frame 0 count 0\nno: bit 247: FrameNum (clause 7.4.3)\n",
        status: 1,
    },
    // frame_num 0 again in a reference picture.
    Case {
        name: "frame num again",
        stream: "000000016742c00ada710000000168ce388000000165888493c0000001619a02a0",
        text: "slice 21 mb 0 type I frame 0 count 0\nno: bit 247: FrameNum (clause 7.4.3)\n",
        status: 1,
    },
    // frame_num 4 after 0 with two reference frames: 1, 2 and 3 are missing, and the IDR picture leaves.
    Case {
        name: "gap filled",
        stream: "000000016742c00adbf10000000168ce388000000165888493c0000001619a82a0",
        text: "slice 21 mb 0 type I frame 0 count 0\nslice 29 mb 0 type P frame 4 count 8\nyes: units 4 pictures 2\n",
        status: 0,
    },
    // Operation 1 on a frame that is not held: the picture ends with the input.
    Case {
        name: "absent frame unmarked",
        stream: "000000016742c00ada710000000168ce388000000165888493c0000001619a252d40",
        text: "slice 21 mb 0 type I frame 0 count 0\nslice 29 mb 0 type P frame 1 count 2\nno: bit 254: MarkCommand (clause 8.2.5)\n",
        status: 1,
    },
    // Operation 1 on the IDR picture.
    Case {
        name: "idr picture unmarked",
        stream: "000000016742c00ada710000000168ce388000000165888493c0000001619a2575",
        text: "slice 21 mb 0 type I frame 0 count 0\nslice 29 mb 0 type P frame 1 count 2\nyes: units 4 pictures 2\n",
        status: 0,
    },
    // Operations 4 and 3 make the IDR picture a long-term frame, and 2 unmarks it.
    Case {
        name: "long term idr picture",
        stream: "000000016742c00ada710000000168ce388000000165888493c0000001619a24a89bea",
        text: "slice 21 mb 0 type I frame 0 count 0\nslice 29 mb 0 type P frame 1 count 2\nyes: units 4 pictures 2\n",
        status: 0,
    },
    // A modification names frame_num 14, two before 0, which is not held.
    Case {
        name: "absent frame listed",
        stream: "000000016742c00ada710000000168ce388000000165888493c0000001619a2d1150",
        text: "slice 21 mb 0 type I frame 0 count 0\nno: bit 253: ListCommand (clause 8.2.4)\n",
        status: 1,
    },
    // A modification names the IDR picture.
    Case {
        name: "idr picture listed",
        stream: "000000016742c00ada710000000168ce388000000165888493c0000001619a2e4540",
        text: "slice 21 mb 0 type I frame 0 count 0\nslice 29 mb 0 type P frame 1 count 2\nyes: units 4 pictures 2\n",
        status: 0,
    },
    // A second slice has an empty list of operations in place of the sliding window.
    Case {
        name: "marking of a later slice",
        stream: "000000016742c00ada710000000168ce388000000165888493c0000001619a22a0000001619a2780",
        text: "slice 21 mb 0 type I frame 0 count 0\nslice 29 mb 0 type P frame 1 count 2\nno: bit 309: MarkDiffers (clause 7.4.3)\n",
        status: 1,
    },
    // An I slice in a picture whose first slice says that all are P.
    Case {
        name: "type of a later slice",
        stream: "000000016742c00ada710000000168ce388000000165888493c0000001619a22a000000161888b80",
        text: "slice 21 mb 0 type I frame 0 count 0\nslice 29 mb 0 type P frame 1 count 2\nno: bit 297: SliceType (clause 7.4.3)\n",
        status: 1,
    },
    // A delimiter ends the picture, whose marking comes before what follows.
    Case {
        name: "marking before the next unit",
        stream: "000000016742c00ada710000000168ce388000000165888493c0000001619a252d40000001091000000167",
        text: "slice 21 mb 0 type I frame 0 count 0\nslice 29 mb 0 type P frame 1 count 2\nno: bit 254: MarkCommand (clause 8.2.5)\n",
        status: 1,
    },
    // frame_num 2 after 0 with two reference frames: 1 is missing, and two places of the list are active.
    Case {
        name: "gap of one",
        stream: "000000016742c00adbf10000000168ce388000000165888493c0000001619a547780",
        text: "slice 21 mb 0 type I frame 0 count 0\nslice 29 mb 0 type P frame 2 count 4\nyes: units 4 pictures 2\n",
        status: 0,
    },
];
