//! Parameter sets written bit by bit by hand: each element at the ends of its range, and one beyond; each optional part once.
#![tactic(auto)]

use crate::tests::Case;

/// Parameter sets, as `units` judges them.
pub const SETS_0: [Case; 16] = [
    Case {
        name: "id greatest",
        stream: "0000016742c00a041d3880",
        text: "unit 3 type 7 ref 3 bytes 8\nyes: units 1\n",
        status: 0,
    },
    Case {
        name: "id too great",
        stream: "0000016742c00a043d3880",
        text: "unit 3 type 7 ref 3 bytes 8\nno: bit 56: Range (clause 7.4)\n",
        status: 1,
    },
    Case {
        name: "log2fn greatest",
        stream: "0000016742c00a8dd388",
        text: "unit 3 type 7 ref 3 bytes 7\nyes: units 1\n",
        status: 0,
    },
    Case {
        name: "log2fn too great",
        stream: "0000016742c00a8ed388",
        text: "unit 3 type 7 ref 3 bytes 7\nno: bit 57: Range (clause 7.4)\n",
        status: 1,
    },
    Case {
        name: "lsb greatest",
        stream: "0000016742c00ae35388",
        text: "unit 3 type 7 ref 3 bytes 7\nyes: units 1\n",
        status: 0,
    },
    Case {
        name: "lsb too great",
        stream: "0000016742c00ae39388",
        text: "unit 3 type 7 ref 3 bytes 7\nno: bit 59: Range (clause 7.4)\n",
        status: 1,
    },
    Case {
        name: "refs greatest",
        stream: "0000016742c00af08b88",
        text: "unit 3 type 7 ref 3 bytes 7\nyes: units 1\n",
        status: 0,
    },
    Case {
        name: "refs too great",
        stream: "0000016742c00af09388",
        text: "unit 3 type 7 ref 3 bytes 7\nno: bit 60: Range (clause 7.4)\n",
        status: 1,
    },
    Case {
        name: "type 2",
        stream: "0000016742c00ada71",
        text: "unit 3 type 7 ref 3 bytes 6\nyes: units 1\n",
        status: 0,
    },
    Case {
        name: "type 3",
        stream: "0000016742c00ac89c40",
        text: "unit 3 type 7 ref 3 bytes 7\nno: bit 58: Range (clause 7.4)\n",
        status: 1,
    },
    Case {
        name: "cycle of none",
        stream: "0000016742c00ad40000030007fffffff8000003000fffffffea71",
        text: "unit 3 type 7 ref 3 bytes 24\nyes: units 1\n",
        status: 0,
    },
    Case {
        name: "cycle of 255",
        stream: "0000016742c00ad00000030007fffffff8000003000fffffffe00800b8a0a0781403207804602801680c806e03c00820118025805000aa016802f806400d201b8039807800fa\
            008200438023001220096004d80280014a00aa0057802d0017200be006180320019a00d2006b8037001c200e60075803c001ea00fa007f8010400212004380089801180023a0\
            048800938012c00262004d8009d801400028a0052800a780154002b20057800b180168002da005c800bb8017c003020061800c5801900032a0066800cf801a400352006b800d\
            9801b80037a0070800e3801cc003a20075800ed801e0003ca007a800f7801f4003f2007f80040600208001068008480042e0021c0011080089800456002300011a8008e80047\
            e0024400124800938004a6002580012e800988004ce0026c001388009d8004f60028000142800a280051e002940014c800a7800546002a800156800ac80056e002bc00160800\
            b1800596002d00016a800b68005be002e400174800bb8005e6002f80017e800c080060e0030c00188800c58006360032000192800ca80065e003340019c800cf800686003480\
            01a6800d48006ae0035c001b0800d98006d600370001ba800de8006fe00384001c4800e380072600398001ce800e880074e003ac001d8800ed800776003c0001e2800f280079\
            e003d4001ec800f78007c6003e8001f6800fc8007ee003fc0008020010180020580041000082a0010680020f8004240008520010b80021980043800087a0011080022380044c\
            0008a20011580022d8004600008ca0011a8002378004740008f20011f80024180048800091a0012480024b80049c000942001298002558004b000096a0012e80025f8004c400\
            0992001338002698004d80009ba001388002738004ec0009e24e20",
        text: "unit 3 type 7 ref 3 bytes 654\nyes: units 1\n",
        status: 0,
    },
    Case {
        name: "cycle of 256",
        stream: "0000016742c00ad00000030007fffffff8000003000fffffffe00808b8a0a0781403207804602801680c806e03c00820118025805000aa016802f806400d201b8039807800fa\
            008200438023001220096004d80280014a00aa0057802d0017200be006180320019a00d2006b8037001c200e60075803c001ea00fa007f8010400212004380089801180023a0\
            048800938012c00262004d8009d801400028a0052800a780154002b20057800b180168002da005c800bb8017c003020061800c5801900032a0066800cf801a400352006b800d\
            9801b80037a0070800e3801cc003a20075800ed801e0003ca007a800f7801f4003f2007f80040600208001068008480042e0021c0011080089800456002300011a8008e80047\
            e0024400124800938004a6002580012e800988004ce0026c001388009d8004f60028000142800a280051e002940014c800a7800546002a800156800ac80056e002bc00160800\
            b1800596002d00016a800b68005be002e400174800bb8005e6002f80017e800c080060e0030c00188800c58006360032000192800ca80065e003340019c800cf800686003480\
            01a6800d48006ae0035c001b0800d98006d600370001ba800de8006fe00384001c4800e380072600398001ce800e880074e003ac001d8800ed800776003c0001e2800f280079\
            e003d4001ec800f78007c6003e8001f6800fc8007ee003fc0008020010180020580041000082a0010680020f8004240008520010b80021980043800087a0011080022380044c\
            0008a20011580022d8004600008ca0011a8002378004740008f20011f80024180048800091a0012480024b80049c000942001298002558004b000096a0012e80025f8004c400\
            0992001338002698004d80009ba001388002738004ec0009e20013d89c40",
        text: "unit 3 type 7 ref 3 bytes 657\nno: bit 204: Range (clause 7.4)\n",
        status: 1,
    },
    Case {
        name: "width 28",
        stream: "0000016742c00af40e3880",
        text: "unit 3 type 7 ref 3 bytes 8\nyes: units 1\n",
        status: 0,
    },
    Case {
        name: "width 29",
        stream: "0000016742c00af40ee2",
        text: "unit 3 type 7 ref 3 bytes 7\nno: bit 73: FrameSize (clause A.3)\n",
        status: 1,
    },
    Case {
        name: "height 28",
        stream: "0000016742c00af461c880",
        text: "unit 3 type 7 ref 3 bytes 8\nyes: units 1\n",
        status: 0,
    },
];

/// More of them.
pub const SETS_1: [Case; 16] = [
    Case {
        name: "height 29",
        stream: "0000016742c00af48762",
        text: "unit 3 type 7 ref 3 bytes 7\nno: bit 65: FrameSize (clause A.3)\n",
        status: 1,
    },
    Case {
        name: "99 macroblocks",
        stream: "0000016742c00af4162620",
        text: "unit 3 type 7 ref 3 bytes 8\nyes: units 1\n",
        status: 0,
    },
    Case {
        name: "100 macroblocks",
        stream: "0000016742c00af4142a20",
        text: "unit 3 type 7 ref 3 bytes 8\nno: bit 71: FrameSize (clause A.3)\n",
        status: 1,
    },
    Case {
        name: "four reference frames of 99",
        stream: "0000016742c00af2858988",
        text: "unit 3 type 7 ref 3 bytes 8\nyes: units 1\n",
        status: 0,
    },
    Case {
        name: "five reference frames of 99",
        stream: "0000016742c00af3058988",
        text: "unit 3 type 7 ref 3 bytes 8\nno: bit 73: FrameSize (clause A.3)\n",
        status: 1,
    },
    Case {
        name: "widest code word",
        stream: "0000016742c00af40000030001ffffffff88",
        text: "unit 3 type 7 ref 3 bytes 15\nno: bit 135: FrameSize (clause A.3)\n",
        status: 1,
    },
    Case {
        name: "32 zeros",
        stream: "0000016742c00af40000030000800000030062",
        text: "unit 3 type 7 ref 3 bytes 16\nno: bit 64: CodeWord (clause 9.1)\n",
        status: 1,
    },
    Case {
        name: "fields",
        stream: "0000016742c00af4c2",
        text: "unit 3 type 7 ref 3 bytes 6\nno: bit 66: Tool (clause A.2)\n",
        status: 1,
    },
    Case {
        name: "cropped",
        stream: "0000016742c30af5f90a2280",
        text: "unit 3 type 7 ref 3 bytes 9\nyes: units 1\n",
        status: 0,
    },
    Case {
        name: "cropped away across",
        stream: "0000016742c00af4e94ba0",
        text: "unit 3 type 7 ref 3 bytes 8\nno: bit 74: Crop (clause 7.4.2)\n",
        status: 1,
    },
    Case {
        name: "cropped away down",
        stream: "0000016742c00af4ef1280",
        text: "unit 3 type 7 ref 3 bytes 8\nno: bit 72: Crop (clause 7.4.2)\n",
        status: 1,
    },
    Case {
        name: "whole vui",
        stream: "0000016742c00af4e7fe00500043ee02040d360000030003ffffffff820f08000003000ffffffff0851ec16243a502434159c0c8441c8901005408e2c04e1902a8d0170740c6\
            3c06a0840e21101e02503f84c021829011a1500940b404d85c02883101521900b00d405b86c02f839018a1d00cc0f406987c0368107e0c1ff08000000300ffffffff7c183f84\
            4221108a08c0",
        text: "unit 3 type 7 ref 3 bytes 143\nyes: units 1\n",
        status: 0,
    },
    Case {
        name: "one hrd too many",
        stream: "0000016742c00af4e41043e10000030001fffffffe10a3d82c4874a048682b381908839120200a811c5809c320551a02e0e818c780d41081c42203c04a07f09804305202342a\
            012816809b0b805106202a43201601a80b70d805f07203143a01981e80d30f806d02080e1042f8307680",
        text: "unit 3 type 7 ref 3 bytes 109\nno: bit 76: Range (clause 7.4)\n",
        status: 1,
    },
    Case {
        name: "second hrd too many",
        stream: "0000016742c00af4e41f840000030007fffffffbe0c1e087c20000030003fffffffc2147b05890e94090d05670321107224040150238b0138640aa3405c1d0318f01a8210388\
            440780940fe1300860a404685402502d01361700a20c405486402c035016e1b00be0e406287403303d01a61f00da04101c2085f060fa",
        text: "unit 3 type 7 ref 3 bytes 121\nno: bit 179: Range (clause 7.4)\n",
        status: 1,
    },
    Case {
        name: "vcl hrd alone",
        stream: "0000016742c00af4e4093c20000003003fffffffc2147b0589f8307d",
        text: "unit 3 type 7 ref 3 bytes 25\nyes: units 1\n",
        status: 0,
    },
    Case {
        name: "reorders more than it buffers",
        stream: "0000016742c00af4e4070884422116a0",
        text: "unit 3 type 7 ref 3 bytes 13\nno: bit 119: Vui (clause E.2)\n",
        status: 1,
    },
];

/// More of them.
pub const SETS_2: [Case; 16] = [
    Case {
        name: "buffers fewer than it refers to",
        stream: "0000016742c00af6e407088442211a80",
        text: "unit 3 type 7 ref 3 bytes 13\nno: bit 117: Vui (clause E.2)\n",
        status: 1,
    },
    Case {
        name: "buffers more than the level",
        stream: "0000016742c00af416264070884422119a",
        text: "unit 3 type 7 ref 3 bytes 14\nno: bit 129: Vui (clause E.2)\n",
        status: 1,
    },
    Case {
        name: "set with a byte after it",
        stream: "0000016742c00af4e280",
        text: "unit 3 type 7 ref 3 bytes 7\nno: bit 70: Trailing (clause 7.3.2)\n",
        status: 1,
    },
    Case {
        name: "pps id greatest",
        stream: "0000016800805e3e80",
        text: "unit 3 type 8 ref 3 bytes 6\nyes: units 1\n",
        status: 0,
    },
    Case {
        name: "pps id too great",
        stream: "000001680080de3e80",
        text: "unit 3 type 8 ref 3 bytes 6\nno: bit 32: Range (clause 7.4)\n",
        status: 1,
    },
    Case {
        name: "pps sps greatest",
        stream: "0000016882078fa0",
        text: "unit 3 type 8 ref 3 bytes 5\nyes: units 1\n",
        status: 0,
    },
    Case {
        name: "pps sps too great",
        stream: "0000016882178fa0",
        text: "unit 3 type 8 ref 3 bytes 5\nno: bit 33: Range (clause 7.4)\n",
        status: 1,
    },
    Case {
        name: "pps l0 greatest",
        stream: "00000168d8208fa0",
        text: "unit 3 type 8 ref 3 bytes 5\nyes: units 1\n",
        status: 0,
    },
    Case {
        name: "pps l0 too great",
        stream: "00000168d8218fa0",
        text: "unit 3 type 8 ref 3 bytes 5\nno: bit 37: Range (clause 7.4)\n",
        status: 1,
    },
    Case {
        name: "pps l1 greatest",
        stream: "00000168dc100fa0",
        text: "unit 3 type 8 ref 3 bytes 5\nyes: units 1\n",
        status: 0,
    },
    Case {
        name: "pps l1 too great",
        stream: "00000168dc108fa0",
        text: "unit 3 type 8 ref 3 bytes 5\nno: bit 38: Range (clause 7.4)\n",
        status: 1,
    },
    Case {
        name: "pps qp least",
        stream: "00000168de01afa0",
        text: "unit 3 type 8 ref 3 bytes 5\nyes: units 1\n",
        status: 0,
    },
    Case {
        name: "pps qp greatest",
        stream: "00000168de0197a0",
        text: "unit 3 type 8 ref 3 bytes 5\nyes: units 1\n",
        status: 0,
    },
    Case {
        name: "pps qp too small",
        stream: "00000168de01bfa0",
        text: "unit 3 type 8 ref 3 bytes 5\nno: bit 42: Range (clause 7.4)\n",
        status: 1,
    },
    Case {
        name: "pps qp too great",
        stream: "00000168de01a7a0",
        text: "unit 3 type 8 ref 3 bytes 5\nno: bit 42: Range (clause 7.4)\n",
        status: 1,
    },
    Case {
        name: "pps qs least",
        stream: "00000168de20d7a0",
        text: "unit 3 type 8 ref 3 bytes 5\nyes: units 1\n",
        status: 0,
    },
];

/// More of them.
pub const SETS_3: [Case; 15] = [
    Case {
        name: "pps qs greatest",
        stream: "00000168de20cba0",
        text: "unit 3 type 8 ref 3 bytes 5\nyes: units 1\n",
        status: 0,
    },
    Case {
        name: "pps qs too small",
        stream: "00000168de20dfa0",
        text: "unit 3 type 8 ref 3 bytes 5\nno: bit 43: Range (clause 7.4)\n",
        status: 1,
    },
    Case {
        name: "pps qs too great",
        stream: "00000168de20d3a0",
        text: "unit 3 type 8 ref 3 bytes 5\nno: bit 43: Range (clause 7.4)\n",
        status: 1,
    },
    Case {
        name: "pps chroma least",
        stream: "00000168de30ce80",
        text: "unit 3 type 8 ref 3 bytes 5\nyes: units 1\n",
        status: 0,
    },
    Case {
        name: "pps chroma greatest",
        stream: "00000168de30c680",
        text: "unit 3 type 8 ref 3 bytes 5\nyes: units 1\n",
        status: 0,
    },
    Case {
        name: "pps chroma too small",
        stream: "00000168de30de80",
        text: "unit 3 type 8 ref 3 bytes 5\nno: bit 44: Range (clause 7.4)\n",
        status: 1,
    },
    Case {
        name: "pps chroma too great",
        stream: "00000168de30d680",
        text: "unit 3 type 8 ref 3 bytes 5\nno: bit 44: Range (clause 7.4)\n",
        status: 1,
    },
    Case {
        name: "pps entropy 1",
        stream: "00000168fe3e80",
        text: "unit 3 type 8 ref 3 bytes 4\nno: bit 34: Tool (clause A.2)\n",
        status: 1,
    },
    Case {
        name: "pps groups 1",
        stream: "00000168d58fa0",
        text: "unit 3 type 8 ref 3 bytes 4\nno: bit 36: Tool (clause A.2)\n",
        status: 1,
    },
    Case {
        name: "pps weighted 1",
        stream: "00000168df3e80",
        text: "unit 3 type 8 ref 3 bytes 4\nno: bit 39: Tool (clause A.2)\n",
        status: 1,
    },
    Case {
        name: "pps bipred 1",
        stream: "00000168de7e80",
        text: "unit 3 type 8 ref 3 bytes 4\nno: bit 40: Tool (clause A.2)\n",
        status: 1,
    },
    Case {
        name: "pps bipred 2",
        stream: "00000168debe80",
        text: "unit 3 type 8 ref 3 bytes 4\nno: bit 40: Tool (clause A.2)\n",
        status: 1,
    },
    Case {
        name: "pps bipred 3",
        stream: "00000168defe80",
        text: "unit 3 type 8 ref 3 bytes 4\nno: bit 40: Tool (clause A.2)\n",
        status: 1,
    },
    Case {
        name: "pps red 1",
        stream: "00000168de3f80",
        text: "unit 3 type 8 ref 3 bytes 4\nno: bit 47: Tool (clause A.2)\n",
        status: 1,
    },
    Case {
        name: "pps with an extension",
        stream: "00000168de3e30",
        text: "unit 3 type 8 ref 3 bytes 4\nno: bit 48: Trailing (clause 7.3.2)\n",
        status: 1,
    },
];
